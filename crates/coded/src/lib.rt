// The findings and the query of a rule that is given as plain words, for the C face.
#![tactic(auto)]

pub mod findings;
pub mod queries;

// How findings are written as words.
#[derive(Drop)]
pub struct Coded {}

impl Coded {
    // What stands for the second item of a finding that has none.
    pub const NO_ITEM: u64 = 18446744073709551615;
}
