// Rules as plain words, for the C face. include/saltreeve.h says how a rule is written.
#![tactic(auto)]

pub mod rules;

// How a rule is written as words.
#[derive(Drop)]
pub struct Spelled {}

impl Spelled {
    // The words of a rule.
    pub const RULE: usize = 173;
    // The place of the number of nodes.
    pub const COUNT: usize = 12;
    // The place of the first node.
    pub const FIRST: usize = 13;
    // The words of a node.
    pub const NODE: usize = 5;
}
