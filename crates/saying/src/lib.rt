// What a rule line without a fault says.
#![tactic(auto)]

mod expressions;
pub mod rules;

// How far the expressions of a line are read: how many nodes are written so far, and the number of the field past them.
#[derive(Clone, Copy)]
struct Parsed {
    pub len: usize,
    pub at: usize,
}
