// What is printed for a question about a sheet: the lines behind a cell or a finding.
#![tactic(auto)]

mod ask;
pub mod reply;

// The finding that a question asks for: the item, and the concepts on the sides of its rule.
#[derive(Clone, Copy)]
pub struct FindingAsked {
    pub item: usize,
    pub left: usize,
    pub right: usize,
}
