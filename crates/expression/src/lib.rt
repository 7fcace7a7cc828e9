// The rows of what an expression holds of, in a closed store: whole rows of items at once, a node at a time.
#![tactic(auto)]

mod count;
pub mod holding;
mod lead;
mod tally;
