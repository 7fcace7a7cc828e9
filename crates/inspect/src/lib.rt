// Tests of the rows of a list of words: which bits they have, and whether rows include others.
#![tactic(auto)]

pub mod below;
pub mod test;
