// What each kind of statement but `runder` does to a store's words, and what makes them fresh: the parts of `closure`, which knows what follows.
#![tactic(auto)]

pub mod link;
pub mod member;
pub mod same;
pub mod start;
pub mod under;
