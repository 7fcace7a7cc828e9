// What a role, or its inverse, links in a closed store: one link, or whole rows of items at once.
#![tactic(auto)]

pub mod found;
pub mod look;
pub mod reach;
