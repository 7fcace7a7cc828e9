#![tactic(auto)]

// The ground floor: definitions and laws that every crate above uses. It has no function and no word of the trade.
