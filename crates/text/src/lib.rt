// Bytes: parts, names, dates, decimal numbers, and text written into lent room. Knows nothing of stores.
#![tactic(auto)]

pub mod chunk;
pub mod date;
pub mod name;
pub mod part;
pub mod write;
