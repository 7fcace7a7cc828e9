// Questions about a sheet, and the cell that one asks for.
#![tactic(auto)]

pub mod ask;
