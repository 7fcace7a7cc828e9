// What the fields of a line name: concepts, roles and items by their numbers, and the statement that a line says.
#![tactic(auto)]

pub mod numbers;
pub mod statements;
