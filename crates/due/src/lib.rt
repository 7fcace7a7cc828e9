// What is due in a line: its fields in their order, and what is still due after each of them.
#![tactic(auto)]

pub mod ahead;
pub mod dues;

// What is due first in the middle of an expression, before some expressions.
#[derive(Clone, Copy)]
pub enum Lead {
    RoleUse,
    AtLeast,
    AtMost,
    Item,
}

// What is still due in a line: a lead or none, so many expressions, and of the line-up what comes after its first so many.
#[derive(Clone, Copy)]
pub struct Pending {
    pub lead: Option<Lead>,
    pub exprs: usize,
    pub own: usize,
}
