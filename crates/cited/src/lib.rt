// The text of a reason: the lines of the statements in it, what is absent, and how many lines there are.
#![tactic(auto)]

pub mod print;

// How far the lines of a reason are printed: the place in the room, and how many lines there are so far.
#[derive(Clone, Copy)]
pub struct Printed {
    pub at: usize,
    pub total: usize,
}

// The item and the concept of a cell that is absent.
#[derive(Clone, Copy)]
pub struct Absent {
    pub item: usize,
    pub concept: usize,
}
