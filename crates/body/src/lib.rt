// The body of a query: what a rule is translated to, how long it is, and its items written one after the other.
#![tactic(auto)]

pub mod length;
pub mod write;

// What limits the items of a query.
#[derive(Drop)]
pub struct Body {}

impl Body {
    // The most items of a query.
    pub const ITEMS: usize = 512;
    // The words of an item.
    pub const WORDS: usize = 4;
    // The term of item 0; those of the others follow.
    pub const FIRST: usize = 4096;
}

// The kinds of items, each with its word.
#[derive(Clone, Copy)]
pub enum Kind {
    Concept = 1,
    Role = 2,
    Equality = 3,
    Open = 4,
    Close = 5,
}

// Where the next item is written, and the next free variable.
#[derive(Clone, Copy)]
pub struct Cursor {
    pub next: u16,
    pub place: usize,
}
