// What is wrong with a line: each field by itself, and the line as a whole.
#![tactic(auto)]

mod faults;
pub mod lines;
mod walk;

// What can be wrong with a line, by the numbers of refusal: of two that apply the lower one counts.
#[derive(Clone, Copy)]
pub enum Fault {
    // The line is too long, or has a byte that may not stand in a line.
    Bytes = 10,
    // Line 1 is no header that the store takes.
    Header,
    // Its word is unknown.
    Word,
    // Its section has ended.
    Ended,
    // It has too few fields, or too many.
    Fields,
    // A field is no name, or a name that is not allowed there.
    Name,
    // An item's name is date-shaped.
    Date,
    // A name is declared again.
    Again,
    // There is no room for one more.
    Room,
    // A name is not declared.
    Undeclared,
    // A count is none.
    Count,
    // A rule has too many nodes.
    Nodes,
}

// What all the fields of a line come to: whether they are exactly those that are due, the lowest fault of one of them, and their nodes.
#[derive(Clone, Copy)]
struct Walked {
    pub fits: bool,
    pub fault: Result<(), Fault>,
    pub nodes: usize,
}

// How far a sheet has come: whether a statement was accepted, and how many rules.
#[derive(Clone, Copy)]
pub struct Marks {
    pub stated: bool,
    pub rules: usize,
}

// A sheet.
#[derive(Drop)]
pub struct Sheet {}

impl Sheet {
    // The most bytes of a sheet.
    pub const BYTES: usize = 32768;
    // The most bytes of a line, without its line feed.
    pub const LINE: usize = 512;
    // The most fields of a line.
    pub const FIELDS: usize = Sheet::LINE + 1;
    // The most rules of a sheet.
    pub const RULES: usize = 64;
    // The most findings that are printed.
    pub const PRINTED: usize = 200;
}
