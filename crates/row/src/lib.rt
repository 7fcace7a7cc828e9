// Words as rows of bits. Each fact about a row is proved once, over its width.
#![tactic(auto)]

pub mod bit;
pub mod copy;
pub mod pick;

// How many words a row has that stands alone.
pub const ROOM: usize = 8;

// A row that stands alone.
pub type Row = [u64; ROOM];
