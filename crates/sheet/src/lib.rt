// Whole sheets: what their lines say one after the other, reading them into a lent store, and their rules a second time.
#![tactic(auto)]

pub mod edition;
mod keeping;
pub mod pass;
pub mod reads;
pub mod sheets;
mod taking;

ghost use Rattle.std.specs.Prelude.{◌≤◌};
ghost use Rattle.store.specs.Layout.{large, width_of};
ghost use Rattle.field.specs.own.Table.{number_count};
ghost use Rattle.sheet.specs.Promise.{Reads};

use field::Table;
use line::{Fault, Marks};
use rule::Rule;
use store::{Counts, Store};

// What is kept of the lines read so far: how many names are declared, and how far the sheet has come.
#[derive(Clone, Copy)]
pub struct Kept {
    pub counts: Counts,
    pub marks: Marks,
}

// What reading a line gives: its fault, if it has one, and what is kept then.
#[derive(Clone, Copy)]
struct LineRead {
    taken: Result<(), Fault>,
    kept: Kept,
}

// Where the rules of a sheet begin: a place, and the number of the line there. No rule stands before it.
#[derive(Clone, Copy)]
pub struct Start {
    pub at: usize,
    pub line: usize,
}

// How the lines of a sheet end: why the sheet is refused, if it is; what is kept; and where the rules begin.
#[derive(Clone, Copy)]
pub struct Ended {
    pub read: Result<(), Refused>,
    pub kept: Kept,
    pub start: Start,
}

// A rule of a sheet: the number of its line, the place past that line, and the rule.
#[derive(Clone, Copy)]
pub struct RuleLine {
    pub line: usize,
    pub past: usize,
    pub rule: Rule,
}

// What an accepted sheet has: how many names are declared, how many rules there are, and how many findings they have in all.
#[derive(Clone, Copy)]
pub struct Accepted {
    pub counts: Counts,
    pub rules: usize,
    pub findings: u64,
}

// Why a sheet is refused: the line and the number of refusal; line 0 is the whole sheet.
#[derive(Clone, Copy)]
pub struct Refused {
    pub line: usize,
    pub why: usize,
}

// What reading a sheet gives, how many names it declares, and where its rules begin.
#[derive(Clone, Copy)]
pub struct Whole {
    pub answer: Result<Accepted, Refused>,
    pub counts: Counts,
    pub start: Start,
}

// Reads a sheet into a lent store, with N numbers for its names; it stays a call, so that the larger numbers take no room where the smaller suffice.
#[inline(never)]
fn read_with<const N: usize>(sheet: &[u8], words: &mut [u64]) -> Result<Accepted, Refused>
    requires { (number_count (width_of words.old) ≤ N) × (N ≤ number_count large) }
    ensures { Reads sheet.now words.old words.new result }
{
    let mut names = [0u32; N];
    crate::reads::whole(sheet, words, &mut names).answer
}

// Reads a sheet into the lent store: what follows from its statements, and how many findings its rules have.
pub fn read(sheet: &[u8], words: &mut [u64]) -> Result<Accepted, Refused>
    ensures { Reads sheet.now words.old words.new result }
{
    if words.len() == Store::LARGE_WORDS {
        read_with::<{ Table::LARGE_NUMBERS }>(sheet, words)
    } else {
        read_with::<{ Table::NUMBERS }>(sheet, words)
    }
}
