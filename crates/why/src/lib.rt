// Why a cell is true: statement lines of a sheet from which it follows, and from no part of them with a line taken out.
#![tactic(auto)]

pub mod gather;
mod stating;

ghost use Rattle.std.specs.Prelude.{◌≤◌, length, replicate};
ghost use Rattle.store.specs.Cell.{cell_of};
ghost use Rattle.store.specs.Layout.{width_of};
ghost use Rattle.sheet.specs.own.Pass.{Accepts};
ghost use Rattle.field.specs.own.Table.{number_count, table_of};
ghost use Rattle.reason.specs.own.Promise.{Lent};
ghost use Rattle.why.specs.own.Asked.{Asked};
ghost use Rattle.why.specs.own.Gather.{Searched};
ghost use Rattle.why.specs.Promise.{Explains};
ghost use Rattle.why.specs.own.Writing.{Answered, Lists, PutIf};

use field::Table;
use field::known::Known;
use reason::Lines;
use sheet::Refused;
use store::view::View;
use store::{Statement, Store};

// A statement of a sheet: the number of its line, the place past that line, and the statement.
#[derive(Clone, Copy)]
pub struct StatementLine {
    pub line: usize,
    pub past: usize,
    pub statement: Statement,
}

// The words lent for the search of a reason: a row for each item.
#[derive(Drop)]
pub struct Paths {}

impl Paths {
    // For the items of the smaller store.
    pub const WORDS: usize = 256;
    // For those of the larger one.
    pub const LARGE_WORDS: usize = 4096;
}

// Puts a line's number into the list at the place i, if `on` and if the list reaches so far; the place after it.
fn put(list: &mut [u32], i: usize, line: usize, on: bool) -> usize
    requires { (i ≤ 65536) × (line ≤ 65536) }
    ensures { PutIf on i line list.old list.new result }
{
    if !on {
        return i;
    }
    if i < list.len() {
        list[i] = line as u32;
    }
    i + 1
}

// Lists the lines of the statements marked, as far as the list reaches; says how many they are in all.
fn write(known: &Known, marks: &[u64; Lines::WORDS], list: &mut [u32]) -> usize
    requires { Accepts known.now.sheet.now (table_of known.now.numbers.now known.now.counts) }
    ensures { Lists known.now.sheet.now (table_of known.now.numbers.now known.now.counts) marks.now list.old list.new result }
{
    let mut at = stating::second_line(known.sheet);
    let mut line = 2;
    let mut n = 0;
    let mut total = 0;
    while let Some(q) = stating::next(known, at, line) {
        total = put(list, total, q.line, reason::marks::has(marks, n));
        n += 1;
        at = q.past;
        line = q.line + 1;
    }
    total
}

// Lists a reason for a cell that follows from the statements of an accepted sheet; says how many lines it has. The words lent have room for a row of `width` words for each item.
pub fn list(
    known: &Known,
    cell: Statement,
    table: &mut [u64],
    width: usize,
    room: &mut [u32],
) -> usize
    requires { Asked known.now.sheet.now (table_of known.now.numbers.now known.now.counts) (cell_of cell) × Searched width known.now.counts table.old }
    ensures { Answered known.now.sheet.now (table_of known.now.numbers.now known.now.counts) (cell_of cell) room.old room.new result }
{
    let mut marks = [0u64; Lines::WORDS];
    gather::reasoned(known, cell, table, width, &mut marks);
    write(known, &marks, room)
}

// Reads a sheet into the lent store, with numbers lent for its names and words for the search, and lists a reason for a cell, or says why not.
fn answer(
    sheet: &[u8],
    words: &mut [u64],
    names: &mut [u32],
    table: &mut [u64],
    cell: Statement,
    room: &mut [u32],
) -> Result<usize, Refused>
    requires { (number_count (width_of words.old) ≤ length names.old) × Lent (width_of words.old) table.old }
    ensures { Explains sheet.now words.old words.new (cell_of cell) room.old room.new result }
{
    if !store::size::long(words) {
        return Err(Refused { line: 0, why: 1 });
    }
    let at = store::size::layout_of(words);
    let e = sheet::sheets::fill(sheet, words, at, names);
    e.read?;
    let known = Known {
        sheet,
        numbers: names,
        counts: e.kept.counts,
    };
    let view = View {
        words,
        at,
        counts: known.counts,
    };
    if !view.told(cell) {
        return Err(Refused { line: 0, why: 24 });
    }
    Ok(list(&known, cell, table, at.width, room))
}

// The same with N numbers for the names and T words for the search; it stays a call, so that the larger ones take no room where the smaller suffice.
#[inline(never)]
fn explain_with<const N: usize, const T: usize>(
    sheet: &[u8],
    words: &mut [u64],
    cell: Statement,
    room: &mut [u32],
) -> Result<usize, Refused>
    requires { (number_count (width_of words.old) ≤ N) × (N ≤ 65536) × Lent (width_of words.old) (replicate T 0) × (T ≤ 65536) }
    ensures { Explains sheet.now words.old words.new (cell_of cell) room.old room.new result }
{
    let mut names = [0u32; N];
    let mut table = [0u64; T];
    answer(sheet, words, &mut names, &mut table, cell, room)
}

// Reads a sheet into the lent store, and lists statement lines from which a cell follows, and from no part of them with a line taken out: the first ones as far as the list reaches; says how
// many they are in all, or why not. The cell is given as the statement that states it.
pub fn explain(
    sheet: &[u8],
    words: &mut [u64],
    cell: Statement,
    room: &mut [u32],
) -> Result<usize, Refused>
    ensures { Explains sheet.now words.old words.new (cell_of cell) room.old room.new result }
{
    if words.len() == Store::LARGE_WORDS {
        return explain_with::<{ Table::LARGE_NUMBERS }, { Paths::LARGE_WORDS }>(
            sheet, words, cell, room,
        );
    }
    explain_with::<{ Table::NUMBERS }, { Paths::WORDS }>(sheet, words, cell, room)
}
