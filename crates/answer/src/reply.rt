// The answer to a question about a sheet, as text.
ghost use Rattle.std.specs.Prelude.{◌≡◌, true, ◌≤◌, length, replicate};
ghost use Rattle.store.specs.Cell.{cell_of};
ghost use Rattle.store.specs.Layout.{large, size, small};
ghost use Rattle.store.specs.own.Laid.{Laid, widest};
ghost use Rattle.sheet.specs.Promise.{refused_text};
ghost use Rattle.field.specs.own.Known.{names_in};
ghost use Rattle.field.specs.own.Table.{number_count, table_of};
ghost use Rattle.reason.specs.own.Promise.{Lent};
ghost use Rattle.why.specs.own.Asked.{Asked, Of};
ghost use Rattle.why.specs.own.Gather.{Searched};
ghost use Rattle.answer.specs.Promise.{Fitted, Replies};
ghost use Rattle.question.specs.Question.{about_finding};
ghost use Rattle.cited.specs.own.Writing.{Accepted};
ghost use Rattle.answer.specs.own.Reply.{CellReply, FindingReply, ReasonFits, ReasonSaid, Stored};

use cited::Absent;
use field::Table;
use field::known::Known;
use reason::Lines;
use store::view::View;
use store::{Concept, Item, Layout, Statement, Store};
use why::Paths;

// Writes the line of a refusal, if it has place in the room; gives its length.
fn refuse(room: &mut [u8], line: usize, why: usize) -> usize
    ensures { Fitted (refused_text line why) room.old room.new result }
{
    let mut own = [0u8; 1];
    let n = printed::refused(&mut own, 0, line, why);
    if room.len() < n {
        return n;
    }
    printed::refused(room, 0, line, why)
}

// Writes the text of the statements marked, if it has place in the room; gives its length.
fn fit(known: &Known, marks: &[u64; Lines::WORDS], absent: Option<Absent>, room: &mut [u8]) -> usize
    requires { Accepted known.now.sheet.now }
    ensures { ReasonFits known.now.sheet.now (names_in known.now) absent marks.now room.old room.new result }
{
    let mut own = [0u8; 1];
    let n = cited::print::put_reason(known, marks, absent, &mut own);
    if room.len() < n {
        return n;
    }
    cited::print::put_reason(known, marks, absent, room)
}

// Writes the text of a reason for a cell that follows, with what is absent, if it has place in the room; gives its length. The words lent have room for a row of `width` words for each item.
fn explain(
    known: &Known,
    cell: Statement,
    absent: Option<Absent>,
    table: &mut [u64],
    width: usize,
    room: &mut [u8],
) -> usize
    requires { Asked known.now.sheet.now (table_of known.now.numbers.now known.now.counts) (cell_of cell) × Searched width known.now.counts table.old }
    ensures { Of known.now.sheet.now (table_of known.now.numbers.now known.now.counts) (λ x. ReasonSaid known.now.sheet.now x known.now.counts (cell_of cell) absent room.old room.new result) }
{
    let mut marks = [0u64; Lines::WORDS];
    why::gather::reasoned(known, cell, table, width, &mut marks);
    fit(known, &marks, absent, room)
}

// Answers a question for a cell.
fn cell(
    known: &Known,
    words: &[u64],
    at: Layout,
    table: &mut [u64],
    q: &[u8],
    room: &mut [u8],
) -> usize
    requires { Stored at.width known.now.sheet.now (table_of known.now.numbers.now known.now.counts) words.now × Laid at words.now × Searched at.width known.now.counts table.old }
    ensures { CellReply at.width known.now.sheet.now q.now room.old room.new result }
{
    let Some(s) = question::ask::cell(known, q) else {
        return refuse(room, 0, 24);
    };
    let view = View {
        words,
        at,
        counts: known.counts,
    };
    if !view.told(s) {
        return refuse(room, 0, 24);
    }
    explain(known, s, None, table, at.width, room)
}

// Answers a question for a finding.
fn finding(
    known: &Known,
    words: &[u64],
    at: Layout,
    table: &mut [u64],
    q: &[u8],
    room: &mut [u8],
) -> usize
    requires { Stored at.width known.now.sheet.now (table_of known.now.numbers.now known.now.counts) words.now × (about_finding q.now ≡ true) × Laid at words.now × Searched at.width known.now.counts table.old }
    ensures { FindingReply at.width known.now.sheet.now q.now room.old room.new result }
{
    let Some(f) = crate::ask::finding(known, words, at, q) else {
        return refuse(room, 0, 25);
    };
    let left = Statement::In(Item(f.item), Concept(f.left));
    let absent = Absent {
        item: f.item,
        concept: f.right,
    };
    explain(known, left, Some(absent), table, at.width, room)
}

// Answers a question about a sheet, which is read into words that are all 0, a store whose item rows have so many words, with numbers lent for its names and words for the search.
fn answer(
    sheet: &[u8],
    question: &[u8],
    words: &mut [u64],
    width: usize,
    names: &mut [u32],
    table: &mut [u64],
    room: &mut [u8],
) -> usize
    requires { (words.old ≡ replicate (size width) 0) × (number_count width ≤ length names.old) × (width ≤ widest) × (small ≤ width) × Lent width table.old }
    ensures { Replies width sheet.now question.now room.old room.new result }
{
    let at = store::size::layout(width);
    let e = sheet::sheets::fill_blank(sheet, words, at, names);
    if let Err(refused) = e.read {
        return refuse(room, refused.line, refused.why);
    }
    let known = Known {
        sheet,
        numbers: names,
        counts: e.kept.counts,
    };
    let q = question::ask::bare(question);
    if question::ask::about_finding(q) {
        return finding(&known, words, at, table, q, room);
    }
    cell(&known, words, at, table, q, room)
}

// The same with a store of W words, N numbers for the names and T words for the search.
fn reply_with<const W: usize, const N: usize, const T: usize>(
    sheet: &[u8],
    question: &[u8],
    width: usize,
    room: &mut [u8],
) -> usize
    requires { (size width ≡ W) × (W ≤ 131072) × (number_count width ≤ N) × (N ≤ 65536) × (width ≤ widest) × (small ≤ width) × Lent width (replicate T 0) × (T ≤ 65536) }
    ensures { Replies width sheet.now question.now room.old room.new result }
{
    let mut words = [0u64; W];
    let mut names = [0u32; N];
    let mut table = [0u64; T];
    answer(
        sheet, question, &mut words, width, &mut names, &mut table, room,
    )
}

// Answers a question about a sheet, which is read with the smaller store: writes the text to the room, if it has place there; gives its length.
pub fn reply(sheet: &[u8], question: &[u8], room: &mut [u8]) -> usize
    ensures { Replies small sheet.now question.now room.old room.new result }
{
    reply_with::<{ Store::WORDS }, { Table::NUMBERS }, { Paths::WORDS }>(
        sheet,
        question,
        Store::SMALL,
        room,
    )
}

// The same with the larger store.
pub fn reply_large(sheet: &[u8], question: &[u8], room: &mut [u8]) -> usize
    ensures { Replies large sheet.now question.now room.old room.new result }
{
    reply_with::<{ Store::LARGE_WORDS }, { Table::LARGE_NUMBERS }, { Paths::LARGE_WORDS }>(
        sheet,
        question,
        Store::LARGE,
        room,
    )
}
