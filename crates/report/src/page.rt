// The whole text of a sheet.
ghost use Rattle.std.specs.Prelude.{◌≡◌, ◌≤◌, length};
ghost use Rattle.store.specs.Layout.{small, width_of};
ghost use Rattle.store.specs.own.Laid.{Laid};
ghost use Rattle.field.specs.own.Table.{number_count, table_of};
ghost use Rattle.sheet.specs.own.Pass.{Judges};
ghost use Rattle.sheet.specs.own.Stands.{Since};
ghost use Rattle.report.specs.own.Pages.{Filled, JudgedAll};
ghost use Rattle.report.specs.Promise.{Pages, PagesIn, text_limit};

use crate::Report;
use field::Table;
use field::known::Known;
use line::Sheet;
use printed::Tally;
use sheet::{Ended, Start};
use store::{Layout, Store};

// Judges the rules of an accepted sheet one after the other: prints their findings and counts them.
fn judge_all(known: &Known, start: Start, words: &[u64], at: Layout, room: &mut [u8]) -> Tally
    requires { Judges at.width known.now.sheet.now (table_of known.now.numbers.now known.now.counts) words.now × Since at.width known.now.sheet.now start × Laid at words.now }
    ensures { JudgedAll at.width known.now.sheet.now (table_of known.now.numbers.now known.now.counts) words.now room.old room.new result }
{
    let mut next = sheet::pass::next(known, start.at, start.line);
    let mut n = 0;
    let mut b = Tally {
        at: 0,
        left: Sheet::PRINTED,
        total: 0,
    };
    while let Some(q) = next {
        b = printed::judge(known, q.line, n, q.rule, words, at, room, b);
        n += 1;
        next = sheet::pass::next(known, q.past, q.line + 1);
    }
    b
}

// Writes the text of a sheet whose lines ended so, with the names and the store that they filled.
fn print_ended(
    sheet: &[u8],
    e: Ended,
    names: &[u32],
    words: &[u64],
    at: Layout,
    room: &mut [u8],
) -> usize
    requires { Filled at.width sheet.now names.now words.now e × Laid at words.now }
    ensures { Pages at.width sheet.now room.old room.new result }
{
    if let Err(refused) = e.read {
        return printed::refused(room, 0, refused.line, refused.why);
    }
    let known = Known {
        sheet,
        numbers: names,
        counts: e.kept.counts,
    };
    let b = judge_all(&known, e.start, words, at, room);
    printed::total(room, b.at, b.total)
}

// Bytes that suffice for the text of any sheet with the lent store.
pub fn most(words: &[u64]) -> usize
    ensures { result ≡ text_limit (width_of words.now) }
{
    if words.len() == Store::LARGE_WORDS {
        return Report::LARGE_BYTES;
    }
    Report::BYTES
}

// Reads a sheet into the lent store and writes the text for it, with numbers lent for its names.
fn page_with(sheet: &[u8], words: &mut [u64], names: &mut [u32], room: &mut [u8]) -> usize
    requires { number_count (width_of words.old) ≤ length names.old }
    ensures { PagesIn sheet.now words.old words.new room.old room.new result }
{
    if !store::size::long(words) {
        return printed::refused(room, 0, 0, 1);
    }
    let at = store::size::layout_of(words);
    let e = sheet::sheets::fill(sheet, words, at, names);
    print_ended(sheet, e, names, words, at, room)
}

// The same with N numbers of its own; it stays a call, so that the larger numbers take no room where the smaller suffice.
#[inline(never)]
fn page_of<const N: usize>(sheet: &[u8], words: &mut [u64], room: &mut [u8]) -> usize
    requires { (number_count (width_of words.old) ≤ N) × (N ≤ 65536) }
    ensures { PagesIn sheet.now words.old words.new room.old room.new result }
{
    let mut names = [0u32; N];
    page_with(sheet, words, &mut names, room)
}

// Reads a sheet into the lent store and writes the text for it, as far as the room reaches; gives the length of the whole text.
pub fn page_in(sheet: &[u8], words: &mut [u64], room: &mut [u8]) -> usize
    ensures { PagesIn sheet.now words.old words.new room.old room.new result }
{
    if words.len() == Store::LARGE_WORDS {
        return page_of::<{ Table::LARGE_NUMBERS }>(sheet, words, room);
    }
    page_of::<{ Table::NUMBERS }>(sheet, words, room)
}

// Writes the text that is printed for a sheet, as far as the room reaches; gives the length of the whole text.
pub fn page(sheet: &[u8], room: &mut [u8]) -> usize
    ensures { Pages small sheet.now room.old room.new result }
{
    let mut words = [0u64; Store::WORDS];
    let mut names = [0u32; Table::NUMBERS];
    let at = store::size::layout(Store::SMALL);
    let e = sheet::sheets::fill_blank(sheet, &mut words, at, &mut names);
    print_ended(sheet, e, &names, &words, at, room)
}
