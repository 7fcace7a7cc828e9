// The printed lines of a sheet. What is public here is a part with a `requires`, not an entry point.
#![tactic(auto)]

ghost use Rattle.std.specs.Prelude.{◌≡◌, [], ◌*◌, ◌+◌, ◌<◌, ◌≤◌, get_or};
ghost use Rattle.judge.specs.own.Search.{Ready};
ghost use Rattle.text.specs.Text.{decimal, Wrote};
ghost use Rattle.sheet.specs.Promise.{refused_text, second_text, tabbed, total_text};
ghost use Rattle.field.specs.own.Known.{names_in};
ghost use Rattle.store.specs.own.Laid.{Laid};
ghost use Rattle.printed.specs.own.Lines.{RuleLines, Tallied, Tallying, line_text};

use field::Table;
use field::known::Known;
use judge::Search;
use rule::{Finding, Rule};
use store::{Item, Layout};

// How far the findings are printed: the place in the room, how many more may be printed, and how many there are so far in all.
#[derive(Clone, Copy)]
pub struct Tally {
    pub at: usize,
    pub left: usize,
    pub total: u64,
}

// The name of an item; no bytes where there is none with that number.
fn name<'a>(known: &Known<'a>, a: Item) -> &'a [u8]
    ensures { result.now ≡ get_or (names_in known.now).items a.0 [] }
{
    if a.0 < known.counts.items {
        return field::names::name_at(known.sheet, known.numbers[Table::ITEMS + a.0]);
    }
    text::part::part(known.sheet, 0, 0)
}

// Writes a number after a tab.
pub fn put_number(room: &mut [u8], at: usize, n: usize) -> usize
    requires { at < 900000 }
    ensures { (Wrote room.old at (tabbed (decimal n)) room.new result) × (result ≤ at + 21) }
{
    let p = text::write::put(room, at, 9);
    text::write::put_decimal(room, p, n)
}

// Writes the name of an item after a tab.
pub fn put_name(known: &Known, a: Item, room: &mut [u8], at: usize) -> usize
    requires { at < 900000 }
    ensures { (Wrote room.old at (tabbed (get_or (names_in known.now).items a.0 [])) room.new result) × (result ≤ at + 32) }
{
    let p = text::write::put(room, at, 9);
    text::write::put_all(room, p, name(known, a))
}

// Writes the second item of a finding, if there is one.
fn put_second(known: &Known, s: Option<Item>, room: &mut [u8], at: usize) -> usize
    requires { at < 900000 }
    ensures { (Wrote room.old at (second_text (names_in known.now) s) room.new result) × (result ≤ at + 32) }
{
    match s {
        None => at,
        Some(b) => put_name(known, b, room, at),
    }
}

// Writes `refused`, the line and the number.
pub fn refused(room: &mut [u8], at: usize, line: usize, number: usize) -> usize
    requires { at < 800000 }
    ensures { (Wrote room.old at (refused_text line number) room.new result) × (result ≤ at + 50) }
{
    let word = text::write::put_all(room, at, b"refused");
    let first = put_number(room, word, line);
    let second = put_number(room, first, number);
    text::write::put(room, second, 10)
}

// Writes `total` and the count of all findings.
pub fn total(room: &mut [u8], at: usize, n: u64) -> usize
    requires { at < 800000 }
    ensures { (Wrote room.old at (total_text n) room.new result) × (result ≤ at + 27) }
{
    let word = text::write::put_all(room, at, b"total");
    let count = put_number(room, word, n as usize);
    text::write::put(room, count, 10)
}

// Writes a finding of the rule in a line: `finding`, the line number, item, second item if any.
fn finding(known: &Known, line: usize, f: Finding, room: &mut [u8], at: usize) -> usize
    requires { at < 800000 }
    ensures { (Wrote room.old at (line_text (names_in known.now) line f) room.new result) × (result ≤ at + 93) }
{
    let word = text::write::put_all(room, at, b"finding");
    let number = put_number(room, word, line);
    let first = put_name(known, f.item, room, number);
    let second = put_second(known, f.second, room, first);
    text::write::put(room, second, 10)
}

// Writes the first n findings from the search on, of the rule in a line.
fn findings(
    known: &Known,
    line: usize,
    n: usize,
    words: &[u64],
    first: Search,
    room: &mut [u8],
    at: usize,
) -> usize
    requires { (n ≤ 200) × (at < 700000) × (0 < n → Ready words.now first) }
    ensures { (RuleLines words.now first n (names_in known.now) line room.old at room.new result) × (result ≤ at + 93 * n) }
{
    let mut c = first;
    let mut p = at;
    for _i in 0..n {
        p = finding(known, line, c.finding, room, p);
        c = judge::seek::step(words, c);
    }
    p
}

// Judges the rule in a line: prints its findings, as many as are left to print, and counts them all.
pub fn judge(
    known: &Known,
    line: usize,
    number: usize,
    u: Rule,
    words: &[u64],
    layout: Layout,
    room: &mut [u8],
    b: Tally,
) -> Tally
    requires { Tallying layout.width words.now known.now.counts b × Laid layout words.now }
    ensures { Tallied layout.width words.now known.now.counts number u (names_in known.now) line room.old b room.new result }
{
    let p = judge::seek::start(words, layout, known.counts, number, u, b.left);
    let at = findings(known, line, p.write, words, p.search, room, b.at);
    let m = sheet::reads::counted(p.answer);
    Tally {
        at,
        left: b.left - p.write,
        total: b.total + m,
    }
}
