// The findings of all rules of an accepted sheet, one after the other: the parts of `listing::read`, which writes them into a list.
#![tactic(auto)]

ghost use Rattle.std.specs.Prelude.{◌≤◌, length};
ghost use Rattle.store.specs.Layout.{ClosedStore, width_of};
ghost use Rattle.field.specs.own.Table.{number_count, table_of};
ghost use Rattle.sheet.specs.own.Pass.{Paused};
ghost use Rattle.trail.specs.own.Trail.{Ended, Going, Opens, Sought, Steps};

use breach::Plan;
use field::known::Known;
use judge::{Cursor, Search};
use row::Row;
use rule::{Finding, Head};
use sheet::{Accepted, Refused};
use store::{Counts, Item, Store};

// A search for the findings of all rules of a sheet: the search of the rule at hand, how many findings that rule has left, and where the sheet is read on for the next rule.
#[derive(Clone, Copy)]
pub struct Trail {
    pub search: Search,
    pub more: u64,
    pub past: usize,
    pub line: usize,
    pub number: usize,
}

// What reading a sheet with a list needs: its answer, how many findings to write, how many names are declared, and the trail at the first.
#[derive(Clone, Copy)]
pub struct Opening {
    pub answer: Result<Accepted, Refused>,
    pub write: usize,
    pub counts: Counts,
    pub trail: Trail,
}

// A trail with no finding left.
fn ended(counts: Counts, past: usize, line: usize, number: usize) -> Trail
    ensures { Ended past line number result }
{
    let none = row::pick::empty();
    let finding = Finding {
        rule: 0,
        item: Item(0),
        second: None,
    };
    let plan = Plan {
        head: Head::Same(Item(0), Item(0)),
        left: none,
        right: none,
    };
    let cursor = Cursor {
        plan,
        row: none,
        x: 0,
        y: 0,
    };
    let search = Search {
        finding,
        cursor,
        at: store::size::layout(Store::SMALL),
        counts,
    };
    Trail {
        search,
        more: 0,
        past,
        line,
        number,
    }
}

// The trail at the first finding of the rules past a place of the sheet, where a line with the number given begins; the first of these rules has its number too.
fn seek(known: &Known, words: &[u64], from: usize, first: usize, rule: usize) -> Trail
    requires { ClosedStore (width_of words.now) known.now.counts words.now × Paused known.now.sheet.now (table_of known.now.numbers.now known.now.counts) from first × (rule ≤ from) }
    ensures { Sought known.now.sheet.now (table_of known.now.numbers.now known.now.counts) words.now from first rule result }
{
    let at = store::size::layout_of(words);
    let mut past = from;
    let mut line = first;
    let mut number = rule;
    while let Some(r) = sheet::pass::next(known, past, line) {
        let p = judge::seek::start(words, at, known.counts, number, r.rule, 0);
        let more = sheet::reads::counted(p.answer);
        past = r.past;
        line = r.line + 1;
        number += 1;
        if 0 < more {
            return Trail {
                search: p.search,
                more,
                past,
                line,
                number,
            };
        }
    }
    ended(known.counts, past, line, number)
}

// The trail at the next finding: of the same rule, or of the next one that has any.
pub fn step(known: &Known, words: &[u64], c: Trail) -> Trail
    requires { Going known.now.sheet.now (table_of known.now.numbers.now known.now.counts) words.now c }
    ensures { Steps known.now.sheet.now (table_of known.now.numbers.now known.now.counts) words.now c result }
{
    if 1 < c.more {
        return Trail {
            search: judge::seek::step(words, c.search),
            more: c.more - 1,
            past: c.past,
            line: c.line,
            number: c.number,
        };
    }
    seek(known, words, c.past, c.line, c.number)
}

// Reads a sheet into the lent store: the answer, how many findings go into a list of so many places, and the trail at the first.
pub fn open(sheet: &[u8], words: &mut [u64], names: &mut [u32], room: usize) -> Opening
    requires { number_count (width_of words.old) ≤ length names.old }
    ensures { Opens sheet.now words.old words.new names.new room result }
{
    let w = sheet::reads::whole(sheet, words, names);
    match w.answer {
        Ok(read) => {
            let known = Known {
                sheet,
                numbers: names,
                counts: w.counts,
            };
            Opening {
                answer: w.answer,
                write: (read.findings as usize).min(room),
                counts: w.counts,
                trail: seek(&known, words, w.start.at, w.start.line, 0),
            }
        }
        Err(_) => Opening {
            answer: w.answer,
            write: 0,
            counts: w.counts,
            trail: ended(w.counts, 0, 0, 0),
        },
    }
}
