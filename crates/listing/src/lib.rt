// The findings of a rule, and of all rules of a sheet, written into the caller's list.
#![tactic(auto)]

ghost use Rattle.std.specs.Prelude.{◌<◌, ◌≤◌, length};
ghost use Rattle.judge.specs.own.Search.{Met, Ready};
ghost use Rattle.store.specs.Layout.{width_of};
ghost use Rattle.judge.specs.Promise.{Lists};
ghost use Rattle.field.specs.own.Table.{table_of};
ghost use Rattle.trail.specs.own.Trail.{Going, Went};
ghost use Rattle.listing.specs.own.Listing.{Written};
ghost use Rattle.listing.specs.Promise.{ReadsInto};

use field::Table;
use field::known::Known;
use judge::{RuleRefusal, Search};
use rule::{Finding, Rule};
use sheet::{Accepted, Refused};
use store::Counts;
use trail::Trail;

// Writes the first n findings from the search on into the list.
fn write(list: &mut [Finding], n: usize, words: &[u64], first: Search)
    requires { (n ≤ length list.old) × (0 < n → Ready words.now first) }
    ensures { Written (Met words.now first) n list.old list.new }
{
    let mut c = first;
    for i in 0..n {
        list[i] = c.finding;
        c = judge::seek::step(words, c);
    }
}

// Lists the findings of a rule: the first ones as far as the list reaches; says how many there are in all, or why not.
pub fn findings(
    words: &[u64],
    counts: Counts,
    number: usize,
    rule: Rule,
    list: &mut [Finding],
) -> Result<u64, RuleRefusal>
    ensures { Lists (width_of words.now) counts number rule words.now list.old list.new result }
{
    let p = judge::seek::prepare(words, counts, number, rule, list.len());
    write(list, p.write, words, p.search);
    p.answer
}

// Writes the first n findings from the trail on into the list.
// Beside `write`, with no generic function for the two: they share three lines, and a trait that names the finding at hand, the step with all that it is lent, and the laws of both would be longer.
fn write_all(list: &mut [Finding], n: usize, known: &Known, words: &[u64], first: Trail)
    requires { (n ≤ length list.old) × (0 < n → Going known.now.sheet.now (table_of known.now.numbers.now known.now.counts) words.now first) }
    ensures { Written (Went known.now.sheet.now (table_of known.now.numbers.now known.now.counts) words.now first) n list.old list.new }
{
    let mut c = first;
    for i in 0..n {
        list[i] = c.search.finding;
        c = trail::step(known, words, c);
    }
}

// Reads a sheet into the lent store, and the findings of its rules into the lent list, as far as it reaches. The numbers for names suffice with either store.
pub fn read(sheet: &[u8], words: &mut [u64], list: &mut [Finding]) -> Result<Accepted, Refused>
    ensures { ReadsInto sheet.now words.old words.new list.old list.new result }
{
    let mut names = [0u32; Table::LARGE_NUMBERS];
    let p = trail::open(sheet, words, &mut names, list.len());
    let known = Known {
        sheet,
        numbers: &names,
        counts: p.counts,
    };
    write_all(list, p.write, &known, words, p.trail);
    p.answer
}
