// Many statements added to a lent store, one after the other, with one test of closedness; and what the C face gives and takes of statements as plain numbers.
#![tactic(auto)]

pub mod number;

ghost use Rattle.std.specs.Prelude.{◌≡◌, ◌+◌, ◌*◌, ◌≤◌, length};
ghost use Rattle.store.specs.Cell.{cell_of};
ghost use Rattle.store.specs.Layout.{ClosedStore, width_of};
ghost use Rattle.store.specs.own.Laid.{layout_of};
ghost use Rattle.batch.specs.Promise.{AddsAll, cell_numbered};
ghost use Rattle.batch.specs.own.Turn.{Answered, Filled, Turn};

use closure::Refusal;
use store::{Counts, Layout, Statement};

// Statement i of the list.
fn statement(statements: &[u64], i: usize) -> Statement
    requires { 4 * i + 4 ≤ length statements.now }
    ensures { cell_of result ≡ cell_numbered statements.now i }
{
    let at = 4 * i;
    let kind = statements[at] as usize;
    let a = statements[at + 1] as usize;
    let b = statements[at + 2] as usize;
    let c = statements[at + 3] as usize;
    number::cell(kind, a, b, c)
}

// Adds a statement to a closed store, and gives the answer as a signed number.
fn turn(words: &mut [u64], at: Layout, counts: Counts, s: Statement) -> i64
    requires { (at ≡ layout_of (width_of words.old)) × ClosedStore (width_of words.old) counts words.old }
    ensures { Turn counts (cell_of s) words.old words.new result }
{
    refusal::signed(closure::entry::take(words, at, counts, s))
}

// Adds the first `count` statements to a closed store, one after the other.
fn turns(
    words: &mut [u64],
    at: Layout,
    counts: Counts,
    statements: &[u64],
    answers: &mut [i64],
    count: usize,
)
    requires { (at ≡ layout_of (width_of words.old)) × ClosedStore (width_of words.old) counts words.old × (4 * count ≤ length statements.now) × (count ≤ length answers.old) }
    ensures { Answered counts statements.now answers.old answers.new words.old words.new count }
{
    for i in 0..count {
        let s = statement(statements, i);
        answers[i] = turn(words, at, counts, s);
    }
}

// The first `count` answers become r.
fn fill(answers: &mut [i64], count: usize, r: i64)
    requires { count ≤ length answers.old }
    ensures { Filled r count answers.old answers.new }
{
    answers[..count].fill(r);
}

// Adds the statements, as many as have a place for their answers, one after the other, and says how many they are.
pub fn add_all(words: &mut [u64], counts: Counts, statements: &[u64], answers: &mut [i64]) -> usize
    ensures { AddsAll counts statements.now answers.old answers.new words.old words.new result }
{
    let count = (statements.len() / 4).min(answers.len());
    if !store::size::sized(words, counts) {
        fill(answers, count, refusal::signed(Err(Refusal::Size)));
        return count;
    }
    let at = store::size::layout_of(words);
    if !closed::is_closed(words, at, counts) {
        fill(answers, count, refusal::signed(Err(Refusal::NotClosed)));
        return count;
    }
    turns(words, at, counts, statements, answers, count);
    count
}
