// The findings of a rule as words.
ghost use Rattle.std.specs.Prelude.{◌*◌, ◌<◌, ◌≤◌, ◌≡◌, length};
ghost use Rattle.judge.specs.own.Search.{Ready};
ghost use Rattle.coded.specs.Promise.{ListCode, second_word};
ghost use Rattle.coded.specs.own.Writing.{Written};

use crate::Coded;
use judge::Search;
use store::{Counts, Item};

// The word of a second item.
fn second(s: Option<Item>) -> u64
    ensures { result ≡ second_word s }
{
    match s {
        None => Coded::NO_ITEM,
        Some(i) => i.0 as u64,
    }
}

// Writes the first n findings from the search on, two words each.
fn write(out: &mut [u64], n: usize, words: &[u64], first: Search)
    requires { (2 * n ≤ length out.old) × (0 < n → Ready words.now first) }
    ensures { Written words.now first n out.old out.new }
{
    let mut c = first;
    for i in 0..n {
        out[2 * i] = c.finding.item.0 as u64;
        out[2 * i + 1] = second(c.finding.second);
        c = judge::seek::step(words, c);
    }
}

// Finds what breaks the rule that the words given say: the number of findings, the first ones as far as `out` reaches; or minus the number of refusal.
pub fn findings(words: &[u64], counts: Counts, given: &[u64], out: &mut [u64]) -> i64
    ensures { ListCode counts words.now given.now out.old out.new result }
{
    let u = spelled::rules::rule_of(given);
    let p = judge::seek::prepare(words, counts, 0, u, out.len() / 2);
    write(out, p.write, words, p.search);
    refusal::signed(p.answer)
}
