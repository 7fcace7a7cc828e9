ghost use Rattle.std.specs.Prelude.{◌≡◌};
ghost use Rattle.store.specs.Layout.{ClosedStore};
ghost use Rattle.store.specs.own.Laid.{Laid};
ghost use Rattle.judge.specs.own.Search.{Prepares, Ready, Starts, Stepped, Stops, search_at};

use crate::{Cursor, Prepared, RuleRefusal, Search};
use breach::Plan;
use rule::Rule;
use store::view::View;
use store::{Counts, Layout, Store};

// The search at a cursor, for a rule with the number given.
fn search_at(cursor: Cursor, number: usize, at: Layout, counts: Counts) -> Search
    ensures { result ≡ search_at cursor number at counts }
{
    Search {
        finding: crate::findings::current(cursor, number),
        cursor,
        at,
        counts,
    }
}

// The search at the next finding.
pub fn step(words: &[u64], c: Search) -> Search
    requires { Ready words.now c }
    ensures { Stepped words.now c result }
{
    let view = View {
        words,
        at: c.at,
        counts: c.counts,
    };
    let next = crate::findings::advance(&view, c.cursor);
    search_at(next, c.finding.rule, c.at, c.counts)
}

// What a listing needs, in a store that is known to be closed: a part of the entry points, for those who keep one store for many rules.
pub fn start(
    words: &[u64],
    at: Layout,
    counts: Counts,
    number: usize,
    rule: Rule,
    room: usize,
) -> Prepared
    requires { Laid at words.now × ClosedStore at.width counts words.now }
    ensures { Starts words.now at counts number rule room result }
{
    let view = View { words, at, counts };
    let plan = breach::breaking::plan(&view, &rule);
    let total = crate::findings::count(&view, plan);
    let cursor = crate::findings::first(&view, plan, total);
    Prepared {
        answer: Ok(total),
        write: (total as usize).min(room),
        search: search_at(cursor, number, at, counts),
    }
}

// A refusal: nothing to write.
fn stop(counts: Counts, number: usize, rule: Rule, k: RuleRefusal) -> Prepared
    ensures { Stops k result }
{
    let none = row::pick::empty();
    let plan = Plan {
        head: rule.head,
        left: none,
        right: none,
    };
    let cursor = Cursor {
        plan,
        row: none,
        x: 0,
        y: 0,
    };
    let at = store::size::layout(Store::SMALL);
    Prepared {
        answer: Err(k),
        write: 0,
        search: search_at(cursor, number, at, counts),
    }
}

// The answer of a listing, the number of findings to write, and the search at the first.
pub fn prepare(words: &[u64], counts: Counts, number: usize, rule: Rule, room: usize) -> Prepared
    ensures { Prepares words.now counts number rule room result }
{
    if !store::size::sized(words, counts) {
        return stop(counts, number, rule, RuleRefusal::Size);
    }
    let at = store::size::layout_of(words);
    if !closed::is_closed(words, at, counts) {
        return stop(counts, number, rule, RuleRefusal::NotClosed);
    }
    if !form::well_formed(&rule) {
        return stop(counts, number, rule, RuleRefusal::Malformed);
    }
    if !form::rule_within(counts, &rule) {
        return stop(counts, number, rule, RuleRefusal::Number);
    }
    start(words, at, counts, number, rule, room)
}
