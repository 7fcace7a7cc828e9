ghost use Rattle.std.specs.Prelude.{◌≡◌, ◌≤◌, length};
ghost use Rattle.logic.specs.own.Decides.{Decides};
ghost use Rattle.store.specs.Cell.{Within, cell_of};
ghost use Rattle.store.specs.Layout.{Fits, Sized, size, width_of};
ghost use Rattle.store.specs.own.Laid.{layout_of, widest};

use crate::{Counts, Layout, Statement, Store};

// The words of an item row of a lent store, by its length.
pub fn width(words: &[u64]) -> usize
    ensures { result ≡ width_of words.now }
{
    if words.len() == Store::LARGE_WORDS {
        return Store::LARGE;
    }
    Store::SMALL
}

// The layout of a store whose item rows have so many words.
pub fn layout(width: usize) -> Layout
    requires { width ≤ widest }
    ensures { result ≡ layout_of width }
{
    let items = 64 * width;
    let under = items * width;
    let role = under + Store::CONCEPTS;
    let item = role + Store::ROLES;
    let link = item + items;
    Layout {
        width,
        under,
        role,
        item,
        link,
    }
}

// The layout of a lent store, by its length.
pub fn layout_of(words: &[u64]) -> Layout
    ensures { result ≡ layout_of (width_of words.now) }
{
    layout(width(words))
}

// Whether no declared count is over its limit, in a store whose item rows have so many words.
pub fn fits(width: usize, counts: Counts) -> bool
    requires { width ≤ widest }
    ensures { Decides result (Fits width counts) }
{
    counts.items <= 64 * width && counts.concepts <= Store::CONCEPTS && counts.roles <= Store::ROLES
}

// Whether the words have a store's length.
pub fn long(words: &[u64]) -> bool
    ensures { Decides result (length words.now ≡ size (width_of words.now)) }
{
    words.len() == Store::LARGE_WORDS || words.len() == Store::WORDS
}

// Whether the words have a store's length and the counts are within its limits.
pub fn sized(words: &[u64], counts: Counts) -> bool
    ensures { Decides result (Sized (width_of words.now) counts words.now) }
{
    long(words) && fits(width(words), counts)
}

// Whether the statement's numbers are below their counts.
pub fn within(counts: Counts, s: Statement) -> bool
    ensures { Decides result (Within counts (cell_of s)) }
{
    match s {
        Statement::Same(a, b) => a.0 < counts.items && b.0 < counts.items,
        Statement::Under(a, b) => a.0 < counts.concepts && b.0 < counts.concepts,
        Statement::RoleUnder(r, _, t) => r.0 < counts.roles && t.0 < counts.roles,
        Statement::In(a, b) => a.0 < counts.items && b.0 < counts.concepts,
        Statement::Link(r, a, b) => {
            r.0 < counts.roles && a.0 < counts.items && b.0 < counts.items
        }
    }
}
