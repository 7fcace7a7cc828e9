// A table of where steps lead, as it is read: a row of `width` words of bits for each place, in words that are lent.
ghost use Rattle.std.specs.Prelude.{◌≡◌, ◌<◌};
ghost use Rattle.store.specs.Layout.{item_limit};
ghost use Rattle.reason.specs.own.Promise.{Lent};
ghost use Rattle.reason.specs.own.Seek.{GoalBelow, OpenBelow, WayBelow, leadsb};
ghost use Rattle.reason.specs.own.Steps.{alongb, openb, reachedb};

use crate::{Goal, Way};

// The words, and how many a row has.
#[derive(Clone, Copy)]
pub struct Table<'a> {
    pub words: &'a [u64],
    pub width: usize,
    ghost lent: { Lent width words.now },
}

// Whether steps lead from x to y, by a table.
pub fn leads(t: Table, x: usize, y: usize) -> bool
    requires { (x < item_limit t.width) × (y < item_limit t.width) }
    ensures { result ≡ leadsb t.entry.width t.entry.words.now x y }
{
    let i = x * t.width + y / 64;
    row::bit::has_bit(t.words[i], (y % 64) as u64)
}

// Whether steps lead along a way, by a table.
pub fn along(t: Table, w: Way) -> bool
    requires { WayBelow (item_limit t.width) w }
    ensures { result ≡ alongb t.entry.width t.entry.words.now w }
{
    leads(t, w.a, w.b) && leads(t, w.c, w.d)
}

// Whether a way is open, and steps lead along it, by a table.
fn open(t: Table, w: Option<Way>) -> bool
    requires { OpenBelow (item_limit t.width) w }
    ensures { result ≡ openb t.entry.width t.entry.words.now w }
{
    match w {
        Some(w) => along(t, w),
        None => false,
    }
}

// Whether the goal is reached, by a table.
pub fn reached(t: Table, goal: Goal) -> bool
    requires { GoalBelow (item_limit t.width) goal }
    ensures { result ≡ reachedb t.entry.width t.entry.words.now goal }
{
    open(t, goal.one) || open(t, goal.other)
}
