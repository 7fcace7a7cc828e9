// A store moved to the other size: each of its cells goes to its place there. Both are lent by the caller, and the source is only read.
#![tactic(auto)]

mod carry;

ghost use Rattle.std.specs.Prelude.{◌≡◌, ◌≤◌};
ghost use Rattle.logic.specs.own.Decides.{Decides};
ghost use Rattle.convert.specs.Promise.{Converts, NoPlace, Pair, other_width};
ghost use Rattle.store.specs.own.Laid.{widest};

use refusal::Numbered;
use store::{Counts, Store};

// Why a conversion is refused.
#[derive(Clone, Copy)]
pub enum Refusal {
    // The two do not have the two lengths, or a declared count is over the source's limit: 1.
    Size,
    // The source is not closed: 2.
    NotClosed,
    // An item is declared that the target has no place for: 26.
    TooMany,
}

impl Numbered for Refusal {
    ghost use Rattle.convert.specs.Promise.{number};

    ghost number = { number };

    fn number(self) -> u8 {
        match self {
            Refusal::Size => 1,
            Refusal::NotClosed => 2,
            Refusal::TooMany => 26,
        }
    }
}

// The words of an item row in the store of the other size.
fn other(width: usize) -> usize
    ensures { result ≡ other_width width }
{
    if width == Store::LARGE {
        Store::SMALL
    } else {
        Store::LARGE
    }
}

// Whether the two have the two lengths, and the counts are within the source's limits.
fn pair(source: &[u64], counts: Counts, target: &[u64]) -> bool
    ensures { Decides result (Pair counts source.now target.now) }
{
    store::size::sized(source, counts)
        && store::size::long(target)
        && store::size::width(target) == other(store::size::width(source))
}

// Whether an item is declared that a store whose item rows have so many words has no place for.
fn no_place(width: usize, counts: Counts) -> bool
    requires { width ≤ widest }
    ensures { Decides result (NoPlace width counts) }
{
    64 * width < counts.items
}

// Moves each cell of the closed store `source` to its place in the store of the other size, and says how many there are.
pub fn convert(source: &[u64], counts: Counts, target: &mut [u64]) -> Result<u64, Refusal>
    ensures { Converts counts source.now target.old target.new result }
{
    if !pair(source, counts, target) {
        return Err(Refusal::Size);
    }
    let at = store::size::layout_of(source);
    if !closed::is_closed(source, at, counts) {
        return Err(Refusal::NotClosed);
    }
    if no_place(store::size::width(target), counts) {
        return Err(Refusal::TooMany);
    }
    carry::carry(source, counts, target);
    Ok(row::bit::count(source))
}
