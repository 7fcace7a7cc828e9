ghost use Rattle.std.specs.Prelude.{◌≡◌, ◌+◌, ◌*◌, ◌≤◌, ◌<◌, length};
ghost use Rattle.logic.specs.Number.{Number};
ghost use Rattle.logic.specs.own.Decides.{Decides};
ghost use Rattle.row.specs.own.Bit.{LowestBit};
ghost use Rattle.row.specs.own.Pick.{AllBelow, Empty, InBoth, Least, Marked, Met, Next, Shared, Without, room};
ghost use Rattle.row.specs.own.Row.{RowHas};

use crate::{ROOM, Row};

// A row with no number.
pub fn empty() -> Row
    ensures { Empty result }
{
    [0u64; ROOM]
}

// The row of all numbers below n.
pub fn below(n: usize) -> Row
    requires { n ≤ 64 * room }
    ensures { AllBelow n result }
{
    let mut r = [0u64; ROOM];
    for h in 0..ROOM {
        r[h] = crate::bit::low_bits(n.saturating_sub(h * 64));
    }
    r
}

// Whether x is in the row.
pub fn has(r: &Row, x: usize) -> bool
    requires { x < 64 * room }
    ensures { Decides result (RowHas r.now x) }
{
    let h = x / 64;
    crate::bit::has_bit(r[h], (x % 64) as u64)
}

// The row takes on x, if `on`.
pub fn mark(r: &mut Row, x: usize, on: bool)
    requires { x < 64 * room }
    ensures { Marked on x r.old r.new }
{
    let h = x / 64;
    r[h] = crate::bit::or_if(on, crate::bit::one_bit((x % 64) as u64), r[h]);
}

// What both rows have.
pub fn meet(a: &Row, b: &Row) -> Row
    ensures { Met a.now b.now result }
{
    let mut r = [0u64; ROOM];
    for h in 0..ROOM {
        r[h] = a[h] & b[h];
    }
    r
}

// What the row a has and the row b has not.
pub fn without(a: &Row, b: &Row) -> Row
    ensures { Without a.now b.now result }
{
    let mut r = [0u64; ROOM];
    for h in 0..ROOM {
        r[h] = a[h] ^ (a[h] & b[h]);
    }
    r
}

// Whether the row of `width` words at `from` and the row p have a number in common.
pub fn shares(s: &[u64], from: usize, width: usize, p: &Row) -> bool
    requires { (from + width ≤ length s.now) × (width ≤ room) }
    ensures { Decides result (Shared s.now from width p.now) }
{
    for h in 0..width {
        if s[from + h] & p[h] != 0 {
            return true;
        }
    }
    false
}

// The least number of the row; if it has none, the number of its bits.
pub fn least(r: &Row) -> usize
    ensures { Least r.now result }
{
    for h in 0..ROOM {
        let t = r[h].trailing_zeros() as usize;
        if t < 64 {
            return h * 64 + t;
        }
    }
    64 * ROOM
}

// The lowest bit of w from k on; 64 or more, if there is none.
fn lowest(w: u64, k: usize) -> usize
    requires { k < 64 }
    ensures { LowestBit w k result }
{
    k + (w >> (k as u64)).trailing_zeros() as usize
}

// The least number of the row from x on that is below `count`; if it has none, `count`.
pub fn next(r: &[u64], x: usize, count: usize) -> usize
    requires { (x ≤ count) × (count ≤ 64 * length r.now) }
    ensures { Next r.now x count result }
{
    for h in x / 64..count.div_ceil(64) {
        let k = lowest(r[h], x.saturating_sub(h * 64));
        if k < 64 {
            return (h * 64 + k).min(count);
        }
    }
    count
}

// How many numbers the row of `width` words at `from` and the row p have in common.
pub fn common(s: &[u64], from: usize, width: usize, p: &Row) -> usize
    requires { (from + width ≤ length s.now) × (width ≤ room) }
    ensures { Number (InBoth s.now from width p.now) result }
{
    let mut n = 0;
    for h in 0..width {
        n += (s[from + h] & p[h]).count_ones() as usize;
    }
    n
}
