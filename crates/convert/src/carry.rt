ghost use Rattle.std.specs.Prelude.{◌+◌, ◌*◌, ◌≤◌, length};
ghost use Rattle.row.specs.own.Change.{Mapped};
ghost use Rattle.store.specs.Layout.{ClosedStore, Fits, Sized, width_of};
ghost use Rattle.store.specs.own.Laid.{Laid};
ghost use Rattle.convert.specs.Promise.{Moved};
ghost use Rattle.convert.specs.own.Carry.{BlocksMoved, Carried, RowsMoved, copy_f};

use store::{Counts, Layout, Store};

// The `count` words of s at `from` are copied to t, at `to`. No `copy_from_slice`: for the library for C it would need `memmove`.
fn copy(s: &[u64], from: usize, t: &mut [u64], to: usize, count: usize)
    requires { (from + count ≤ length s.now) × (to + count ≤ length t.old) }
    ensures { Mapped (copy_f s.now from to) to (to + count) t.old t.new }
{
    for h in 0..count {
        t[to + h] = s[from + h];
    }
}

// The `count` rows of s at `from`, of `old` words each, go to the rows of t at `to`, of `new` words each, as far as these reach.
#[tactic(auto, using(row::specs::laws::Rows::row_within))]
fn rows(s: &[u64], from: usize, old: usize, t: &mut [u64], to: usize, new: usize, count: usize)
    requires { (from + count * old ≤ length s.now) × (to + count * new ≤ length t.old) }
    ensures { RowsMoved s.now from old to new count t.old t.new }
{
    let words = old.min(new);
    for x in 0..count {
        copy(s, from + x * old, t, to + x * new, words);
    }
}

// The rows of the declared items, in the block of each declared role, go to those of the other store.
#[tactic(auto, using(row::specs::laws::Rows::row_within))]
fn links(s: &[u64], from: Layout, t: &mut [u64], to: Layout, counts: Counts)
    requires { Laid from s.now × Laid to t.old × Fits from.width counts × Fits to.width counts }
    ensures { BlocksMoved s.now from.link from.width to.link to.width counts.items counts.roles t.old t.new }
{
    let old = from.width;
    let new = to.width;
    for r in 0..counts.roles {
        let a = from.link + r * (64 * old * old);
        let b = to.link + r * (64 * new * new);
        rows(s, a, old, t, b, new, counts.items);
    }
}

// The words of the store s that can have a bit go to their places in t, and all other words of t are 0.
fn parts(s: &[u64], from: Layout, t: &mut [u64], to: Layout, counts: Counts)
    requires { Laid from s.now × Laid to t.old × Fits from.width counts × Fits to.width counts }
    ensures { Carried from to counts s.now t.old t.new }
{
    rewrite::change::zero_all(t);
    rows(s, 0, from.width, t, 0, to.width, counts.items);
    copy(
        s,
        from.under,
        t,
        to.under,
        Store::CONCEPTS + Store::ROLES + counts.items,
    );
    links(s, from, t, to, counts);
}

// The cells of the closed store s go to their places in the words of t. Out of line, as the test of closedness before it is a twentieth slower otherwise.
#[inline(never)]
pub fn carry(s: &[u64], counts: Counts, t: &mut [u64])
    requires { ClosedStore (width_of s.now) counts s.now × Sized (width_of t.old) counts t.old }
    ensures { Moved (width_of s.now) (width_of t.old) counts s.now t.new }
{
    let from = store::size::layout_of(s);
    let to = store::size::layout_of(t);
    parts(s, from, t, to, counts);
}
