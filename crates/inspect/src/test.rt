ghost use Rattle.std.specs.Prelude.{◌+◌, ◌*◌, ◌/◌, ◌≤◌, length};
ghost use Rattle.logic.specs.own.Decides.{Decides};
ghost use Rattle.inspect.specs.own.Test.{AllSpread, BlocksPart, Includes, Reflexive, RowPart, RowsInclude, Spreads, WordIncludes};

// Whether every bit of the row at a is one of the row at b.
fn row_within(s: &[u64], a: usize, b: usize, width: usize) -> bool
    requires { (a + width ≤ length s.now) × (b + width ≤ length s.now) }
    ensures { Decides result (RowPart s.now a b width) }
{
    for h in 0..width {
        if s[a + h] | s[b + h] != s[b + h] {
            return false;
        }
    }
    true
}

// Whether the row at c includes each row y of the part at `from` for which the row at a has bit y.
fn includes(s: &[u64], a: usize, from: usize, c: usize, width: usize, count: usize) -> bool
    requires { (a + (count + 63) / 64 ≤ length s.now) × (from + count * width ≤ length s.now) × (c + width ≤ length s.now) }
    ensures { Decides result (Includes s.now a from c width count) }
{
    for y in 0..count {
        let on = row::bit::has_bit(s[a + y / 64], (y % 64) as u64);
        if on && !row_within(s, from + y * width, c, width) {
            return false;
        }
    }
    true
}

// Whether the row at a includes the rows of the part at `from` that its own bits name. A row with no bit does.
fn includes_own(s: &[u64], a: usize, from: usize, width: usize, count: usize) -> bool
    requires { (a + width ≤ length s.now) × (from + count * width ≤ length s.now) × (count ≤ 64 * width) }
    ensures { Decides result (Includes s.now a from a width count) }
{
    crate::below::row_below(s, a, width, 0) || includes(s, a, from, a, width, count)
}

// The same for each of the rows at `at`.
pub fn rows_include(
    s: &[u64],
    at: usize,
    rows: usize,
    from: usize,
    width: usize,
    count: usize,
) -> bool
    requires { (at + rows * width ≤ length s.now) × (from + count * width ≤ length s.now) × (count ≤ 64 * width) }
    ensures { Decides result (RowsInclude s.now at rows from width count) }
{
    for x in 0..rows {
        if !includes_own(s, at + x * width, from, width, count) {
            return false;
        }
    }
    true
}

// Whether in each of the blocks, `size` words apart, every bit of the row at a is one of the row at b.
fn blocks_within(s: &[u64], a: usize, b: usize, width: usize, size: usize, blocks: usize) -> bool
    requires { (a + width + blocks * size ≤ length s.now + size) × (b + width + blocks * size ≤ length s.now + size) }
    ensures { Decides result (BlocksPart s.now a b width size blocks) }
{
    for r in 0..blocks {
        if !row_within(s, a + r * size, b + r * size, width) {
            return false;
        }
    }
    true
}

// Whether the row at c is, in each of the blocks, a part of each row y of the part at `from` for which the row at a has bit y.
fn spreads(
    s: &[u64],
    a: usize,
    c: usize,
    from: usize,
    width: usize,
    count: usize,
    size: usize,
    blocks: usize,
) -> bool
    requires { (a + (count + 63) / 64 ≤ length s.now) × (c + width + blocks * size ≤ length s.now + size) × (from + count * width ≤ length s.now) × (from + count * width + blocks * size ≤ length s.now + size) }
    ensures { Decides result (Spreads s.now a c from width count size blocks) }
{
    for y in 0..count {
        let on = row::bit::has_bit(s[a + y / 64], (y % 64) as u64);
        if on && !blocks_within(s, c, from + y * width, width, size, blocks) {
            return false;
        }
    }
    true
}

// Whether, where row x of the part at `at` has bit y, row x of the part at `from` is, in each of the blocks, a part of row y of it.
pub fn all_spread(
    s: &[u64],
    at: usize,
    step: usize,
    from: usize,
    width: usize,
    count: usize,
    size: usize,
    blocks: usize,
) -> bool
    requires { (at + count * step ≤ length s.now) × (count ≤ 64 * step) × (from + count * width ≤ length s.now) × (from + count * width + blocks * size ≤ length s.now + size) }
    ensures { Decides result (AllSpread s.now at step from width count size blocks) }
{
    for x in 0..count {
        if !spreads(
            s,
            at + x * step,
            from + x * width,
            from,
            width,
            count,
            size,
            blocks,
        ) {
            return false;
        }
    }
    true
}

// Whether each row x of the `count` rows at `from` has bit x.
pub fn reflexive(s: &[u64], from: usize, width: usize, count: usize) -> bool
    requires { (from + count * width ≤ length s.now) × (count ≤ 64 * width) }
    ensures { Decides result (Reflexive s.now from width count) }
{
    for x in 0..count {
        if !row::bit::has_bit(s[from + x * width + x / 64], (x % 64) as u64) {
            return false;
        }
    }
    true
}

// Whether each word y of the part at `from` for which z has bit y is a part of z.
pub fn word_includes(s: &[u64], z: u64, from: usize, count: usize) -> bool
    requires { (from + count ≤ length s.now) × (count ≤ 64) }
    ensures { Decides result (WordIncludes s.now z from count) }
{
    for y in 0..count {
        let on = row::bit::has_bit(z, y as u64);
        if on && s[from + y] | z != z {
            return false;
        }
    }
    true
}
