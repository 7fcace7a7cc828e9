ghost use Rattle.std.specs.Prelude.{◌+◌, ◌-◌, ◌*◌, ◌≤◌, length};
ghost use Rattle.logic.specs.own.Decides.{Decides};
ghost use Rattle.inspect.specs.own.Below.{BlocksBelow, RowBelow, RowsBelow, WordBelow};
ghost use Rattle.row.specs.own.Pick.{room};

// Whether every bit of w is below n.
pub fn word_below(w: u64, n: usize) -> bool
    ensures { Decides result (WordBelow w n) }
{
    n >= 64 || w >> (n as u64) == 0
}

// Whether every bit of the row at `at` is below n.
pub fn row_below(s: &[u64], at: usize, width: usize, n: usize) -> bool
    requires { at + width ≤ length s.now }
    ensures { Decides result (RowBelow s.now at width n) }
{
    let mut left = n;
    for h in 0..width {
        if !word_below(s[at + h], left) {
            return false;
        }
        left = left.saturating_sub(64);
    }
    true
}

// Whether of the `count` rows at `from` only the first `rows` have bits, and only bits below `bits`.
pub fn rows_below(
    s: &[u64],
    from: usize,
    count: usize,
    width: usize,
    rows: usize,
    bits: usize,
) -> bool
    requires { from + count * width ≤ length s.now }
    ensures { Decides result (RowsBelow s.now from count width rows bits) }
{
    for x in 0..count {
        let n = if x < rows { bits } else { 0 };
        if !row_below(s, from + x * width, width, n) {
            return false;
        }
    }
    true
}

// Whether of the blocks of 64 * width rows at `from` only the first `used` have bits, only in their first n rows, and only bits below n.
pub fn blocks_below(
    s: &[u64],
    from: usize,
    blocks: usize,
    width: usize,
    used: usize,
    n: usize,
) -> bool
    requires { (from + blocks * (64 * width * width) ≤ length s.now) × (width ≤ room) }
    ensures { Decides result (BlocksBelow s.now from blocks width used n) }
{
    let count = 64 * width;
    for r in 0..blocks {
        let rows = if r < used { n } else { 0 };
        if !rows_below(s, from + r * (count * width), count, width, rows, n) {
            return false;
        }
    }
    true
}
