ghost use Rattle.std.specs.Prelude.{◌≡◌, ◌^◌, ◌≤◌, ◌<◌, length};
ghost use Rattle.row.specs.own.Change.{grown, or_if};
ghost use Rattle.row.specs.own.Bit.{hasb, low_bits};
ghost use Rattle.row.specs.Bit.{total};

// Whether bit k of w is set.
pub fn has_bit(w: u64, k: u64) -> bool
    requires { k < 64 }
    ensures { result ≡ hasb w k }
{
    (w >> k) % 2 == 1
}

// Bit n alone.
pub fn one_bit(n: u64) -> u64
    requires { n < 64 }
    ensures { result ≡ 2 ^ n }
{
    1 << n
}

// The bits below n, all of them if n is 64 or more.
pub fn low_bits(n: usize) -> u64
    ensures { result ≡ low_bits n }
{
    if n >= 64 {
        u64::MAX
    } else {
        one_bit(n as u64) - 1
    }
}

// w with the bits of v, if `on`.
pub fn or_if(on: bool, v: u64, w: u64) -> u64
    ensures { result ≡ or_if on v w }
{
    if on { w | v } else { w }
}

// w with the bits of m, if bit k of w is set.
pub fn grow(w: u64, k: u64, m: u64) -> u64
    requires { k < 64 }
    ensures { result ≡ grown k m w }
{
    or_if(has_bit(w, k), m, w)
}

// How many bits are set in all.
pub fn count(s: &[u64]) -> u64
    requires { length s.now ≤ 1048576 }
    ensures { result ≡ total s.now }
{
    let mut n: u64 = 0;
    for w in s {
        n += w.count_ones() as u64;
    }
    n
}
