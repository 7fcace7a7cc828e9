ghost use Rattle.std.specs.Prelude.{◌≡◌, ◌+◌, ◌≤◌, ◌<◌, length};
ghost use Rattle.text.specs.Bytes.{same};
ghost use Rattle.text.specs.own.Split.{part_of};
ghost use Rattle.text.specs.own.Chunk.{low};

// Four bytes as one number, the first lowest.
pub fn four(s: &[u8], at: usize) -> u64
    requires { at + 4 ≤ length s.now }
    ensures { (result ≡ low (part_of s.now at 4)) × (result < 4294967296) }
{
    u64::from(u32::from_le_bytes([s[at], s[at + 1], s[at + 2], s[at + 3]]))
}

// Eight bytes as one number, the first lowest.
pub fn eight(s: &[u8], at: usize) -> u64
    requires { at + 8 ≤ length s.now }
    ensures { result ≡ low (part_of s.now at 8) }
{
    u64::from_le_bytes([
        s[at],
        s[at + 1],
        s[at + 2],
        s[at + 3],
        s[at + 4],
        s[at + 5],
        s[at + 6],
        s[at + 7],
    ])
}

// Whether the bytes of the text from a place on are w, which has 8 or more: by eights, the last first.
fn same_long(text: &[u8], start: usize, w: &[u8]) -> bool
    requires { (start + length w.now ≤ length text.now) × (8 ≤ length w.now) }
    ensures { result ≡ same w.now (part_of text.now start (length w.now)) }
{
    let last = w.len() - 8;
    if eight(text, start + last) != eight(w, last) {
        return false;
    }
    // A while, since it goes on by eight bytes at a time, for speed.
    let mut i = 0;
    while i < last {
        if eight(text, start + i) != eight(w, i) {
            return false;
        }
        i += 8;
    }
    true
}

// The same of 4 to 8 bytes, by two fours.
fn same_middle(text: &[u8], start: usize, w: &[u8]) -> bool
    requires { (start + length w.now ≤ length text.now) × (4 ≤ length w.now) × (length w.now ≤ 8) }
    ensures { result ≡ same w.now (part_of text.now start (length w.now)) }
{
    let last = w.len() - 4;
    four(text, start + last) == four(w, last) && four(text, start) == four(w, 0)
}

// The same of any bytes.
pub fn same_at(text: &[u8], start: usize, w: &[u8]) -> bool
    requires { start + length w.now ≤ length text.now }
    ensures { result ≡ same w.now (part_of text.now start (length w.now)) }
{
    let n = w.len();
    if 8 <= n {
        return same_long(text, start, w);
    }
    if 4 <= n {
        return same_middle(text, start, w);
    }
    for i in 0..n {
        if text[start + i] != w[i] {
            return false;
        }
    }
    true
}
