ghost use Rattle.std.specs.Prelude.{◌≡◌, ◌<◌, ◌≤◌, false, [], length, if◌then◌else◌, slice_index, slice_index_or, slice_set};
ghost use Rattle.text.specs.Name.{line_byte};
ghost use Rattle.text.specs.Split.{fields};
ghost use Rattle.reader.specs.own.Scan.{Closes, Ended, Masks, Scanned, Skips, start_by};

// What one look at a line found: where it ends in the text, how many fields it has, and whether all its bytes may stand in a line.
#[derive(Clone, Copy)]
pub struct Scan {
    pub end: usize,
    pub count: usize,
    pub good: bool,
}

// The end e of the field n goes into the room, where it reaches that far.
fn mark(ends: &mut [u16], n: usize, e: usize)
    requires { e < 65536 }
    ensures { ends.new ≡ slice_set ends.old n e }
{
    if n < ends.len() {
        ends[n] = e as u16;
    }
}

// The last field of the line that starts at a place ends at i, after n others.
fn close(ends: &mut [u16], at: usize, n: usize, i: usize, good: bool) -> Scan
    requires { (at ≤ i) × (i < 65536) × (n < 65536) }
    ensures { Closes ends.old at n i good ends.new result }
{
    mark(ends, n, i - at);
    Scan {
        end: i,
        count: n + 1,
        good,
    }
}

// Whether a line is still good past the byte b.
fn still(good: bool, b: u8) -> bool
    ensures { result ≡ (if line_byte b then good else false) }
{
    text::name::line_byte(b) && good
}

// 0 where all eight bytes of x may stand in a field; otherwise the lowest bit of the answer stands in the first byte that may not.
fn mask(x: u64) -> u64
    ensures { Masks x result }
{
    let a = x.wrapping_add(0x0101_0101_0101_0101);
    let d = 0x9f9f_9f9f_9f9f_9f9fu64.wrapping_sub(x);
    (x | a | d) & 0x8080_8080_8080_8080
}

// Past bytes that may stand in a field, from a place on, eight at a time where eight are left.
fn skip(text: &[u8], at: usize) -> usize
    requires { at ≤ length text.now }
    ensures { Skips text.now at result }
{
    // A while, since it goes on by eight bytes at a time, for speed.
    let mut i = at;
    if 8 <= text.len() {
        let top = text.len() - 8;
        while i <= top {
            let m = mask(text::chunk::eight(text, i));
            if m == 0 {
                i += 8;
            } else {
                return i + (m.trailing_zeros() / 8) as usize;
            }
        }
        return skip_one(text, at, i);
    }
    skip_one(text, at, i)
}

// The same one byte at a time, from a place that was reached.
fn skip_one(text: &[u8], at: usize, from: usize) -> usize
    requires { Skips text.now at from }
    ensures { Skips text.now at result }
{
    for i in from..text.len() {
        if !matches!(text[i], b' '..=b'~') {
            return i;
        }
    }
    text.len()
}

// One look at the line that starts at a place of the text: the end of each field, counted from the line's start, goes into the lent room, as far as it reaches.
pub(crate) fn line(text: &[u8], at: usize, ends: &mut [u16]) -> Scan
    requires { (at ≤ length text.now) × (length text.now < 65536) }
    ensures { Scanned text.now at ends.old ends.new result }
{
    // A while, since each turn goes on past a whole run of bytes.
    let mut i = at;
    let mut n = 0;
    let mut good = true;
    while i < text.len() {
        let j = skip(text, i);
        if text.len() <= j {
            return close(ends, at, n, j, good);
        }
        let b = text[j];
        if b == b'\n' {
            return close(ends, at, n, j, good);
        }
        i = j + 1;
        if b == b'\t' {
            mark(ends, n, j - at);
            n += 1;
        } else {
            good = still(good, b);
        }
    }
    close(ends, at, n, i, good)
}

// Where the field k of a line ends, by the ends that a look left.
fn end(ends: &[u16], k: usize) -> usize
    requires { k < length ends.now }
    ensures { (result ≡ slice_index ends.now k) × (result < 65536) }
{
    usize::from(ends[k])
}

// Where the field k of a line starts.
pub fn start(ends: &[u16], k: usize) -> usize
    requires { k < length ends.now }
    ensures { result ≡ start_by 0 ends.now k }
{
    if k == 0 {
        return 0;
    }
    end(ends, k - 1) + 1
}

// The bytes of the field k of a line.
pub fn field<'a>(line: &'a [u8], ends: &[u16], k: usize) -> &'a [u8]
    requires { Ended line.now ends.now × (k < length (fields line.now)) × (k < length ends.now) }
    ensures { result.now ≡ slice_index_or (fields line.now) k [] }
{
    &line[start(ends, k)..end(ends, k)]
}
