ghost use Rattle.std.specs.Prelude.{◌≡◌, length};
ghost use Rattle.text.specs.Bytes.{same as same_bytes, place as place_of};
ghost use Rattle.text.specs.own.Split.{part_of, end_of};
ghost use Rattle.text.specs.Split.{split};

// Whether the bytes are the same; the last ones are compared first, as names that are alike mostly differ at their end.
pub fn same(a: &[u8], b: &[u8]) -> bool
    ensures { result ≡ same_bytes a.now b.now }
{
    // Not a == b: it takes up to twice as long (tried).
    a.len() == b.len() && crate::chunk::same_at(b, 0, a)
}

// So many bytes from a place on, or as many as there are.
pub fn part(s: &[u8], at: usize, count: usize) -> &[u8]
    ensures { result.now ≡ part_of s.now at count }
{
    let start = at.min(s.len());
    &s[start..start + count.min(s.len() - start)]
}

// Where the part that starts at a place ends: at the next byte t, or at the end.
pub fn end_of(s: &[u8], at: usize, t: u8) -> usize
    ensures { result ≡ end_of t s.now at }
{
    for i in at..s.len() {
        if s[i] == t {
            return i;
        }
    }
    at.max(s.len())
}

// How many parts the bytes t make.
#[tactic(auto, using(crate::specs::laws::Split::split_count))]
pub fn count(s: &[u8], t: u8) -> usize
    ensures { result ≡ length (split t s.now) }
{
    s.iter().filter(|b| **b == t).count() + 1
}

// The place of a word among words parted by one space, from 0; how many there are where it is none of them.
pub fn place(w: &[u8], words: &[u8]) -> usize
    ensures { result ≡ place_of w.now (split 32 words.now) }
{
    // A while, since the place goes on from one end to the next; over split(..) the answer for no word would need a second pass.
    let mut k = 0;
    let mut at = 0;
    while at <= words.len() {
        let end = end_of(words, at, 32);
        if same(w, part(words, at, end - at)) {
            return k;
        }
        k += 1;
        at = end + 1;
    }
    k
}
