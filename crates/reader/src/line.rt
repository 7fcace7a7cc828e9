ghost use Rattle.std.specs.Prelude.{◌≡◌, ◌+◌, ◌<◌, ◌≤◌, length};
ghost use Rattle.reader.specs.own.Scan.{Scanned};
ghost use Rattle.reader.specs.own.Field.{field_at, field_from, past_field};

use crate::scan::Scan;

// The reader of a line: the line that it reads, or the text that the line stands in, and its place there.
#[derive(Clone, Copy)]
pub struct Reader<'a> {
    pub line: &'a [u8],
    pub at: usize,
}

// The reader at a place of a line or of a text.
pub fn reader_at<'a>(line: &'a [u8], at: usize) -> Reader<'a>
    ensures { (result.line ≡ line.entry) × (result.at ≡ at) }
{
    Reader { line, at }
}

impl<'a> Reader<'a> {
    // The field that the reader stands at, from its start to its end; or none any more.
    #[tactic(auto, unfolding(crate::specs::own::Field::field_at))]
    pub fn next_field(self) -> Option<(usize, usize)>
        ensures { result ≡ field_at self.entry.line.now self.entry.at }
    {
        if self.at <= self.line.len() {
            Some((self.at, text::part::end_of(self.line, self.at, b'\t')))
        } else {
            None
        }
    }

    // One look at the line that the reader stands at: the ends of its fields go into the lent room.
    pub fn look(self, ends: &mut [u16]) -> Scan
        requires { (self.at ≤ length self.line.now) × (length self.line.now < 65536) }
        ensures { Scanned self.entry.line.now self.entry.at ends.old ends.new result }
    {
        crate::scan::line(self.line, self.at, ends)
    }
}

// The field at a place of a line, by a reader that stands there.
pub fn next_from(line: &[u8], at: usize) -> Option<(usize, usize)>
    ensures { result ≡ field_at line.now at }
{
    reader_at(line, at).next_field()
}

// One look at the line that starts at a place of the text, by a reader that stands there.
pub fn look_from(text: &[u8], at: usize, ends: &mut [u16]) -> Scan
    requires { (at ≤ length text.now) × (length text.now < 65536) }
    ensures { Scanned text.now at ends.old ends.new result }
{
    reader_at(text, at).look(ends)
}

// The bytes of the field at a place of a line; none where there is no field any more.
pub fn field(line: &[u8], at: usize) -> &[u8]
    ensures { result.now ≡ field_from line.now at }
{
    match next_from(line, at) {
        Some((start, end)) => &line[start..end],
        None => &[],
    }
}

// The place past the field at a place of a line, and past the tab that ends it.
pub fn past(line: &[u8], at: usize) -> usize
    ensures { result ≡ past_field line.now at }
{
    match next_from(line, at) {
        Some((_, end)) => end + 1,
        None => at,
    }
}
