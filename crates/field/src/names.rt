ghost use Rattle.std.specs.Prelude.{◌≡◌, map, ◌+◌, ◌/◌, ◌%◌, ◌≤◌, ◌<◌, length};
ghost use Rattle.logic.specs.Number.{Distinct};
ghost use Rattle.store.specs.Layout.{large};
ghost use Rattle.text.specs.Bytes.{place, same};
ghost use Rattle.field.specs.Names.{inverted as inverted_of, plain as plain_of, count_of};
ghost use Rattle.text.specs.own.Split.{part_of};
ghost use Rattle.field.specs.own.Known.{names_in};
ghost use Rattle.field.specs.own.Table.{Hinted, Placed, concepts_from, entered, hint_at, hint_count, key_of, length_count, name_at, number_count, place_count, room_at, room_of, tag_count, tag_of};

use crate::Table;
use crate::known::Known;

// The tag of a name, made of its last two bytes.
pub fn tag(w: &[u8]) -> u32
    ensures { (result ≡ tag_of w.now) × (result < tag_count) }
{
    match w {
        [] => 0,
        [last] => 17 * u32::from(*last) % Table::TAGS,
        [.., before, last] => (u32::from(*last) + 16 * u32::from(*before)) % Table::TAGS,
    }
}

// The bytes of the sheet that an entry points to.
fn pointed(sheet: &[u8], p: u32) -> &[u8]
    ensures { result.now ≡ part_of sheet.now (p / length_count % place_count) (p % length_count) }
{
    let start = (p / Table::LENGTHS % Table::PLACES) as usize;
    text::part::part(sheet, start, (p % Table::LENGTHS) as usize)
}

// The name of an entry.
pub fn name_at(sheet: &[u8], p: u32) -> &[u8]
    ensures { result.now ≡ name_at sheet.now p }
{
    let f = pointed(sheet, p);
    if tag(f) == p / Table::TAGGED { f } else { &[] }
}

// Whether the name of an entry is w, which has the tag given.
fn entry_is(sheet: &[u8], p: u32, w: &[u8], key: u32) -> bool
    requires { key ≡ tag_of w.now }
    ensures { result ≡ same w.now (name_at sheet.now p) }
{
    if w.is_empty() {
        return text::part::same(w, name_at(sheet, p));
    }
    p / Table::TAGGED == key && text::part::same(w, pointed(sheet, p))
}

// The place of the name w, which has the tag given, among the entries, from 0; how many there are where it is none of them.
fn place_in(sheet: &[u8], entries: &[u32], w: &[u8], key: u32) -> usize
    requires { key ≡ tag_of w.now }
    ensures { result ≡ place w.now (map (name_at sheet.now) entries.now) }
{
    for i in 0..entries.len() {
        if entry_is(sheet, entries[i], w, key) {
            return i;
        }
    }
    entries.len()
}

// A number below the hints, made of a name's first four bytes and its last four, or of its tag.
fn key(w: &[u8]) -> usize
    ensures { (result ≡ key_of w.now) × (result < hint_count) }
{
    let n = w.len();
    if 4 <= n {
        let first = text::chunk::four(w, 0) * 113173225;
        let last = text::chunk::four(w, n - 4) * 1008168907;
        return ((first + last) / 67108864 % Table::KEYS as u64) as usize;
    }
    tag(w) as usize % Table::KEYS
}

// Where the hint for the name w stands, among the names whose entries begin at a place.
pub fn hint_at(from: usize, w: &[u8]) -> usize
    requires { from < number_count large }
    ensures { (result ≡ hint_at from w.now) × (result < hint_count) }
{
    (key(w) + from) % Table::KEYS
}

// How many items the sheet's edition has room for, by the numbers lent for its names.
pub fn room(names: &[u32]) -> usize
    requires { room_at < length names.now }
    ensures { result ≡ room_of names.now }
{
    names[Table::ROOM] as usize
}

impl<'a> Known<'a> {
    // The place of the name w among the n names whose entries begin at a place; n where it is none of them. Without a hint it is none of them; the place that the hint says, one less than it, is only tried first.
    fn find(&self, from: usize, n: usize, w: &[u8]) -> usize
        requires { (concepts_from ≤ from) × (from < number_count large) × (from + n ≤ length self.now.numbers.now) × Distinct (entered self.now.sheet.now self.now.numbers.now from n) × Hinted self.now.numbers.now from (entered self.now.sheet.now self.now.numbers.now from n) }
        ensures { Placed w.now (entered self.now.sheet.now self.now.numbers.now from n) n result }
    {
        let h = self.numbers[hint_at(from, w)] as usize;
        if h == 0 {
            return n;
        }
        let key = tag(w);
        if h <= n && entry_is(self.sheet, self.numbers[from + (h - 1)], w, key) {
            return h - 1;
        }
        place_in(self.sheet, &self.numbers[from..from + n], w, key)
    }

    // The place of the name w among the concepts.
    pub fn concept(&self, w: &[u8]) -> usize
        ensures { Placed w.now (names_in self.now).concepts self.now.counts.concepts result }
    {
        self.find(Table::CONCEPTS, self.counts.concepts, w)
    }

    // The place of the name w among the roles.
    pub fn role(&self, w: &[u8]) -> usize
        ensures { Placed w.now (names_in self.now).roles self.now.counts.roles result }
    {
        self.find(Table::ROLES, self.counts.roles, w)
    }

    // The place of the name w among the items.
    pub fn item(&self, w: &[u8]) -> usize
        ensures { Placed w.now (names_in self.now).items self.now.counts.items result }
    {
        self.find(Table::ITEMS, self.counts.items, w)
    }

    // How many items the sheet's edition has room for.
    pub fn room(&self) -> usize
        ensures { result ≡ (names_in self.now).room }
    {
        room(self.numbers)
    }
}

// Whether `~` stands before a role.
pub fn inverted(f: &[u8]) -> bool
    ensures { result ≡ inverted_of f.now }
{
    matches!(f, [b'~', ..])
}

// The role's name without it.
pub fn plain(f: &[u8]) -> &[u8]
    ensures { result.now ≡ plain_of f.now }
{
    match f {
        [b'~', name @ ..] => name,
        _ => f,
    }
}

// The value of a count, or 255.
pub fn count(f: &[u8]) -> usize
    ensures { (result ≡ count_of f.now) × (result ≤ 255) }
{
    match f {
        [digit, ..] => usize::from(text::date::digit(*digit)),
        [] => 255,
    }
}
