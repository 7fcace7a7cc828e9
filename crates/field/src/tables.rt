ghost use Rattle.std.specs.Prelude.{◌≡◌, ◌+◌, ◌≤◌, ◌<◌, length, set};
ghost use Rattle.text.specs.Name.{name_limit};
ghost use Rattle.store.specs.Layout.{item_limit, large};
ghost use Rattle.field.specs.own.Table.{Noted, concepts_from, entry_of, hint_at, number_count, place_count, room_at};

use crate::Table;
use store::Counts;

// The entry of the name w, which stands at a place of the sheet.
fn entry(place: usize, w: &[u8]) -> u32
    requires { (place < place_count) × (length w.now ≤ name_limit) }
    ensures { result ≡ entry_of w.now place }
{
    let at = place as u32;
    let n = w.len() as u32;
    crate::names::tag(w) * Table::TAGGED + (at * Table::LENGTHS + n)
}

// Notes the name w, which stands at a place of the sheet, as the one after n others whose entries begin at `from`; and where to look for it first.
pub fn note(names: &mut [u32], from: usize, n: usize, place: usize, w: &[u8])
    requires { (concepts_from ≤ from) × (from + n < number_count large) × (from + n < length names.old) × (place < place_count) × (length w.now ≤ name_limit) }
    ensures { Noted names.old (from + n) (entry_of w.now place) (hint_at from w.now) names.new }
{
    let hint = crate::names::hint_at(from, w);
    names[from + n] = entry(place, w);
    names[hint] = (n + 1) as u32;
}

// Notes how many items the sheet's edition has room for.
pub fn allow(names: &mut [u32], room: usize)
    requires { (room_at < length names.old) × (room ≤ item_limit large) }
    ensures { names.new ≡ set names.old room_at room }
{
    names[Table::ROOM] = room as u32;
}

// No names.
pub fn none() -> Counts
    ensures { result ≡ record { items = 0; concepts = 0; roles = 0 } }
{
    Counts {
        items: 0,
        concepts: 0,
        roles: 0,
    }
}
