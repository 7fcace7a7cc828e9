// Which store a sheet needs.
ghost use Rattle.std.specs.Prelude.{◌≡◌};
ghost use Rattle.text.specs.Split.{lines};
ghost use Rattle.sheet.specs.Edition.{second_in};

use store::Store;

// Whether a sheet needs the larger store: its line 1 is the header of edition 2.
pub fn wide(sheet: &[u8]) -> bool
    ensures { result ≡ second_in (lines sheet.now) }
{
    let end = text::part::end_of(sheet, 0, 10);
    line::lines::item_room(text::part::part(sheet, 0, end)) == Store::LARGE_ITEMS
}
