// The check of a whole sheet, under C names.
ghost use Rattle.saltreeve.specs.Check.{Checks, ChecksIn};

// Checks a sheet: writes the text that is printed for it into the lent room, or nothing if it is longer than the room.
#[unsafe(no_mangle)]
pub extern "C" fn saltreeve_check(sheet: &[u8], room: &mut [u8]) -> i64
    ensures { Checks sheet.now room.old room.new result }
{
    saltreeve::checks::saltreeve_check(sheet, room)
}

// The same with a lent store, into which the sheet is read, also where the room is too short.
#[unsafe(no_mangle)]
pub extern "C" fn saltreeve_check_in(sheet: &[u8], words: &mut [u64], room: &mut [u8]) -> i64
    ensures { ChecksIn sheet.now words.old words.new room.old room.new result }
{
    saltreeve::checks::saltreeve_check_in(sheet, words, room)
}
