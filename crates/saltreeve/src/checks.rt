// The check of a whole sheet, under C names.
ghost use Rattle.saltreeve.specs.Check.{Checks, ChecksIn};

use report::Report;

// Checks a sheet by a text of its own, for a room that may be too short for it.
fn check_aside(sheet: &[u8], room: &mut [u8]) -> i64
    ensures { Checks sheet.now room.old room.new result }
{
    let mut own = [0u8; Report::BYTES];
    let n = report::page::page(sheet, &mut own);
    handover::hand(&own, n, room)
}

// Checks a sheet: writes the text that is printed for it into the lent room, or nothing if it is longer than the room.
pub fn saltreeve_check(sheet: &[u8], room: &mut [u8]) -> i64
    ensures { Checks sheet.now room.old room.new result }
{
    if Report::BYTES <= room.len() {
        let n = report::page::page(sheet, room);
        return n as i64;
    }
    check_aside(sheet, room)
}

// The same with a lent store, by a text of its own.
fn check_in_aside(sheet: &[u8], words: &mut [u64], room: &mut [u8]) -> i64
    ensures { ChecksIn sheet.now words.old words.new room.old room.new result }
{
    let mut own = [0u8; Report::LARGE_BYTES];
    let n = report::page::page_in(sheet, words, &mut own);
    handover::hand(&own, n, room)
}

// The same with a lent store, into which the sheet is read, also where the room is too short.
pub fn saltreeve_check_in(sheet: &[u8], words: &mut [u64], room: &mut [u8]) -> i64
    ensures { ChecksIn sheet.now words.old words.new room.old room.new result }
{
    if report::page::most(words) <= room.len() {
        let n = report::page::page_in(sheet, words, room);
        return n as i64;
    }
    check_in_aside(sheet, words, room)
}
