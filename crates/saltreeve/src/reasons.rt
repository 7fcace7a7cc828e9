// Why a cell is true or an item a finding, under C names.
ghost use Rattle.batch.specs.Codes.{cell_of_kind};
ghost use Rattle.saltreeve.specs.Why.{ExplainCode, FindingCode, Whys};

use store::Item;

// Answers a question about a sheet: writes the text to the lent room, or nothing if it is longer than the room.
pub fn saltreeve_why(sheet: &[u8], question: &[u8], room: &mut [u8]) -> i64
    ensures { Whys sheet.now question.now room.old room.new result }
{
    let n = answer::reply::reply(sheet, question, room);
    if room.len() < n {
        return -8;
    }
    n as i64
}

// Reads a sheet into the lent store, and lists the lines of a reason for a cell.
pub fn saltreeve_explain(
    sheet: &[u8],
    words: &mut [u64],
    kind: usize,
    a: usize,
    b: usize,
    c: usize,
    list: &mut [u32],
) -> i64
    ensures { ExplainCode sheet.now words.old words.new (cell_of_kind kind a b c) list.old list.new result }
{
    signed::explained(why::explain(sheet, words, batch::number::cell(kind, a, b, c), list))
}

// Reads a sheet into the lent store, and lists the lines of a reason for an item's being in the left concept of a rule that it breaks.
pub fn saltreeve_explain_finding(
    sheet: &[u8],
    words: &mut [u64],
    rule: usize,
    item: usize,
    list: &mut [u32],
) -> i64
    ensures { FindingCode sheet.now words.old words.new rule item list.old list.new result }
{
    signed::finding(finding::explain(sheet, words, rule, Item(item), list))
}
