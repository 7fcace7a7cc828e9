// Why a cell is true or an item a finding, under C names.
ghost use Rattle.batch.specs.Codes.{cell_of_kind};
ghost use Rattle.saltreeve.specs.Why.{ExplainCode, FindingCode, Whys};

// Answers a question about a sheet: writes the text to the lent room, or nothing if it is longer than the room.
#[unsafe(no_mangle)]
pub extern "C" fn saltreeve_why(sheet: &[u8], question: &[u8], room: &mut [u8]) -> i64
    ensures { Whys sheet.now question.now room.old room.new result }
{
    saltreeve::reasons::saltreeve_why(sheet, question, room)
}

// Reads a sheet into the lent store, and lists the lines of a reason for a cell.
#[unsafe(no_mangle)]
pub extern "C" fn saltreeve_explain(
    sheet: &[u8],
    words: &mut [u64],
    kind: usize,
    a: usize,
    b: usize,
    c: usize,
    list: &mut [u32],
) -> i64
    ensures { ExplainCode sheet.now words.old words.new (cell_of_kind kind a b c) list.old list.new result }
{
    saltreeve::reasons::saltreeve_explain(sheet, words, kind, a, b, c, list)
}

// Reads a sheet into the lent store, and lists the lines of a reason for an item's being in the left concept of a rule that it breaks.
#[unsafe(no_mangle)]
pub extern "C" fn saltreeve_explain_finding(
    sheet: &[u8],
    words: &mut [u64],
    rule: usize,
    item: usize,
    list: &mut [u32],
) -> i64
    ensures { FindingCode sheet.now words.old words.new rule item list.old list.new result }
{
    saltreeve::reasons::saltreeve_explain_finding(sheet, words, rule, item, list)
}
