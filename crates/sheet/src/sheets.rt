ghost use Rattle.std.specs.Prelude.{◌≡◌, Err, cond, ◌+◌, ◌≤◌, eqb, length, replicate};
ghost use Rattle.text.specs.own.Split.{parts_from};
ghost use Rattle.line.specs.Fault.{sheet_limit};
ghost use Rattle.line.specs.own.Number.{number_of};
ghost use Rattle.store.specs.Layout.{item_limit, size, small};
ghost use Rattle.store.specs.own.Laid.{Laid};
ghost use Rattle.field.specs.own.Table.{number_count, room_of};
ghost use Rattle.sheet.specs.Reading.{refusal_as};
ghost use Rattle.sheet.specs.Said.{nothing, outcome, outcome_from};
ghost use Rattle.sheet.specs.own.Stands.{Ends, Fills, Opens, blank_kept, too_long};

use crate::{Ended, Kept, Refused, Start};
use line::{Fault, Marks, Sheet};
use store::Layout;

// Nothing is kept yet.
fn blank() -> Kept
    ensures { result ≡ blank_kept }
{
    Kept {
        counts: field::tables::none(),
        marks: Marks {
            stated: false,
            rules: 0,
        },
    }
}

// That a line is faulty, as why the sheet is refused.
fn refused(line: usize, fault: Fault) -> Result<(), Refused>
    ensures { result ≡ Err (refusal_as line (number_of fault)) }
{
    Err(Refused {
        line,
        why: fault.number(),
    })
}

// Where the rules begin, as far as is known: at the line that comes next, if there was no rule, and else where it was.
fn start_from(rules: usize, at: usize, line: usize, before: Start) -> Start
    ensures { result ≡ cond (eqb rules 0) (record { at = at; line = line }) before }
{
    if rules == 0 {
        Start { at, line }
    } else {
        before
    }
}

// Reads the lines from a place of the sheet on, the first of which is line 2, up to the end or to the first faulty line.
fn read_lines(
    sheet: &[u8],
    words: &mut [u64],
    layout: Layout,
    names: &mut [u32],
    from: usize,
) -> Ended
    requires { (length sheet.now ≤ sheet_limit) × (words.old ≡ replicate (size layout.width) 0) × (number_count layout.width ≤ length names.old) × (room_of names.old ≤ item_limit layout.width) × (from ≤ length sheet.now + 1) × Laid layout words.old }
    ensures { Ends layout.width sheet.now (outcome_from 2 (nothing (room_of names.old)) (parts_from 10 sheet.now from)) names.new words.new result }
{
    let mut ends = [0u16; Sheet::FIELDS];
    let mut at = from;
    let mut line = 2;
    let mut kept = blank();
    let mut start = Start { at, line };
    while at <= sheet.len() {
        let s = reader::line::look_from(sheet, at, &mut ends);
        let end = s.end;
        let n = s.count.min(Sheet::FIELDS);
        let r = crate::taking::read(
            sheet,
            words,
            layout,
            names,
            kept,
            at,
            &sheet[at..end],
            s.good,
            &ends[..n],
        );
        kept = r.kept;
        if let Err(fault) = r.taken {
            return Ended {
                read: refused(line, fault),
                kept,
                start,
            };
        }
        line += 1;
        at = end + 1;
        start = start_from(kept.marks.rules, at, line, start);
    }
    Ended {
        read: Ok(()),
        kept,
        start,
    }
}

// Reads the lines of a sheet that is not too long into words that are all 0, up to the end or to the first faulty line.
fn read_all(sheet: &[u8], words: &mut [u64], at: Layout, names: &mut [u32]) -> Ended
    requires { (length sheet.now ≤ sheet_limit) × (words.old ≡ replicate (size at.width) 0) × (number_count at.width ≤ length names.old) × (room_of names.old ≡ 0) × Laid at words.old × (small ≤ at.width) }
    ensures { Ends at.width sheet.now (outcome at.width sheet.now) names.new words.new result }
{
    let end = text::part::end_of(sheet, 0, 10);
    let first = text::part::part(sheet, 0, end);
    if let Err(fault) = line::lines::header_fault(at.width, first) {
        return Ended {
            read: refused(1, fault),
            kept: blank(),
            start: Start { at: 0, line: 0 },
        };
    }
    field::tables::allow(names, line::lines::item_room(first));
    read_lines(sheet, words, at, names, end + 1)
}

// How a sheet ends that is too long.
fn too_long() -> Ended
    ensures { result ≡ too_long }
{
    Ended {
        read: Err(Refused { line: 0, why: 9 }),
        kept: blank(),
        start: Start { at: 0, line: 0 },
    }
}

// Reads a sheet that is not too long into a store whose words are all 0: its names, and what follows from its statements.
fn fill_short(sheet: &[u8], words: &mut [u64], at: Layout, names: &mut [u32]) -> Ended
    requires { (length sheet.now ≤ sheet_limit) × (words.old ≡ replicate (size at.width) 0) × (number_count at.width ≤ length names.old) × (room_of names.old ≡ 0) × Laid at words.old × (small ≤ at.width) }
    ensures { Fills at.width sheet.now names.new words.new result }
{
    let r = read_all(sheet, words, at, names);
    if r.read.is_ok() {
        crate::keeping::begin(words, at, r.kept.counts, r.kept.marks);
    }
    r
}

// Reads a sheet into a lent store whose words are all 0.
pub fn fill_blank(sheet: &[u8], words: &mut [u64], at: Layout, names: &mut [u32]) -> Ended
    requires { (words.old ≡ replicate (size at.width) 0) × (number_count at.width ≤ length names.old) × Laid at words.old × (small ≤ at.width) }
    ensures { Opens at.width sheet.now words.old names.new words.new result }
{
    field::tables::allow(names, 0);
    if Sheet::BYTES < sheet.len() {
        return too_long();
    }
    fill_short(sheet, words, at, names)
}

// Reads a sheet into the lent store.
pub fn fill(sheet: &[u8], words: &mut [u64], at: Layout, names: &mut [u32]) -> Ended
    requires { (number_count at.width ≤ length names.old) × Laid at words.old × (small ≤ at.width) }
    ensures { Opens at.width sheet.now words.old names.new words.new result }
{
    field::tables::allow(names, 0);
    if Sheet::BYTES < sheet.len() {
        return too_long();
    }
    rewrite::change::zero_all(words);
    fill_short(sheet, words, at, names)
}
