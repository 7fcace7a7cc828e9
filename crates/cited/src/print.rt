// The lines that are printed for a question. What is public here is a part with a `requires`, not an entry point.
ghost use Rattle.std.specs.Prelude.{◌≡◌, true, false, cond, [], ◌+◌, ◌*◌, ◌≤◌, ◌<◌, length, get_or};
ghost use Rattle.text.specs.Text.{Wrote};
ghost use Rattle.field.specs.Words.{form_of};
ghost use Rattle.field.specs.own.Known.{fields_in, names_in};
ghost use Rattle.row.specs.own.Row.{row_hasb};
ghost use Rattle.reason.specs.own.Picked.{mark_words};
ghost use Rattle.cited.specs.Text.{numbered_text};
ghost use Rattle.cited.specs.own.Writing.{Accepted, LinesPut, PutIf, ReasonPut, absent_if, statement_form};

use crate::{Absent, Printed};
use field::known::{Fields, Known};
use field::{Form, Table};
use line::Sheet;
use reason::Lines;
use store::Item;

// Whether a line is that of a statement.
fn is_statement(fields: &Fields) -> bool
    ensures { result ≡ statement_form (form_of (fields_in fields.now)) }
{
    matches!(field::words::form(fields), Form::Statement(_))
}

// Writes a line of the sheet: `line`, its number, its own bytes.
fn put_line(room: &mut [u8], at: usize, number: usize, line: &[u8]) -> usize
    requires { (at < 600000) × (length line.now ≤ 32768) }
    ensures { Wrote room.old at (numbered_text number line.now) room.new result × (result ≤ at + length line.now + 27) }
{
    let word = text::write::put_all(room, at, b"line");
    let count = printed::put_number(room, word, number);
    let tab = text::write::put(room, count, 9);
    let own = text::write::put_all(room, tab, line);
    text::write::put(room, own, 10)
}

// The same, and one line more, if `on`.
fn put_line_if(room: &mut [u8], p: Printed, number: usize, line: &[u8], on: bool) -> Printed
    requires { (p.at < 600000) × (p.total < 600000) × (length line.now ≤ 32768) }
    ensures { PutIf on p number line.now room.old room.new result }
{
    if on {
        return Printed {
            at: put_line(room, p.at, number, line),
            total: p.total + 1,
        };
    }
    p
}

// Whether the statement at the place n is marked, if `on`.
fn marked_if(on: bool, marks: &[u64; Lines::WORDS], n: usize) -> bool
    requires { on ≡ true → n < 64 * mark_words }
    ensures { result ≡ cond on (row_hasb marks.now n) false }
{
    on && reason::marks::has(marks, n)
}

// One more, if `on`.
fn more_if(on: bool, n: usize) -> usize
    requires { n < 600000 }
    ensures { result ≡ n + cond on 1 0 }
{
    if on {
        return n + 1;
    }
    n
}

// Writes the lines of the statements marked, from the room's start on and as far as it reaches, and counts them.
fn put_lines(sheet: &[u8], marks: &[u64; Lines::WORDS], room: &mut [u8]) -> Printed
    requires { Accepted sheet.now }
    ensures { LinesPut sheet.now marks.now room.old room.new result }
{
    let mut ends = [0u16; Sheet::FIELDS];
    let mut at = text::part::end_of(sheet, 0, 10) + 1;
    let mut line = 2;
    let mut n = 0;
    let mut p = Printed { at: 0, total: 0 };
    while at <= sheet.len() {
        let s = reader::line::look_from(sheet, at, &mut ends);
        let k = s.count.min(Sheet::FIELDS);
        let fields = Fields {
            line: &sheet[at..s.end],
            ends: &ends[..k],
        };
        let stated = is_statement(&fields);
        let on = marked_if(stated, marks, n);
        p = put_line_if(room, p, line, fields.line, on);
        n = more_if(stated, n);
        line += 1;
        at = s.end + 1;
    }
    p
}

// The name of a concept; no bytes where there is none with that number.
fn concept<'a>(known: &Known<'a>, c: usize) -> &'a [u8]
    ensures { result.now ≡ get_or (names_in known.now).concepts c [] }
{
    if c < known.counts.concepts {
        return field::names::name_at(known.sheet, known.numbers[Table::CONCEPTS + c]);
    }
    text::part::part(known.sheet, 0, 0)
}

// Writes what is absent, if it is to be printed: `absent`, `in`, item, concept.
fn put_absent(known: &Known, absent: Option<Absent>, room: &mut [u8], at: usize) -> usize
    requires { at ≤ 500000 }
    ensures { Wrote room.old at (absent_if (names_in known.now) absent) room.new result × (result ≤ at + 80) }
{
    let Some(a) = absent else { return at };
    let word = text::write::put_all(room, at, b"absent\tin");
    let item = printed::put_name(known, Item(a.item), room, word);
    let tab = text::write::put(room, item, 9);
    let name = text::write::put_all(room, tab, concept(known, a.concept));
    text::write::put(room, name, 10)
}

// Writes the text of the statements marked, from the room's start on and as far as it reaches: their lines, what is absent, the total; gives its length.
pub fn put_reason(
    known: &Known,
    marks: &[u64; Lines::WORDS],
    absent: Option<Absent>,
    room: &mut [u8],
) -> usize
    requires { Accepted known.now.sheet.now }
    ensures { ReasonPut known.now.sheet.now (names_in known.now) absent marks.now room.old room.new result }
{
    let p = put_lines(known.sheet, marks, room);
    let at = put_absent(known, absent, room, p.at);
    printed::total(room, at, p.total as u64)
}
