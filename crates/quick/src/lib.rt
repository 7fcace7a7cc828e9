// A line told at one look to be a statement with nothing wrong.
#![tactic(auto)]

ghost use Rattle.std.specs.Prelude.{◌≡◌, ◌+◌, ◌≤◌, length, drop};
ghost use Rattle.text.specs.Bytes.{every};
ghost use Rattle.text.specs.Name.{line_byte};
ghost use Rattle.line.specs.Fault.{line_limit};
ghost use Rattle.field.specs.Due.{statement_lineup};
ghost use Rattle.field.specs.own.Known.{fields_in, names_in};
ghost use Rattle.field.specs.own.Line.{Looked};
ghost use Rattle.quick.specs.own.Quick.{Finds, Named, Plainly, Stated};

use field::known::{Fields, Known};
use field::{Form, StatementWord};
use line::{Marks, Sheet};
use store::Statement;

// How many fields the line of a statement has, its word counted.
fn field_count(w: StatementWord) -> usize
    ensures { result ≡ length (statement_lineup w) + 1 }
{
    match w {
        StatementWord::Rel => 4,
        _ => 3,
    }
}

// The statement of the fields after a word, if there are as many as it wants and all their names are declared.
fn named(known: &Known, fields: &Fields, w: StatementWord) -> Option<Statement>
    ensures { Finds (Named (names_in known.now) w (drop 1 (fields_in fields.now))) result }
{
    if fields.ends.len() != field_count(w) {
        return None;
    }
    let statement = stated::statements::statement(known, fields, 1, w);
    if store::size::within(known.counts, statement) {
        Some(statement)
    } else {
        None
    }
}

// The statement of a line, if its form is that of one, no rule came before, and all its names are declared.
fn stated(known: &Known, m: Marks, fields: &Fields) -> Option<Statement>
    ensures { Finds (Stated (names_in known.now) m fields.now.line.now) result }
{
    if m.rules != 0 {
        return None;
    }
    match field::words::form(fields) {
        Form::Statement(w) => named(known, fields, w),
        _ => None,
    }
}

// The statement of a line, if it is one with nothing wrong.
pub fn statement_in(
    known: &Known,
    m: Marks,
    line: &[u8],
    good: bool,
    ends: &[u16],
) -> Option<Statement>
    requires { (good ≡ every line_byte line.now) × (length line.now ≤ line_limit → Looked line.now ends.now) }
    ensures { Finds (Plainly (names_in known.now) m line.now) result }
{
    if line.is_empty() || Sheet::LINE < line.len() || !good {
        return None;
    }
    stated(known, m, &Fields { line, ends })
}
