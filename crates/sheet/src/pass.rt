// The second reading of an accepted sheet: its rules, one after the other. What is public here is a part with a `requires`, not an entry point.
ghost use Rattle.std.specs.Prelude.{◌≡◌};
ghost use Rattle.field.specs.Words.{body_of, form_of};
ghost use Rattle.field.specs.own.Known.{fields_in, names_in};
ghost use Rattle.sheet.specs.own.Pass.{Accepts, Next, Opened, Paused, RuleIfReady, line_rule, table_in};

use crate::RuleLine;
use field::Form;
use field::known::{Fields, Known};
use line::Sheet;

// The rule of a line, if it is the line of one; with the line's number and the place past it.
fn rule_in(known: &Known, fields: &Fields, number: usize, past: usize) -> Option<RuleLine>
    requires { RuleIfReady fields.now.line.now }
    ensures { result ≡ line_rule (names_in known.now) (form_of (fields_in fields.now)) (body_of (fields_in fields.now)) number past }
{
    match field::words::form(fields) {
        Form::Rule(w) => Some(RuleLine {
            line: number,
            past,
            rule: saying::rules::rule_of(known, fields, 2, w),
        }),
        _ => None,
    }
}

// The first rule from a place of the sheet on, where a line with the number given begins.
pub fn next(known: &Known, from: usize, first: usize) -> Option<RuleLine>
    requires { Paused known.now.sheet.now (table_in known.now) from first }
    ensures { Next known.now.sheet.now (table_in known.now) from first result }
{
    let sheet = known.sheet;
    let mut ends = [0u16; Sheet::FIELDS];
    let mut at = from;
    let mut line = first;
    while at <= sheet.len() {
        let s = reader::line::look_from(sheet, at, &mut ends);
        let end = s.end;
        let n = s.count.min(Sheet::FIELDS);
        let fields = Fields {
            line: &sheet[at..end],
            ends: &ends[..n],
        };
        if let Some(q) = rule_in(known, &fields, line, end + 1) {
            return Some(q);
        }
        line += 1;
        at = end + 1;
    }
    None
}

// The first rule of an accepted sheet.
pub fn first(known: &Known) -> Option<RuleLine>
    requires { Accepts known.now.sheet.now (table_in known.now) }
    ensures { Opened known.now.sheet.now (table_in known.now) result }
{
    let end = text::part::end_of(known.sheet, 0, 10);
    next(known, end + 1, 2)
}
