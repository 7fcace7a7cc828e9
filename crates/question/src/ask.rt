// The cell that a question asks for. What is public here is a part for `answer`, not an entry point.
ghost use Rattle.std.specs.Prelude.{◌≡◌};
ghost use Rattle.field.specs.own.Known.{fields_in, names_in};
ghost use Rattle.field.specs.Words.{body_of, form_of};
ghost use Rattle.question.specs.Question.{about_finding, bare as bare_of};
ghost use Rattle.question.specs.own.Asked.{Asking, FormAsked};

use field::Form;
use field::known::{Fields, Known};
use line::{Marks, Sheet};
use store::Statement;

// The question without a line feed at its end.
pub fn bare(question: &[u8]) -> &[u8]
    ensures { result.now ≡ bare_of question.now }
{
    let n = question.len();
    if 0 < n && question[n - 1] == 10 {
        return text::part::part(question, 0, n - 1);
    }
    question
}

// Whether the first field of the question is `finding`.
pub fn about_finding(q: &[u8]) -> bool
    ensures { result ≡ about_finding q.now }
{
    text::part::same(reader::line::field(q, 0), b"finding")
}

// The cell that a question with nothing wrong with it asks for, as the statement that states it, if it is a statement.
fn stated(known: &Known, q: &Fields) -> Option<Statement>
    ensures { FormAsked (names_in known.now) (form_of (fields_in q.now)) (body_of (fields_in q.now)) result }
{
    match field::words::form(q) {
        Form::Statement(w) => Some(stated::statements::statement(known, q, 1, w)),
        _ => None,
    }
}

// The cell that a question asks for, as the statement that states it, if it is a statement with nothing wrong with it.
pub fn cell(known: &Known, q: &[u8]) -> Option<Statement>
    ensures { Asking (names_in known.now) q.now result }
{
    if Sheet::LINE < q.len() {
        return None;
    }
    let m = Marks {
        stated: true,
        rules: 0,
    };
    let mut ends = [0u16; Sheet::FIELDS];
    let s = reader::line::look_from(q, 0, &mut ends);
    if s.end < q.len() {
        return None;
    }
    let n = s.count.min(Sheet::FIELDS);
    let fault = line::lines::line_fault(known, m, q, s.good, &ends[..n]);
    if fault.is_err() {
        return None;
    }
    let fields = Fields {
        line: q,
        ends: &ends[..n],
    };
    stated(known, &fields)
}
