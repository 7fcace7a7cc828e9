// The finding that a question asks for. What is public here is a part for `reply`, not an entry point.
ghost use Rattle.std.specs.Prelude.{◌≡◌, true};
ghost use Rattle.text.specs.Bytes.{same};
ghost use Rattle.text.specs.Text.{decimal};
ghost use Rattle.store.specs.own.Laid.{Laid};
ghost use Rattle.sheet.specs.own.Pass.{Judges};
ghost use Rattle.field.specs.own.Table.{table_of};
ghost use Rattle.why.specs.own.Asked.{Of};
ghost use Rattle.question.specs.Question.{about_finding};
ghost use Rattle.answer.specs.own.Asked.{BreakingIf, FindingIf, SidesIf};

use crate::FindingAsked;
use field::known::Known;
use finding::Sides;
use store::Layout;

// Whether a field is a number in decimal, without leading zeros.
fn is_number(f: &[u8], n: usize) -> bool
    ensures { result ≡ same f.now (decimal n) }
{
    let mut own = [0u8; 20];
    let k = text::write::put_decimal(&mut own, 0, n);
    text::part::same(f, &own[..k])
}

// The sides of the rule of a number, if its line is the one that the field says and the item a breaks it; or none.
fn sides_if(known: &Known, words: &[u64], at: Layout, k: usize, a: usize, on: bool) -> Option<Sides>
    requires { Judges at.width known.now.sheet.now (table_of known.now.numbers.now known.now.counts) words.now × Laid at words.now }
    ensures { BreakingIf at.width on known.now.sheet.now (table_of known.now.numbers.now known.now.counts) words.now k a result }
{
    if on {
        return finding::broken(known, words, at, k, a);
    }
    None
}

// The sides of a rule in the line that the field f says, if the item a breaks it.
fn sides(known: &Known, words: &[u64], at: Layout, f: &[u8], a: usize) -> Option<Sides>
    requires { Judges at.width known.now.sheet.now (table_of known.now.numbers.now known.now.counts) words.now × Laid at words.now }
    ensures { Of known.now.sheet.now (table_of known.now.numbers.now known.now.counts) (λ x. SidesIf at.width known.now.counts x words.now f.now a result) }
{
    let mut next = sheet::pass::first(known);
    let mut n = 0;
    while let Some(q) = next {
        if let Some(s) = sides_if(known, words, at, n, a, is_number(f, q.line)) {
            return Some(s);
        }
        n += 1;
        next = sheet::pass::next(known, q.past, q.line + 1);
    }
    None
}

// The finding that a question asks for whose first field is `finding`.
pub fn finding(known: &Known, words: &[u64], layout: Layout, q: &[u8]) -> Option<FindingAsked>
    requires { Judges layout.width known.now.sheet.now (table_of known.now.numbers.now known.now.counts) words.now × (about_finding q.now ≡ true) × Laid layout words.now }
    ensures { Of known.now.sheet.now (table_of known.now.numbers.now known.now.counts) (λ x. FindingIf layout.width known.now.counts x words.now q.now result) }
{
    if text::part::count(q, 9) != 3 {
        return None;
    }
    let at = reader::line::past(q, 0);
    let name = reader::line::field(q, reader::line::past(q, at));
    let item = known.item(name);
    let s = sides(known, words, layout, reader::line::field(q, at), item)?;
    Some(FindingAsked {
        item,
        left: s.left,
        right: s.right,
    })
}
