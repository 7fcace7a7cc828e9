// The statements of a sheet as numbers, and a reason among them. What is public here is a part with a `requires`, not an entry point.
ghost use Rattle.std.specs.Prelude.{◌≡◌, length};
ghost use Rattle.store.specs.Cell.{cell_of};
ghost use Rattle.sheet.specs.own.Pass.{Accepts};
ghost use Rattle.field.specs.own.Table.{table_of};
ghost use Rattle.reason.specs.own.Picked.{mark_words};
ghost use Rattle.reason.specs.own.Promise.{Clear};
ghost use Rattle.why.specs.own.Asked.{Asked, ReasonMarked};
ghost use Rattle.why.specs.own.Gather.{Gathered, Searched, statement_limit};

use field::known::Known;
use reason::Lines;
use store::Statement;

// Keeps the statements of an accepted sheet as numbers; says how many they are.
fn gather(known: &Known, codes: &mut [u32; Lines::MOST]) -> usize
    requires { Accepts known.now.sheet.now (table_of known.now.numbers.now known.now.counts) × (length codes.old ≡ statement_limit) }
    ensures { Gathered known.now.sheet.now (table_of known.now.numbers.now known.now.counts) codes.new result }
{
    let mut at = crate::stating::second_line(known.sheet);
    let mut line = 2;
    let mut n = 0;
    while let Some(q) = crate::stating::next(known, at, line) {
        codes[n] = reason::code::code(q.statement);
        n += 1;
        at = q.past;
        line = q.line + 1;
    }
    n
}

// Marks, of the statements of an accepted sheet, a reason for the cell that `cell` states, which follows from them. The words lent have room for a row of `width` words for each item.
pub fn reasoned(
    known: &Known,
    cell: Statement,
    table: &mut [u64],
    width: usize,
    marks: &mut [u64; Lines::WORDS],
)
    requires { Asked known.now.sheet.now (table_of known.now.numbers.now known.now.counts) (cell_of cell) × (length marks.old ≡ mark_words) × Clear marks.old × Searched width known.now.counts table.old }
    ensures { ReasonMarked known.now.sheet.now (table_of known.now.numbers.now known.now.counts) (cell_of cell) marks.new }
{
    let mut codes = [0u32; Lines::MOST];
    let n = gather(known, &mut codes);
    reason::explain(&codes[..n], known.counts, cell, table, width, marks);
}
