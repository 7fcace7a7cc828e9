// Marks on statements, a bit for each place. What is public here is a part with a `requires`, not an entry point.
ghost use Rattle.std.specs.Prelude.{◌≡◌, true, ◌*◌, ◌<◌, length};
ghost use Rattle.row.specs.own.Pick.{Marked};
ghost use Rattle.row.specs.own.Row.{row_hasb};
ghost use Rattle.reason.specs.own.Picked.{mark_words};

use crate::Lines;

// Whether the statement at the place n is marked.
pub fn has(marks: &[u64; Lines::WORDS], n: usize) -> bool
    requires { n < 64 * mark_words }
    ensures { result ≡ row_hasb marks.now n }
{
    let h = n / 64;
    row::bit::has_bit(marks[h], (n % 64) as u64)
}

// Marks the statement at the place n.
pub fn mark(marks: &mut [u64; Lines::WORDS], n: usize)
    requires { (length marks.old ≡ mark_words) × (n < 64 * mark_words) }
    ensures { Marked true n marks.old marks.new }
{
    let h = n / 64;
    marks[h] = row::bit::or_if(true, row::bit::one_bit((n % 64) as u64), marks[h]);
}
