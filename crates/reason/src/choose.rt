// The search for a reason of a fact: the statement from which steps lead to it, the steps above, and the steps of "same".
ghost use Rattle.std.specs.Prelude.{◌≡◌};
ghost use Rattle.reason.specs.own.Aim.{Above, Aimed, Beside, Fresh, Joinable, Joined, Reaches, Sighted, Starts};
ghost use Rattle.reason.specs.own.Fact.{above_width};
ghost use Rattle.reason.specs.own.Promise.{Lent};

use crate::table::Table;
use crate::{Fact, Kind, Lines};
use store::Counts;

// The place of the first statement from which steps lead to the fact g.
fn find(codes: &[u32], g: Fact, same: Table, above: Table) -> usize
    requires { (above.width ≡ above_width) × Sighted same.width g codes.now same.words.now above.words.now }
    ensures { Starts g codes.now result }
{
    for i in 0..codes.len() {
        if crate::facts::meets(same, above, crate::facts::fact_at(codes, i), g) {
            return i;
        }
    }
    codes.len()
}

// Marks the steps above by which the fact g is reached; says from which statement on.
fn mark_above(
    codes: &[u32],
    counts: Counts,
    g: Fact,
    same: &mut [u64],
    width: usize,
    marks: &mut [u64; Lines::WORDS],
) -> usize
    requires { Aimed width counts g codes.now × Lent width same.old × Fresh marks.old }
    ensures { Above g codes.now marks.new result }
{
    let kind = crate::facts::kind_above(g);
    let mut above = [0u64; Lines::ABOVE_WORDS];
    crate::reach::fill(same, width, codes, Kind::Same, counts.items);
    crate::reach::fill(&mut above, Lines::ABOVE_WIDTH, codes, kind, Lines::ABOVE);
    let items = Table { words: same, width };
    let steps = Table {
        words: &above,
        width: Lines::ABOVE_WIDTH,
    };
    let n = find(codes, g, items, steps);
    let goal = crate::facts::above_goal(items, crate::facts::fact_at(codes, n), g);
    crate::seek::narrow(
        codes,
        kind,
        Lines::ABOVE,
        goal,
        &mut above,
        Lines::ABOVE_WIDTH,
        marks,
    );
    n
}

// Marks the steps of "same" by which the fact g is reached from the statement at the place n, beside the steps above that `up` marks.
fn mark_same(
    codes: &[u32],
    counts: Counts,
    g: Fact,
    n: usize,
    up: &[u64; Lines::WORDS],
    same: &mut [u64],
    width: usize,
    marks: &mut [u64; Lines::WORDS],
)
    requires { Aimed width counts g codes.now × Above g codes.now up.now n × Lent width same.old × Fresh marks.old }
    ensures { Beside g codes.now up.now marks.new n }
{
    let mut above = [0u64; Lines::ABOVE_WORDS];
    let kind = crate::facts::kind_above(g);
    crate::reach::build(
        &mut above,
        Lines::ABOVE_WIDTH,
        codes,
        kind,
        Lines::ABOVE,
        up,
    );
    let steps = Table {
        words: &above,
        width: Lines::ABOVE_WIDTH,
    };
    let goal = crate::facts::same_goal(steps, crate::facts::fact_at(codes, n), g);
    crate::seek::narrow(codes, Kind::Same, counts.items, goal, same, width, marks);
}

// Marks what `more` marks too, and the place n.
fn join(marks: &mut [u64; Lines::WORDS], more: &[u64; Lines::WORDS], n: usize)
    requires { Joinable marks.old more.now n }
    ensures { Joined marks.old more.now n marks.new }
{
    rewrite::change::row_or(marks, 0, Lines::WORDS, more, true);
    crate::marks::mark(marks, n);
}

// Marks a reason for the fact g.
pub fn by_fact(
    codes: &[u32],
    counts: Counts,
    g: Fact,
    same: &mut [u64],
    width: usize,
    marks: &mut [u64; Lines::WORDS],
)
    requires { Aimed width counts g codes.now × Lent width same.old × Fresh marks.old }
    ensures { Reaches g codes.now marks.new }
{
    let n = mark_above(codes, counts, g, same, width, marks);
    let mut more = [0u64; Lines::WORDS];
    mark_same(codes, counts, g, n, marks, same, width, &mut more);
    join(marks, &more, n);
}
