// The search for statements by which a goal is reached: they are marked one after the other, the last first.
ghost use Rattle.reason.specs.own.Seek.{Narrowest, Wanted};

use crate::table::Table;
use crate::{Goal, Kind, Lines};

// Marks statements of a kind by which the goal is reached, and by no part of them with one taken out. The place that is marked, `end`, falls from turn to turn.
pub fn narrow(
    codes: &[u32],
    kind: Kind,
    nodes: usize,
    goal: Goal,
    t: &mut [u64],
    width: usize,
    marks: &mut [u64; Lines::WORDS],
)
    requires { Wanted width kind nodes goal codes.now t.old marks.old }
    ensures { Narrowest kind goal codes.now marks.new }
{
    let mut end = codes.len();
    crate::reach::build(t, width, codes, kind, nodes, marks);
    'narrowing: while !crate::table::reached(Table { words: t, width }, goal) {
        end = crate::reach::add_until(t, width, codes, kind, nodes, goal);
        crate::marks::mark(marks, end);
        crate::reach::build(t, width, codes, kind, nodes, marks);
    }
}
