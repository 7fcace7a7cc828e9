ghost use Rattle.std.specs.Prelude.{◌≤◌, length, drop};
ghost use Rattle.line.specs.Fault.{line_limit};
ghost use Rattle.field.specs.own.Known.{fields_in, names_in};
ghost use Rattle.line.specs.own.Walk.{WalkedBy};

use crate::Walked;
use field::Due;
use field::known::{Fields, Known};

// What the fields of a line come to, from the one with the number `from` on, where the line-up is due.
pub fn walk(known: &Known, fields: &Fields, from: usize, l: &[Due]) -> Walked
    requires { length fields.now.line.now ≤ line_limit }
    ensures { WalkedBy (names_in known.now) l.now (drop from (fields_in fields.now)) result }
{
    let mut p = due::ahead::pend(None, 0, 0);
    let mut fault = Ok(());
    let mut nodes = 0;
    for k in from..fields.ends.len() {
        let Some(d) = due::ahead::next_due(l, p) else {
            return Walked {
                fits: false,
                fault,
                nodes,
            };
        };
        let f = reader::scan::field(fields.line, fields.ends, k);
        let o = due::ahead::word_in(d, f);
        fault = crate::faults::lower(fault, crate::faults::field(known, d, f));
        nodes += due::ahead::due_nodes(d, o);
        p = due::ahead::step(l, p, o);
    }
    Walked {
        fits: due::ahead::none_left(l, p),
        fault,
        nodes,
    }
}
