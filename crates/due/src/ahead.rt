ghost use Rattle.std.specs.Prelude.{◌≡◌, None, cond, ◌≤◌, ◌<◌, slice_get};
ghost use Rattle.field.specs.Due.{is_expr, none};
ghost use Rattle.field.specs.Names.{nodes_of};
ghost use Rattle.due.specs.own.Pending.{Step, opening, pending, plenty};
ghost use Rattle.field.specs.Words.{operator_of};

use crate::{Lead, Pending};
use field::{Due, Operator};

// What is still due, by its parts.
pub fn pend(lead: Option<Lead>, exprs: usize, own: usize) -> Pending
    ensures { result ≡ record { lead = lead; exprs = exprs; own = own } }
{
    Pending { lead, exprs, own }
}

// What is still due after a word of an expression, where m expressions were due after that one.
fn wants(o: Option<Operator>, m: usize, own: usize) -> Pending
    requires { m < plenty }
    ensures { result ≡ opening o m own }
{
    match o {
        Some(Operator::And) | Some(Operator::Or) => pend(None, m + 2, own),
        Some(Operator::Not) => pend(None, m + 1, own),
        Some(Operator::Some) | Some(Operator::All) => pend(Some(Lead::RoleUse), m + 1, own),
        Some(Operator::AtLeast) => pend(Some(Lead::AtLeast), m + 1, own),
        Some(Operator::AtMost) => pend(Some(Lead::AtMost), m + 1, own),
        Some(Operator::SelfOf) => pend(Some(Lead::RoleUse), m, own),
        Some(Operator::One) => pend(Some(Lead::Item), m, own),
        Some(Operator::Top) | Some(Operator::Bot) | None => pend(None, m, own),
    }
}

// Whether nothing is due any more.
pub fn none_left(l: &[Due], p: Pending) -> bool
    ensures { result ≡ none (pending l.now p) }
{
    match p.lead {
        None => p.exprs == 0 && l.len() <= p.own,
        Some(_) => false,
    }
}

// What is due next, if anything is.
pub fn next_due(l: &[Due], p: Pending) -> Option<Due>
    ensures { result ≡ slice_get (pending l.now p) 0 }
{
    match p.lead {
        None => {
            if 0 < p.exprs {
                return Some(Due::Expr);
            }
            l.get(p.own).copied()
        }
        Some(Lead::RoleUse) => Some(Due::RoleUse),
        Some(Lead::AtLeast) => Some(Due::AtLeast),
        Some(Lead::AtMost) => Some(Due::AtMost),
        Some(Lead::Item) => Some(Due::Item),
    }
}

// What is still due after the next of the line-up's own dues, in a field with the word o.
fn step_own(l: &[Due], own: usize, o: Option<Operator>) -> Pending
    requires { own < plenty }
    ensures { Step l.now (record { lead = None; exprs = 0; own = own }) o result }
{
    match l.get(own) {
        Some(Due::Expr) => wants(o, 0, own + 1),
        _ => pend(None, 0, own + 1),
    }
}

// What is still due after one field more, which has the word o.
pub fn step(l: &[Due], p: Pending, o: Option<Operator>) -> Pending
    requires { (p.exprs < plenty) × (p.own < plenty) }
    ensures { Step l.now p o result }
{
    match p.lead {
        None => {
            if 0 < p.exprs {
                return wants(o, p.exprs - 1, p.own);
            }
            step_own(l, p.own, o)
        }
        Some(Lead::RoleUse) => pend(None, p.exprs, p.own),
        Some(Lead::AtLeast) => pend(Some(Lead::RoleUse), p.exprs, p.own),
        Some(Lead::AtMost) => pend(Some(Lead::RoleUse), p.exprs, p.own),
        Some(Lead::Item) => pend(None, p.exprs, p.own),
    }
}

// The nodes that a word of an expression stands for.
fn nodes_of(o: Option<Operator>) -> usize
    ensures { (result ≡ nodes_of o) × (result ≤ 4) }
{
    match o {
        Some(Operator::Or) => 4,
        Some(Operator::All) => 3,
        Some(Operator::AtMost) | Some(Operator::Bot) => 2,
        _ => 1,
    }
}

// The nodes of a field in which d is due, and which has the word o.
pub fn due_nodes(d: Due, o: Option<Operator>) -> usize
    ensures { (result ≡ cond (is_expr d) (nodes_of o) 0) × (result ≤ 4) }
{
    if crate::dues::is_expr(d) {
        return nodes_of(o);
    }
    0
}

// The word that a field is, if it is one; asked only where an expression is due.
pub fn word_in(d: Due, f: &[u8]) -> Option<Operator>
    ensures { result ≡ cond (is_expr d) (operator_of f.now) None }
{
    if crate::dues::is_expr(d) {
        return field::words::operator(f);
    }
    None
}
