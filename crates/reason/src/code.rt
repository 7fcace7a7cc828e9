// Statements as numbers of 4 bytes, since as many as `Lines::MOST` of them lie in fixed memory, where a `Statement` would take 32 each.
ghost use Rattle.std.specs.Prelude.{◌≡◌, ◌+◌, ◌*◌, ◌<◌};
ghost use Rattle.store.specs.Cell.{cell_of};
ghost use Rattle.reason.specs.own.Code.{Small, cell_at};

use store::{Concept, Item, Role, Statement};

// The number that has a kind and three further numbers in their places.
fn number(kind: usize, a: usize, b: usize, r: usize) -> u32
    requires { (kind < 8) × (a < 512) × (b < 512) × (r < 1024) }
    ensures { result ≡ kind + 8 * a + 4096 * b + 2097152 * r }
{
    (kind + 8 * a + 4096 * b + 2097152 * r) as u32
}

// The number of a statement, whose numbers are small.
pub fn code(s: Statement) -> u32
    requires { Small s }
    ensures { cell_at result ≡ cell_of s }
{
    match s {
        Statement::Same(a, b) => number(0, a.0, b.0, 0),
        Statement::Under(a, b) => number(1, a.0, b.0, 0),
        Statement::RoleUnder(r, u, t) => {
            if u {
                number(3, r.0, t.0, 0)
            } else {
                number(2, r.0, t.0, 0)
            }
        }
        Statement::In(a, b) => number(4, a.0, b.0, 0),
        Statement::Link(r, a, b) => number(5, a.0, b.0, r.0),
    }
}

// The cell that a number states, as the statement that states it.
pub fn statement_at(k: u32) -> Statement
    ensures { cell_of result ≡ cell_at k }
{
    let a = (k / 8 % 512) as usize;
    let b = (k / 4096 % 512) as usize;
    match k % 8 {
        0 => Statement::Same(Item(a), Item(b)),
        1 => Statement::Under(Concept(a), Concept(b)),
        2 => Statement::RoleUnder(Role(a), false, Role(b)),
        3 => Statement::RoleUnder(Role(a), true, Role(b)),
        4 => Statement::In(Item(a), Concept(b)),
        _ => Statement::Link(Role((k / 2097152) as usize), Item(a), Item(b)),
    }
}
