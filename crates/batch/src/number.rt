ghost use Rattle.std.specs.Prelude.{◌≡◌};
ghost use Rattle.store.specs.Cell.{cell_of};
ghost use Rattle.batch.specs.Codes.{cell_of_kind};

use store::{Concept, Item, Role, Statement, Store};

// The cell of a kind, as the statement that states it.
pub fn cell(kind: usize, a: usize, b: usize, c: usize) -> Statement
    ensures { cell_of result ≡ cell_of_kind kind a b c }
{
    match kind {
        0 => Statement::Same(Item(a), Item(b)),
        1 => Statement::Under(Concept(a), Concept(b)),
        2 => Statement::RoleUnder(Role(a), false, Role(b)),
        3 => Statement::RoleUnder(Role(a), true, Role(b)),
        4 => Statement::In(Item(a), Concept(b)),
        5 => Statement::Link(Role(c), Item(a), Item(b)),
        _ => Statement::Link(Role(Store::ROLES), Item(a), Item(b)),
    }
}
