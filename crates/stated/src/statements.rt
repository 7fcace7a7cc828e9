ghost use Rattle.std.specs.Prelude.{◌≡◌, ◌≤◌, drop};
ghost use Rattle.stated.specs.Stated.{statement_of};
ghost use Rattle.field.specs.own.Known.{fields_in, names_in};

use crate::numbers;
use field::StatementWord;
use field::known::{Fields, Known};
use store::Statement;

// The statement that one role is under another, where `~` may stand before either.
fn role_under(known: &Known, fields: &Fields, from: usize) -> Statement
    requires { from ≤ 2 }
    ensures { result ≡ statement_of (names_in known.now) StatementWord.RoleUnder (drop from (fields_in fields.now)) }
{
    let a = numbers::role_use(known, fields, from);
    let b = numbers::role_use(known, fields, from + 1);
    Statement::RoleUnder(a.role, a.inverse != b.inverse, b.role)
}

// The statement that the fields of a line say, from the one with the number `from` on.
pub fn statement(known: &Known, fields: &Fields, from: usize, w: StatementWord) -> Statement
    requires { from ≤ 2 }
    ensures { result ≡ statement_of (names_in known.now) w (drop from (fields_in fields.now)) }
{
    match w {
        StatementWord::In => {
            let a = numbers::item(known, fields, from);
            let b = numbers::concept(known, fields, from + 1);
            Statement::In(a, b)
        }
        StatementWord::Rel => {
            let r = numbers::role(known, fields, from);
            let a = numbers::item(known, fields, from + 1);
            let b = numbers::item(known, fields, from + 2);
            Statement::Link(r, a, b)
        }
        StatementWord::Same => {
            let a = numbers::item(known, fields, from);
            let b = numbers::item(known, fields, from + 1);
            Statement::Same(a, b)
        }
        StatementWord::Under => {
            let a = numbers::concept(known, fields, from);
            let b = numbers::concept(known, fields, from + 1);
            Statement::Under(a, b)
        }
        StatementWord::RoleUnder => role_under(known, fields, from),
    }
}
