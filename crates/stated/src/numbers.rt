ghost use Rattle.std.specs.Prelude.{◌≡◌};
ghost use Rattle.field.specs.Words.{at as field_of};
ghost use Rattle.field.specs.own.Known.{fields_in, names_in};
ghost use Rattle.stated.specs.Stated.{concept_of, item_of, role_of, role_use_of};

use field::known::{Fields, Known};
use rule::RoleUse;
use store::{Concept, Item, Role};

// The field of a line with the number k, from 0; no bytes where there is none.
pub fn nth<'a>(fields: &Fields<'a>, k: usize) -> &'a [u8]
    ensures { result.now ≡ field_of k (fields_in fields.now) }
{
    if k < fields.ends.len() {
        reader::scan::field(fields.line, fields.ends, k)
    } else {
        &fields.line[..0]
    }
}

// The concept that the field with the number k names.
pub fn concept(known: &Known, fields: &Fields, k: usize) -> Concept
    ensures { result ≡ concept_of (names_in known.now) (field_of k (fields_in fields.now)) }
{
    Concept(known.concept(nth(fields, k)))
}

// The role that the field with the number k names.
pub fn role(known: &Known, fields: &Fields, k: usize) -> Role
    ensures { result ≡ role_of (names_in known.now) (field_of k (fields_in fields.now)) }
{
    Role(known.role(nth(fields, k)))
}

// The item that the field with the number k names.
pub fn item(known: &Known, fields: &Fields, k: usize) -> Item
    ensures { result ≡ item_of (names_in known.now) (field_of k (fields_in fields.now)) }
{
    Item(known.item(nth(fields, k)))
}

// The role or inverse that the field with the number k names.
pub fn role_use(known: &Known, fields: &Fields, k: usize) -> RoleUse
    ensures { result ≡ role_use_of (names_in known.now) (field_of k (fields_in fields.now)) }
{
    let f = nth(fields, k);
    RoleUse {
        role: Role(known.role(field::names::plain(f))),
        inverse: field::names::inverted(f),
    }
}
