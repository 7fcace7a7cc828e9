ghost use Rattle.std.specs.Prelude.{◌<◌};
ghost use Rattle.row.specs.own.Pick.{Marks};
ghost use Rattle.store.specs.own.View.{held};
ghost use Rattle.rule.specs.Meaning.{Linked};
ghost use Rattle.store.specs.Cell.{DeclaredItem};

use row::Row;
use rule::RoleUse;
use store::Item;
use store::view::View;

// The items that the role, or its inverse, links x to. A role that is not declared links nothing.
pub fn links(view: &View, u: RoleUse, x: usize) -> Row
    requires { DeclaredItem view.now.counts x }
    ensures { Marks view.now.counts.items result (Linked (held view.now) u x) }
{
    let none = row::pick::empty();
    if view.counts.roles <= u.role.0 {
        return none;
    }
    if u.inverse {
        return view.back_row(u.role, Item(x));
    }
    view.join_links(u.role, Item(x), &none)
}
