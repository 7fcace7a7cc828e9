ghost use Rattle.logic.specs.own.Decides.{Decides};
ghost use Rattle.store.specs.own.View.{held};
ghost use Rattle.rule.specs.Meaning.{Linked};

use rule::RoleUse;
use store::Item;
use store::view::View;

// Whether the role, or its inverse, links a to b.
pub fn linked(view: &View, u: RoleUse, a: usize, b: usize) -> bool
    ensures { Decides result (Linked (held view.now) u a b) }
{
    if u.inverse {
        return view.link(u.role, Item(b), Item(a));
    }
    view.link(u.role, Item(a), Item(b))
}
