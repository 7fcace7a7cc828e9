ghost use Rattle.std.specs.Prelude.{[], ◌∷◌, Bool, true, false, ◌<◌, take};
ghost use Rattle.logic.specs.own.Decides.{Decides};
ghost use Rattle.row.specs.own.Row.{RowHas};
ghost use Rattle.row.specs.own.Pick.{Marks};
ghost use Rattle.store.specs.own.View.{held};
ghost use Rattle.rule.specs.Meaning.{Linked, LinkedWay};
ghost use Rattle.rule.specs.Breaks.{Path};
ghost use Rattle.links.specs.own.Reach.{ItemRow, Reached};
ghost use Rattle.store.specs.Cell.{DeclaredItem};

use row::{ROOM, Row};
use rule::RoleUse;
use store::view::View;
use store::{Item, Role};

// The items that the role links an item of the row p to.
fn forward(view: &View, role: Role, p: &Row) -> Row
    requires { role.0 < view.now.counts.roles }
    ensures { Marks view.now.counts.items result (Reached (LinkedWay (held view.now) Bool.false role.0) (RowHas p.now)) }
{
    let mut r = row::pick::empty();
    // No for: past an item that is not in the row the loop goes on at the next that is, with no look at those between.
    let mut z = 0;
    while z < view.counts.items {
        if row::pick::has(p, z) {
            view.add_links(role, Item(z), &mut r);
            z += 1;
        } else {
            z = row::pick::next(p, z + 1, view.counts.items);
        }
    }
    r
}

// The items that the role links to an item of the row p.
fn backward(view: &View, role: Role, p: &Row) -> Row
    requires { role.0 < view.now.counts.roles }
    ensures { Marks view.now.counts.items result (Reached (LinkedWay (held view.now) Bool.true role.0) (RowHas p.now)) }
{
    let mut r = row::pick::empty();
    if row::pick::next(p, 0, view.counts.items) == view.counts.items {
        return r;
    }
    for y in 0..view.counts.items {
        if view.links_meet(role, Item(y), p) {
            row::pick::mark(&mut r, y, true);
        }
    }
    r
}

// The items that the role, or its inverse, links an item of the row p to.
pub fn step_row(view: &View, u: RoleUse, p: &Row) -> Row
    ensures { Marks view.now.counts.items result (Reached (Linked (held view.now) u) (RowHas p.now)) }
{
    if view.counts.roles <= u.role.0 {
        return row::pick::empty();
    }
    if u.inverse {
        return backward(view, u.role, p);
    }
    forward(view, u.role, p)
}

// The row of the item x alone; a number past the row's bits is in none.
pub fn item_row(x: usize) -> Row
    ensures { ItemRow x result }
{
    if 64 * ROOM <= x {
        return row::pick::empty();
    }
    let mut r = row::pick::empty();
    row::pick::mark(&mut r, x, true);
    r
}

// The ends of the paths from x of the first k of the roles.
pub fn path_row(
    view: &View,
    k: usize,
    a: RoleUse,
    b: RoleUse,
    c: RoleUse,
    d: RoleUse,
    x: usize,
) -> Row
    requires { DeclaredItem view.now.counts x }
    ensures { Marks view.now.counts.items result (Path (held view.now) view.now.counts (take k (a ∷ b ∷ c ∷ d ∷ [])) x) }
{
    if k == 0 {
        return item_row(x);
    }
    let first = crate::found::links(view, a, x);
    if k == 1 {
        return first;
    }
    let second = step_row(view, b, &first);
    if k == 2 {
        return second;
    }
    let third = step_row(view, c, &second);
    if k == 3 {
        return third;
    }
    step_row(view, d, &third)
}
