ghost use Rattle.std.specs.Prelude.{◌≡◌, ◌≤◌};
ghost use Rattle.logic.specs.Number.{Number};
ghost use Rattle.row.specs.own.Row.{RowHas};
ghost use Rattle.row.specs.own.Pick.{Marks};
ghost use Rattle.store.specs.Cell.{DeclaredItem};
ghost use Rattle.store.specs.own.View.{held};
ghost use Rattle.rule.specs.Meaning.{Articles, Linked};
ghost use Rattle.links.specs.own.Reach.{Reached};
ghost use Rattle.expression.specs.own.Row.{Found, turned as turned_of};

use row::{ROOM, Row};
use rule::RoleUse;
use store::Item;
use store::view::View;

// The items of the row p that the role, or its inverse, links an item of the row q to.
fn reached(view: &View, u: RoleUse, p: &Row, q: &Row) -> Row
    ensures { Marks view.now.counts.items result (λ b. Reached (Linked (held view.now) u) (RowHas q.now) b × RowHas p.now b) }
{
    row::pick::meet(&links::reach::step_row(view, u, q), p)
}

// How many numbers the row has.
fn size(p: &Row) -> usize
    ensures { Number (RowHas p.now) result }
{
    row::pick::common(p, 0, ROOM, p)
}

// How many items of the row p the role, or its inverse, links x to. A role that is not declared links nothing.
fn linked_count(view: &View, u: RoleUse, p: &Row, x: usize) -> usize
    requires { DeclaredItem view.now.counts x }
    ensures { Number (λ y. Linked (held view.now) u x y × RowHas p.now y) result }
{
    if view.counts.roles <= u.role.0 {
        return 0;
    }
    if u.inverse {
        let back = view.back_row(u.role, Item(x));
        return row::pick::common(&back, 0, view.at.width, p);
    }
    view.links_common(u.role, Item(x), p)
}

// Of the items of the row q, which the role, or its inverse, links to items of the row p: those that it links to at least k different articles of p.
fn several(view: &View, k: usize, u: RoleUse, p: &Row, q: &Row) -> Row
    requires { (1 ≤ k) × Marks view.now.counts.items q.now (Reached (Linked (held view.now) (turned_of u)) (RowHas p.now)) }
    ensures { Marks view.now.counts.items result (λ x. Articles (held view.now) view.now.counts k (Found (held view.now) u (RowHas p.now) x)) }
{
    let mut lead = reached(view, u, p, q);
    crate::lead::keep_leaders(view, &mut lead);
    let mut r = row::pick::empty();
    if size(&lead) < k {
        return r;
    }
    // No for: past an item that is not in the row the loop goes on at the next that is, with no look at those between.
    let mut x = 0;
    while x < view.counts.items {
        if row::pick::has(q, x) {
            let n = linked_count(view, u, &lead, x);
            row::pick::mark(&mut r, x, k <= n);
            x += 1;
        } else {
            x = row::pick::next(q, x + 1, view.counts.items);
        }
    }
    r
}

// The role, if this is its inverse; the inverse, if it is the role.
fn turned(u: RoleUse) -> RoleUse
    ensures { result ≡ turned_of u }
{
    RoleUse {
        role: u.role,
        inverse: !u.inverse,
    }
}

// The items that the role, or its inverse, links to items of the row p of at least k different articles. None: all items. One: by the step of the turned role from p. Several: of an inverse by tallies, where these count so many; otherwise by one item of each article.
// Kept out of row_at, which calls itself: the rows that it needs would stand in each of those calls.
#[inline(never)]
pub fn many(view: &View, k: usize, u: RoleUse, p: &Row) -> Row
    ensures { Marks view.now.counts.items result (λ x. Articles (held view.now) view.now.counts k (Found (held view.now) u (RowHas p.now) x)) }
{
    if k == 0 {
        return row::pick::below(view.counts.items);
    }
    if crate::tally::counts_for(view.counts, k, u) {
        return crate::tally::tally(view, k, u.role, p);
    }
    let some = links::reach::step_row(view, turned(u), p);
    if k == 1 {
        return some;
    }
    several(view, k, u, p, &some)
}
