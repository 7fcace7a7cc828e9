ghost use Rattle.std.specs.Prelude.{◌≡◌, true, ◌*◌, ◌≤◌, ◌<◌, length};
ghost use Rattle.logic.specs.own.Decides.{Decides};
ghost use Rattle.row.specs.own.Row.{RowHas};
ghost use Rattle.row.specs.own.Pick.{Marks, room};
ghost use Rattle.store.specs.own.View.{held};
ghost use Rattle.rule.specs.Breaks.{BreaksPair};
ghost use Rattle.rule.specs.Meaning.{Linked};
ghost use Rattle.breach.specs.own.Plan.{Beside, BreaksBy, PlaceBreaks, Planned, RootRow, is_pair, is_sub, left_root, right_root};
ghost use Rattle.store.specs.Cell.{DeclaredItem};

use crate::Plan;
use row::Row;
use rule::{Head, RoleUse, Rule, Slot};
use store::Item;
use store::view::View;

// Whether the rule is broken by x alone. The rows left and right are of what its roots hold of.
fn breaks_alone(view: &View, head: Head, left: &Row, right: &Row, x: usize) -> bool
    requires { DeclaredItem view.now.counts x }
    ensures { Decides result (BreaksBy (held view.now) (RowHas left.now) (RowHas right.now) head x) }
{
    match head {
        Head::Sub(_, _) => row::pick::has(left, x) && !row::pick::has(right, x),
        Head::Ref(u) => !links::look::linked(view, u, x, x),
        Head::Irr(u) => links::look::linked(view, u, x, x),
        Head::In(_, a) => x == a.0 && !row::pick::has(left, x),
        _ => false,
    }
}

// Whether the rule is broken by what its left root holds of and its right root does not.
pub fn is_sub(head: Head) -> bool
    ensures { result ≡ is_sub head }
{
    matches!(head, Head::Sub(_, _))
}

// The numbers below n that the row a has and the row b has not.
fn but(n: usize, a: &Row, b: &Row) -> Row
    requires { n ≤ 64 * room }
    ensures { Marks n result (λ x. RowHas a.now x × ¬ (RowHas b.now x)) }
{
    row::pick::without(&row::pick::meet(&row::pick::below(n), a), b)
}

// The items that break the plan's rule alone.
pub fn alone_row(view: &View, plan: Plan) -> Row
    ensures { Marks view.now.counts.items result (BreaksBy (held view.now) (RowHas plan.left) (RowHas plan.right) plan.head) }
{
    if is_sub(plan.head) {
        return but(view.counts.items, &plan.left, &plan.right);
    }
    let mut r = row::pick::empty();
    for x in 0..view.counts.items {
        let on = breaks_alone(view, plan.head, &plan.left, &plan.right, x);
        row::pick::mark(&mut r, x, on);
    }
    r
}

// The item b alone, if x is the item a, b is below n, and `on`.
fn named(n: usize, x: usize, a: Item, b: Item, on: bool) -> Row
    requires { n ≤ 64 * room }
    ensures { Marks n result (λ y. (x ≡ a.0) × (y ≡ b.0) × (on ≡ true)) }
{
    let mut r = row::pick::empty();
    if x != a.0 || n <= b.0 {
        return r;
    }
    row::pick::mark(&mut r, b.0, on);
    r
}

// The items that the role, or its inverse, links x to, if the row has an item; if it has none, no link is looked up.
fn links_beside(view: &View, on: &Row, u: RoleUse, x: usize) -> Row
    requires { DeclaredItem view.now.counts x }
    ensures { Beside view.now.counts.items on.now result (Linked (held view.now) u x) }
{
    if row::pick::next(on, 0, view.counts.items) == view.counts.items {
        return row::pick::empty();
    }
    links::found::links(view, u, x)
}

// The items y with which x breaks the rule.
pub fn pair_row(view: &View, head: Head, x: usize) -> Row
    requires { DeclaredItem view.now.counts x }
    ensures { Marks view.now.counts.items result (BreaksPair (held view.now) view.now.counts head x) }
{
    let n = view.counts.items;
    match head {
        Head::RoleSub(u, v) => {
            let on = links::found::links(view, u, x);
            row::pick::without(&on, &links_beside(view, &on, v, x))
        }
        Head::Chain(k, a, b, c, d, u) => {
            let on = links::reach::path_row(view, k, a, b, c, d, x);
            row::pick::without(&on, &links_beside(view, &on, u, x))
        }
        Head::Dis(u, v) => {
            let on = links::found::links(view, u, x);
            row::pick::meet(&on, &links_beside(view, &on, v, x))
        }
        Head::Rel(u, a, b) => named(n, x, a, b, !links::look::linked(view, u, x, b.0)),
        Head::NoRel(u, a, b) => named(n, x, a, b, links::look::linked(view, u, x, b.0)),
        Head::Same(a, b) => named(n, x, a, b, !view.same(Item(x), b)),
        Head::Differ(a, b) => named(n, x, a, b, view.same(Item(x), b)),
        _ => row::pick::empty(),
    }
}

// Whether the rule is broken by pairs.
pub fn is_pair(head: Head) -> bool
    ensures { result ≡ is_pair head }
{
    !matches!(
        head,
        Head::Sub(_, _) | Head::Ref(_) | Head::Irr(_) | Head::In(_, _)
    )
}

// The places in the row of x where the rule is broken.
pub fn places(view: &View, plan: Plan, x: usize) -> Row
    requires { DeclaredItem view.now.counts x }
    ensures { Marks view.now.counts.items result (PlaceBreaks (held view.now) view.now.counts plan x) }
{
    if is_pair(plan.head) {
        return pair_row(view, plan.head, x);
    }
    let on = breaks_alone(view, plan.head, &plan.left, &plan.right, x);
    let mut r = row::pick::empty();
    row::pick::mark(&mut r, 0, on);
    r
}

// The left root of a rule: the number of its node, if it has one.
fn left_root(head: Head) -> Option<usize>
    ensures { result ≡ left_root head }
{
    match head {
        Head::Sub(a, _) | Head::In(a, _) => Some(a),
        _ => None,
    }
}

// The right root of a rule, in the same way.
fn right_root(head: Head) -> Option<usize>
    ensures { result ≡ right_root head }
{
    match head {
        Head::Sub(_, b) => Some(b),
        _ => None,
    }
}

// The items that a root holds of, by a rule's nodes; an empty row where there is none.
fn root_row(view: &View, nodes: &[Slot; Rule::NODES], root: Option<usize>) -> Row
    ensures { RootRow (held view.now) view.now.counts nodes.now root result }
{
    match root {
        None => row::pick::empty(),
        Some(a) => expression::holding::row_at(view, nodes, a, Rule::NODES),
    }
}

// The plan of a rule.
pub fn plan(view: &View, rule: &Rule) -> Plan
    ensures { Planned (held view.now) view.now.counts rule.now result }
{
    Plan {
        head: rule.head,
        left: root_row(view, &rule.nodes, left_root(rule.head)),
        right: root_row(view, &rule.nodes, right_root(rule.head)),
    }
}
