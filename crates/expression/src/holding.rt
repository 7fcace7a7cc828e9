ghost use Rattle.std.specs.Prelude.{◌≡◌, ◌*◌, ◌≤◌, length};
ghost use Rattle.row.specs.own.Row.{RowHas};
ghost use Rattle.row.specs.own.Pick.{Marks, room};
ghost use Rattle.store.specs.Cell.Cell.{Same, In};
ghost use Rattle.store.specs.own.View.{held};
ghost use Rattle.rule.specs.Expr.{expr_at};
ghost use Rattle.rule.specs.Meaning.{HoldsOf, Linked};

use row::Row;
use rule::{Node, RoleUse, Rule, Slot};
use store::view::View;
use store::{Concept, Item};

// The items of the concept c. A concept that is not declared has none.
fn named(view: &View, c: Concept) -> Row
    ensures { Marks view.now.counts.items result (λ x. held view.now (In x c.0)) }
{
    if view.counts.concepts <= c.0 {
        return row::pick::empty();
    }
    view.concept_row(c)
}

// The numbers below n that the row p has not.
fn others(n: usize, p: &Row) -> Row
    requires { n ≤ 64 * room }
    ensures { Marks n result (λ x. ¬ (RowHas p.now x)) }
{
    row::pick::without(&row::pick::below(n), p)
}

// The numbers below n that both rows have.
fn shared(n: usize, p: &Row, q: &Row) -> Row
    requires { n ≤ 64 * room }
    ensures { Marks n result (λ x. RowHas p.now x × RowHas q.now x) }
{
    row::pick::meet(&row::pick::below(n), &row::pick::meet(p, q))
}

// The items that the role, or its inverse, links to themselves.
fn selves(view: &View, u: RoleUse) -> Row
    ensures { Marks view.now.counts.items result (λ x. Linked (held view.now) u x x) }
{
    let mut r = row::pick::empty();
    for x in 0..view.counts.items {
        row::pick::mark(&mut r, x, links::look::linked(view, u, x, x));
    }
    r
}

// The items that are the same article as a. An item that is not declared is the same as none.
fn alike(view: &View, a: Item) -> Row
    ensures { Marks view.now.counts.items result (λ x. held view.now (Same x a.0)) }
{
    if view.counts.items <= a.0 {
        return row::pick::empty();
    }
    view.same_row(a)
}

// The items that the expression at a node holds of, as a row of bits. It reads `left` nodes deep, by one call for each child.
pub fn row_at(view: &View, nodes: &[Slot; Rule::NODES], node: usize, left: usize) -> Row
    ensures { Marks view.now.counts.items result (HoldsOf (held view.now) view.now.counts (expr_at left nodes.now node)) }
{
    if left == 0 {
        return row::pick::below(view.counts.items);
    }
    match rule::nodes::node_at(nodes, node) {
        Node::Name(c) => named(view, c),
        Node::Top => row::pick::below(view.counts.items),
        Node::Not(a) => others(view.counts.items, &row_at(view, nodes, a, left - 1)),
        Node::And(a, b) => {
            let p = row_at(view, nodes, a, left - 1);
            shared(view.counts.items, &p, &row_at(view, nodes, b, left - 1))
        }
        Node::AtLeast(k, u, a) => {
            crate::count::many(view, k, u, &row_at(view, nodes, a, left - 1))
        }
        Node::SelfOf(u) => selves(view, u),
        Node::One(a) => alike(view, a),
    }
}
