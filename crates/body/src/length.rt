// Lengths of queries, as far as one past the limit: with 32 nodes a length can pass 2^64.
ghost use Rattle.std.specs.Prelude.{◌≡◌, min, ◌+◌, ◌*◌, ◌-◌, ◌/◌, ◌≤◌};
ghost use Rattle.rule.specs.Expr.{expr_at};
ghost use Rattle.body.specs.Length.{item_limit};
ghost use Rattle.body.specs.own.Writing.{Capped, Long};

use crate::Body;
use rule::{Head, Node, Rule, Slot};

// A length, as far as one past the limit.
fn capped(n: usize) -> usize
    ensures { result ≡ min n (item_limit + 1) }
{
    n.min(Body::ITEMS + 1)
}

// The length of at least n, where c is that of its expression.
fn at_least(n: usize, c: usize) -> usize
    requires { c ≤ item_limit + 1 }
    ensures { result ≡ min (n * (1 + c) + 3 * (n * (n - 1)) / 2) (item_limit + 1) }
{
    if Body::ITEMS < n {
        return Body::ITEMS + 1;
    }
    capped(n * (1 + c) + 3 * (n * n.saturating_sub(1)) / 2)
}

// The number of items of the expression at a node. It reads `left` nodes deep.
#[tactic(auto, unfolding(rule::specs::Expr::expr_at))]
fn length_of(nodes: &[Slot; Rule::NODES], left: usize, at: usize) -> usize
    ensures { Capped (expr_at left nodes.now at) result }
{
    if left == 0 {
        return 0;
    }
    match rule::nodes::node_at(nodes, at) {
        Node::Top => 0,
        Node::Not(i) => capped(2 + length_of(nodes, left - 1, i)),
        Node::And(i, j) => capped(length_of(nodes, left - 1, i) + length_of(nodes, left - 1, j)),
        Node::AtLeast(n, _, i) => at_least(n, length_of(nodes, left - 1, i)),
        _ => 1,
    }
}

// The number of items of a rule's query.
#[tactic(auto, unfolding(crate::specs::Length::head_length))]
pub fn rule_length(head: Head, nodes: &[Slot; Rule::NODES]) -> usize
    ensures { Long nodes.now head result }
{
    match head {
        Head::Sub(c, d) => length_of(nodes, Rule::NODES, c) + 2 + length_of(nodes, Rule::NODES, d),
        Head::RoleSub(_, _) => 4,
        Head::Chain(k, _, _, _, _, _) => capped(k.saturating_add(3)),
        Head::Dis(_, _) => 2,
        Head::In(c, _) => 2 + length_of(nodes, Rule::NODES, c),
        Head::Ref(_) | Head::Rel(_, _, _) | Head::Same(_, _) => 3,
        Head::Irr(_) | Head::NoRel(_, _, _) | Head::Differ(_, _) => 1,
    }
}
