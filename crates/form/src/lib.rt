// The form of a rule by number: refusals 3 and 4.
#![tactic(auto)]

ghost use Rattle.std.specs.Prelude.{◌≡◌, ℕ, ◌+◌, ◌<◌, ◌≤◌};
ghost use Rattle.logic.specs.own.Decides.{Decides};
ghost use Rattle.store.specs.Cell.{DeclaredItem, DeclaredRole};
ghost use Rattle.rule.specs.Form.{node_limit, node_at, uses, uses_below, root_uses, HeadFits, UsesLater, CountFits, WellFormed, NodeWithin, HeadWithin, RuleWithin};

use rule::{Head, Node, RoleUse, Rule};
use store::{Counts, Item};

// How often a node uses node j.
fn used_by(node: Node, j: usize) -> usize
    ensures { (result ≡ uses node j) × (result ≤ 2) }
{
    match node {
        Node::Not(a) | Node::AtLeast(_, _, a) => usize::from(a == j),
        Node::And(a, b) => usize::from(a == j) + usize::from(b == j),
        _ => 0,
    }
}

// How often the rule's nodes use node j.
fn used(rule: &Rule, j: usize) -> usize
    requires { rule.now.len ≤ node_limit }
    ensures { (result ≡ uses_below rule.now.nodes j rule.now.len) × (result ≤ node_limit + node_limit) }
{
    let mut n = 0;
    for i in 0..rule.len {
        n += used_by(rule::nodes::node_at(&rule.nodes, i), j);
    }
    n
}

// How often node j is a root.
fn root_uses(head: Head, j: usize) -> usize
    ensures { (result ≡ root_uses head j) × (result ≤ 2) }
{
    match head {
        Head::Sub(a, b) => usize::from(a == j) + usize::from(b == j),
        Head::In(a, _) => usize::from(a == j),
        _ => 0,
    }
}

// Whether every node is used exactly once in all.
fn once(rule: &Rule) -> bool
    requires { rule.now.len ≤ node_limit }
    ensures { Decides result ((j : ℕ) → j < rule.now.len → root_uses rule.now.head j + uses_below rule.now.nodes j rule.now.len ≡ 1) }
{
    (0..rule.len).all(|j| root_uses(rule.head, j) + used(rule, j) == 1)
}

// Whether b lies between a and n.
fn between(a: usize, b: usize, n: usize) -> bool
    ensures { Decides result ((a < b) × (b < n)) }
{
    a < b && b < n
}

// Whether node i uses nodes that are there and come after it.
fn later(node: Node, i: usize, len: usize) -> bool
    ensures { Decides result (UsesLater len i node) }
{
    match node {
        Node::Not(a) | Node::AtLeast(_, _, a) => between(i, a, len),
        Node::And(a, b) => between(i, a, len) && between(i, b, len),
        _ => true,
    }
}

// Whether a node's count is 1 to the largest.
fn count_fits(node: Node) -> bool
    ensures { Decides result (CountFits node) }
{
    match node {
        Node::AtLeast(n, _, _) => (1..=Rule::COUNT).contains(&n),
        _ => true,
    }
}

// Whether every node uses later nodes that are there.
fn all_later(rule: &Rule) -> bool
    ensures { Decides result ((i : ℕ) → i < rule.now.len → UsesLater rule.now.len i (node_at rule.now.nodes i)) }
{
    (0..rule.len).all(|i| later(rule::nodes::node_at(&rule.nodes, i), i, rule.len))
}

// Whether every node's count fits.
fn counts_fit(rule: &Rule) -> bool
    ensures { Decides result ((i : ℕ) → i < rule.now.len → CountFits (node_at rule.now.nodes i)) }
{
    (0..rule.len).all(|i| count_fits(rule::nodes::node_at(&rule.nodes, i)))
}

// Whether the roots are there and a chain has a path of a right length.
fn head_fits(head: Head, len: usize) -> bool
    ensures { Decides result (HeadFits len head) }
{
    match head {
        Head::Sub(a, b) => a < len && b < len,
        Head::Chain(k, _, _, _, _, _) => (Rule::SHORTEST..=Rule::LONGEST).contains(&k),
        Head::In(a, _) => a < len,
        _ => true,
    }
}

// Whether the rule is well formed: refusal 3 is for the others.
pub fn well_formed(rule: &Rule) -> bool
    ensures { Decides result (WellFormed rule.now) }
{
    rule.len <= Rule::NODES
        && head_fits(rule.head, rule.len)
        && all_later(rule)
        && counts_fit(rule)
        && once(rule)
}

// Whether the role is declared.
fn role_within(counts: Counts, u: RoleUse) -> bool
    ensures { Decides result (DeclaredRole counts u.role.0) }
{
    u.role.0 < counts.roles
}

// Whether both roles are declared.
fn roles_within(counts: Counts, u: RoleUse, v: RoleUse) -> bool
    ensures { Decides result (DeclaredRole counts u.role.0 × DeclaredRole counts v.role.0) }
{
    role_within(counts, u) && role_within(counts, v)
}

// Whether both items are declared.
fn items_within(counts: Counts, a: Item, b: Item) -> bool
    ensures { Decides result (DeclaredItem counts a.0 × DeclaredItem counts b.0) }
{
    a.0 < counts.items && b.0 < counts.items
}

// Whether the role and both items are declared.
fn link_within(counts: Counts, u: RoleUse, a: Item, b: Item) -> bool
    ensures { Decides result (DeclaredRole counts u.role.0 × DeclaredItem counts a.0 × DeclaredItem counts b.0) }
{
    role_within(counts, u) && items_within(counts, a, b)
}

// Whether the role at a place of a path of k roles is declared; a role at k or later does not count.
fn step_within(counts: Counts, place: usize, k: usize, u: RoleUse) -> bool
    ensures { Decides result (place < k → DeclaredRole counts u.role.0) }
{
    k <= place || role_within(counts, u)
}

// Whether the roles of a path of k roles and the last role are declared.
// Kept as four parameters: Head::Chain has four fields and HeadWithin names each, so an array would be built here only to be read at four fixed places.
fn chain_within(
    counts: Counts,
    k: usize,
    a: RoleUse,
    b: RoleUse,
    c: RoleUse,
    d: RoleUse,
    u: RoleUse,
) -> bool
    ensures { Decides result (HeadWithin counts (Head.Chain k a b c d u)) }
{
    step_within(counts, 0, k, a)
        && step_within(counts, 1, k, b)
        && step_within(counts, 2, k, c)
        && step_within(counts, 3, k, d)
        && role_within(counts, u)
}

// Whether the numbers of a head are below their counts.
fn head_within(counts: Counts, head: Head) -> bool
    ensures { Decides result (HeadWithin counts head) }
{
    match head {
        Head::Sub(_, _) => true,
        Head::RoleSub(u, v) | Head::Dis(u, v) => roles_within(counts, u, v),
        Head::Chain(k, a, b, c, d, u) => chain_within(counts, k, a, b, c, d, u),
        Head::Ref(u) | Head::Irr(u) => role_within(counts, u),
        Head::In(_, a) => a.0 < counts.items,
        Head::Rel(u, a, b) | Head::NoRel(u, a, b) => link_within(counts, u, a, b),
        Head::Same(a, b) | Head::Differ(a, b) => items_within(counts, a, b),
    }
}

// Whether the numbers of a node are below their counts.
fn node_within(counts: Counts, node: Node) -> bool
    ensures { Decides result (NodeWithin counts node) }
{
    match node {
        Node::Name(c) => c.0 < counts.concepts,
        Node::AtLeast(_, u, _) | Node::SelfOf(u) => role_within(counts, u),
        Node::One(a) => a.0 < counts.items,
        _ => true,
    }
}

// Whether the numbers of every node are below their counts.
fn nodes_within(counts: Counts, rule: &Rule) -> bool
    ensures { Decides result ((i : ℕ) → i < rule.now.len → NodeWithin counts (node_at rule.now.nodes i)) }
{
    (0..rule.len).all(|i| node_within(counts, rule::nodes::node_at(&rule.nodes, i)))
}

// Whether the numbers of a rule are below their counts: refusal 4 is for the others.
pub fn rule_within(counts: Counts, rule: &Rule) -> bool
    ensures { Decides result (RuleWithin counts rule.now) }
{
    head_within(counts, rule.head) && nodes_within(counts, rule)
}
