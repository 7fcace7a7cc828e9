ghost use Rattle.std.specs.Prelude.{◌≡◌, [], ◌∷◌, ◌+◌, ◌≤◌, ◌<◌, length, drop};
ghost use Rattle.rule.specs.Form.{node_limit};
ghost use Rattle.field.specs.Names.{count_of, nodes_of};
ghost use Rattle.field.specs.Words.{at as field_of};
ghost use Rattle.field.specs.own.Known.{fields_in, names_in};
ghost use Rattle.saying.specs.own.Nodes.{Joined, PutAll, ReadsOne, Ready, children_of, fill_and, head_fields, head_nodes};

use crate::Parsed;
use field::Operator;
use field::known::{Fields, Known};
use rule::{Node, RoleUse, Rule, Slot};
use stated::numbers;

// One node more; gives how many there are.
fn put(nodes: &mut [Slot; Rule::NODES], len: usize, node: Node) -> usize
    requires { len < node_limit }
    ensures { PutAll nodes.old len (node ∷ []) nodes.new result }
{
    nodes[len] = Slot { node };
    len + 1
}

// Two nodes more.
fn put_two(nodes: &mut [Slot; Rule::NODES], len: usize, a: Node, b: Node) -> usize
    requires { len + 2 ≤ node_limit }
    ensures { PutAll nodes.old len (a ∷ b ∷ []) nodes.new result }
{
    let n = put(nodes, len, a);
    put(nodes, n, b)
}

// Three nodes more.
fn put_three(nodes: &mut [Slot; Rule::NODES], len: usize, a: Node, b: Node, c: Node) -> usize
    requires { len + 3 ≤ node_limit }
    ensures { PutAll nodes.old len (a ∷ b ∷ c ∷ []) nodes.new result }
{
    let n = put_two(nodes, len, a, b);
    put(nodes, n, c)
}

// How many fields a word takes with it, itself counted.
fn head_fields(o: Option<Operator>) -> usize
    ensures { result ≡ head_fields o }
{
    match o {
        Some(Operator::AtLeast | Operator::AtMost) => 3,
        Some(Operator::Some | Operator::All | Operator::SelfOf | Operator::One) => 2,
        _ => 1,
    }
}

// The nodes of `or`, written after the first i; gives how many there are then.
fn put_or(nodes: &mut [Slot; Rule::NODES], i: usize) -> usize
    requires { i + 3 ≤ node_limit }
    ensures { PutAll nodes.old i (Node.Not (i + 1) ∷ Node.And (i + 2) 0 ∷ Node.Not (i + 3) ∷ []) nodes.new result }
{
    put_three(
        nodes,
        i,
        Node::Not(i + 1),
        Node::And(i + 2, 0),
        Node::Not(i + 3),
    )
}

// The nodes of `all` with the role u.
fn put_every(nodes: &mut [Slot; Rule::NODES], i: usize, u: RoleUse) -> usize
    requires { i + 3 ≤ node_limit }
    ensures { PutAll nodes.old i (Node.Not (i + 1) ∷ Node.AtLeast 1 u (i + 2) ∷ Node.Not (i + 3) ∷ []) nodes.new result }
{
    put_three(
        nodes,
        i,
        Node::Not(i + 1),
        Node::AtLeast(1, u, i + 2),
        Node::Not(i + 3),
    )
}

// The count that the field with the number k says, or 255.
fn count(fields: &Fields, k: usize) -> usize
    ensures { (result ≡ count_of (field_of k (fields_in fields.now))) × (result ≤ 255) }
{
    field::names::count(numbers::nth(fields, k))
}

// The nodes that a word stands for, written after the first i; gives how many there are then. The word is the field with the number k.
fn put_head(
    known: &Known,
    fields: &Fields,
    nodes: &mut [Slot; Rule::NODES],
    i: usize,
    k: usize,
    o: Option<Operator>,
) -> usize
    requires { (i + nodes_of o ≤ node_limit) × (k < length fields.now.ends.now) }
    ensures { PutAll nodes.old i (head_nodes (names_in known.now) o i (drop k (fields_in fields.now))) nodes.new result }
{
    match o {
        Some(Operator::And) => put(nodes, i, Node::And(i + 1, 0)),
        Some(Operator::Or) => put_or(nodes, i),
        Some(Operator::Not) => put(nodes, i, Node::Not(i + 1)),
        Some(Operator::Some) => {
            let u = numbers::role_use(known, fields, k + 1);
            put(nodes, i, Node::AtLeast(1, u, i + 1))
        }
        Some(Operator::All) => put_every(nodes, i, numbers::role_use(known, fields, k + 1)),
        Some(Operator::AtLeast) => {
            let u = numbers::role_use(known, fields, k + 2);
            put(nodes, i, Node::AtLeast(count(fields, k + 1), u, i + 1))
        }
        Some(Operator::AtMost) => {
            let u = numbers::role_use(known, fields, k + 2);
            let more = Node::AtLeast(count(fields, k + 1) + 1, u, i + 2);
            put_two(nodes, i, Node::Not(i + 1), more)
        }
        Some(Operator::SelfOf) => put(
            nodes,
            i,
            Node::SelfOf(numbers::role_use(known, fields, k + 1)),
        ),
        Some(Operator::One) => put(nodes, i, Node::One(numbers::item(known, fields, k + 1))),
        Some(Operator::Top) => put(nodes, i, Node::Top),
        Some(Operator::Bot) => put_two(nodes, i, Node::Not(i + 1), Node::Top),
        None => put(nodes, i, Node::Name(numbers::concept(known, fields, k))),
    }
}

// How many expressions a word wants.
fn children(o: Option<Operator>) -> usize
    ensures { result ≡ children_of o }
{
    match o {
        Some(Operator::And | Operator::Or) => 2,
        Some(Operator::SelfOf | Operator::One | Operator::Top | Operator::Bot) | None => 0,
        _ => 1,
    }
}

// The `and` at a place gets its second child: the next node.
fn fill_and(nodes: &mut [Slot; Rule::NODES], i: usize, len: usize)
    requires { i < node_limit }
    ensures { nodes.new ≡ fill_and nodes.old i len }
{
    nodes[i] = Slot {
        node: Node::And(i + 1, len),
    };
}

// What stands before the nodes of the second child of a word whose nodes begin at a place; gives how many nodes there are then.
fn join(o: Option<Operator>, nodes: &mut [Slot; Rule::NODES], i: usize, len: usize) -> usize
    requires { (i + 1 < node_limit) × (len < node_limit) }
    ensures { Joined o nodes.old i len nodes.new result }
{
    match o {
        Some(Operator::And) => {
            fill_and(nodes, i, len);
            len
        }
        Some(Operator::Or) => {
            fill_and(nodes, i + 1, len);
            put(nodes, len, Node::Not(len + 1))
        }
        _ => len,
    }
}

// Reads the expression that begins at the field p.at, of at most `left` words in depth, and writes its nodes after the first p.len.
pub fn read_expr(
    known: &Known,
    fields: &Fields,
    nodes: &mut [Slot; Rule::NODES],
    p: Parsed,
    left: usize,
) -> Parsed
    requires { Ready (drop p.at (fields_in fields.now)) p.len left }
    ensures { ReadsOne (names_in known.now) (fields_in fields.now) left p nodes.old nodes.new result }
{
    if left == 0 {
        return p;
    }
    let o = field::words::operator(numbers::nth(fields, p.at));
    let len = put_head(known, fields, nodes, p.len, p.at, o);
    let word = Parsed {
        len,
        at: p.at + head_fields(o),
    };
    let k = children(o);
    if k == 0 {
        return word;
    }
    let first = read_expr(known, fields, nodes, word, left - 1);
    if k == 1 {
        return first;
    }
    let second = Parsed {
        len: join(o, nodes, p.len, first.len),
        at: first.at,
    };
    read_expr(known, fields, nodes, second, left - 1)
}
