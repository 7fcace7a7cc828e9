ghost use Rattle.std.specs.Prelude.{◌≡◌};
ghost use Rattle.rule.specs.Form.{node_at};

use crate::{Node, Rule, Slot};
use store::Concept;

// The node at place i; past the last place the name of concept 0.
pub fn node_at(nodes: &[Slot; Rule::NODES], i: usize) -> Node
    ensures { result ≡ node_at nodes.now i }
{
    match nodes.get(i) {
        Some(slot) => slot.node,
        None => Node::Name(Concept(0)),
    }
}
