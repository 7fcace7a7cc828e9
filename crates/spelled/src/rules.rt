// Reads a rule from words.
ghost use Rattle.std.specs.Prelude.{◌+◌, ◌<◌, ◌≤◌, ◌≡◌};
ghost use Rattle.rule.specs.Form.{node_limit};
ghost use Rattle.spelled.specs.Rules.{chain_of, head_of, kind_of, node_of, node_words, nodes_below, role_use_at, rule_of, rule_words, word};

use crate::Spelled;
use rule::{Head, Node, RoleUse, Rule, Slot};
use store::{Concept, Item, Role};

// The word at place i, 0 past the end.
fn word_at(given: &[u64], i: usize) -> usize
    ensures { result ≡ word given.now i }
{
    given.get(i).map_or(0, |w| *w as usize)
}

// The role at word i, or its inverse if the next word is not 0.
fn role_use(given: &[u64], i: usize) -> RoleUse
    requires { i < rule_words }
    ensures { result ≡ role_use_at given.now i }
{
    RoleUse {
        role: Role(word_at(given, i)),
        inverse: word_at(given, i + 1) != 0,
    }
}

// The node whose words begin at word i; of an unknown kind one that is malformed.
// A kind is a number here: that is how C writes it.
#[tactic(auto, unfolding(crate::specs::Rules::node_of))]
fn node(given: &[u64], i: usize) -> Node
    requires { i + node_words ≤ rule_words }
    ensures { result ≡ node_of given.now i }
{
    let a = word_at(given, i + 1);
    let b = word_at(given, i + 2);
    match word_at(given, i) {
        0 => Node::Name(Concept(a)),
        1 => Node::Top,
        2 => Node::Not(a),
        3 => Node::And(a, b),
        4 => Node::AtLeast(a, role_use(given, i + 2), word_at(given, i + 4)),
        5 => Node::SelfOf(role_use(given, i + 1)),
        6 => Node::One(Item(a)),
        _ => Node::Not(0),
    }
}

// The head of a chain.
fn chain(given: &[u64]) -> Head
    ensures { result ≡ chain_of given.now }
{
    Head::Chain(
        word_at(given, 1),
        role_use(given, 2),
        role_use(given, 4),
        role_use(given, 6),
        role_use(given, 8),
        role_use(given, 10),
    )
}

// The head of a rule by its kind; of an unknown kind one without its roots.
// A kind is a number here: that is how C writes it.
#[tactic(auto, unfolding(crate::specs::Rules::kind_of))]
fn kind_head(given: &[u64]) -> Head
    ensures { result ≡ kind_of given.now }
{
    let a = word_at(given, 1);
    let b = word_at(given, 2);
    let c = Item(word_at(given, 3));
    let d = Item(word_at(given, 4));
    let r = role_use(given, 1);
    let s = role_use(given, 3);
    match word_at(given, 0) {
        0 => Head::Sub(a, b),
        1 => Head::RoleSub(r, s),
        2 => chain(given),
        3 => Head::Ref(r),
        4 => Head::Irr(r),
        5 => Head::Dis(r, s),
        6 => Head::In(a, Item(b)),
        7 => Head::Rel(r, c, d),
        8 => Head::NoRel(r, c, d),
        9 => Head::Same(Item(a), Item(b)),
        10 => Head::Differ(Item(a), Item(b)),
        _ => Head::Sub(Rule::NODES, Rule::NODES),
    }
}

// The head of a rule; words of another length have one without its roots.
#[tactic(auto, unfolding(crate::specs::Rules::head_of))]
fn head(given: &[u64]) -> Head
    ensures { result ≡ head_of given.now }
{
    if given.len() != Spelled::RULE {
        return Head::Sub(Rule::NODES, Rule::NODES);
    }
    kind_head(given)
}

// The nodes of a rule.
fn nodes(given: &[u64]) -> [Slot; Rule::NODES]
    ensures { result ≡ nodes_below given.now node_limit }
{
    std::array::from_fn(|i| Slot {
        node: node(given, Spelled::FIRST + Spelled::NODE * i),
    })
}

// The rule that the words say.
pub fn rule_of(given: &[u64]) -> Rule
    ensures { result ≡ rule_of given.now }
{
    Rule {
        head: head(given),
        len: word_at(given, Spelled::COUNT),
        nodes: nodes(given),
    }
}
