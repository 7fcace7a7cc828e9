// Rules by number: what they are, what they mean, and what breaks them. Nothing here reads a store.
#![tactic(auto)]

pub mod nodes;

use store::{Concept, Item, Role};

// A role, or its inverse.
#[derive(Clone, Copy)]
pub struct RoleUse {
    pub role: Role,
    pub inverse: bool,
}

// A node of a concept expression. A usize is the number of a child's node.
#[derive(Clone, Copy)]
pub enum Node {
    // The concept of that name.
    Name(Concept),
    // Every item.
    Top,
    // What the child does not hold of.
    Not(usize),
    // What both children hold of.
    And(usize, usize),
    // What is linked to at least so many different articles that the child holds of.
    AtLeast(usize, RoleUse, usize),
    // What is linked to itself.
    SelfOf(RoleUse),
    // What is the same as the item.
    One(Item),
}

// A place for a node.
#[derive(Clone, Copy)]
pub struct Slot {
    pub node: Node,
}

// The rule's word and its fields. A usize is the number of a root's node.
#[derive(Clone, Copy)]
pub enum Head {
    Sub(usize, usize),
    RoleSub(RoleUse, RoleUse),
    // The number of roles of the path, then four of which the first ones count, then the last role.
    Chain(usize, RoleUse, RoleUse, RoleUse, RoleUse, RoleUse),
    Ref(RoleUse),
    Irr(RoleUse),
    Dis(RoleUse, RoleUse),
    In(usize, Item),
    Rel(RoleUse, Item, Item),
    NoRel(RoleUse, Item, Item),
    Same(Item, Item),
    Differ(Item, Item),
}

// A rule by number: its head, how many nodes it has, and the nodes.
#[derive(Clone, Copy)]
pub struct Rule {
    pub head: Head,
    pub len: usize,
    pub nodes: [Slot; Rule::NODES],
}

impl Rule {
    // The most nodes of a rule.
    pub const NODES: usize = 32;
    // The largest count of an at least.
    pub const COUNT: usize = 8;
    // The fewest and the most roles of a chain's path.
    pub const SHORTEST: usize = 2;

    pub const LONGEST: usize = 4;
}

// What breaks a rule: the rule's number, an item, and a second item or none.
#[derive(Clone, Copy)]
pub struct Finding {
    pub rule: usize,
    pub item: Item,
    pub second: Option<Item>,
}
