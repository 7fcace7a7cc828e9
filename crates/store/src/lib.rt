// The store: its words, which cells they hold, and what follows from what. It knows how to look cells up, and changes nothing.
#![tactic(auto)]

pub mod look;
pub mod role_word;
pub mod size;
pub mod view;

// The number of an item.
#[derive(Clone, Copy)]
pub struct Item(pub usize);

// The number of a concept, a part family.
#[derive(Clone, Copy)]
pub struct Concept(pub usize);

// The number of a role, a kind of link.
#[derive(Clone, Copy)]
pub struct Role(pub usize);

// How many items, concepts and roles are declared.
#[derive(Clone, Copy)]
pub struct Counts {
    pub items: usize,
    pub concepts: usize,
    pub roles: usize,
}

// A statement: one of the five kinds.
#[derive(Clone, Copy)]
pub enum Statement {
    // The two items are the same article.
    Same(Item, Item),
    // The first concept is under the second.
    Under(Concept, Concept),
    // The first role is under the second; under its inverse, if the flag is set.
    RoleUnder(Role, bool, Role),
    // The item is in the concept.
    In(Item, Concept),
    // The role links the first item to the second.
    Link(Role, Item, Item),
}

// Where the parts of a store begin, the part of "same" at 0: concepts, roles, items in concepts, links; and the words of an item row.
#[derive(Clone, Copy)]
pub struct Layout {
    pub width: usize,
    pub under: usize,
    pub role: usize,
    pub item: usize,
    pub link: usize,
}

// The store of words that a caller lends.
#[derive(Drop)]
pub struct Store {}

impl Store {
    // The words of an item row, in the smaller store and in the larger.
    pub const SMALL: usize = 2;

    pub const LARGE: usize = 8;
    // The most items of either.
    pub const ITEMS: usize = 64 * Store::SMALL;

    pub const LARGE_ITEMS: usize = 64 * Store::LARGE;
    // The most concepts.
    pub const CONCEPTS: usize = 32;
    // The most roles.
    pub const ROLES: usize = 16;
    // The words of either store.
    pub const WORDS: usize = 4528;

    pub const LARGE_WORDS: usize = 70192;
}

// A role's word: a bit for each plain step, then one for each step to the inverse.
#[derive(Drop)]
pub struct RoleWord {}

impl RoleWord {
    // Where the steps to the inverse begin.
    pub const SIDE: u64 = Store::ROLES as u64;
    // One more than the largest half.
    pub const HALF: u64 = 1 << RoleWord::SIDE;
}
