// The fields of a line: the words of a sheet, the names that it declares, and what can be due in a field.
#![tactic(auto)]

mod code;
pub mod known;
pub mod names;
pub mod tables;
pub mod words;

use rule::Rule;
use store::Store;

// The words of concept expressions.
#[derive(Clone, Copy)]
pub enum Operator {
    And,
    Or,
    Not,
    Some,
    All,
    AtLeast,
    AtMost,
    SelfOf,
    One,
    Top,
    Bot,
}

// The words of statements.
#[derive(Clone, Copy)]
pub enum StatementWord {
    In,
    Rel,
    Same,
    Under,
    RoleUnder,
}

// The words of rules.
#[derive(Clone, Copy)]
pub enum RuleWord {
    Sub,
    RoleSub,
    Chain,
    Ref,
    Irr,
    Dis,
    In,
    Rel,
    NoRel,
    Same,
    Differ,
}

// What a line is, by its word.
#[derive(Clone, Copy)]
pub enum Form {
    // A declaration of a concept, a role or an item.
    Concept,
    Role,
    Item,
    Statement(StatementWord),
    Rule(RuleWord),
    // The word `rule` alone.
    Bare,
    // A word that is none of these.
    Unknown,
}

// The sections of a sheet, in their order.
#[derive(Clone, Copy)]
pub enum Section {
    Declarations,
    Statements,
    Rules,
}

// What is due in a field.
#[derive(Clone, Copy)]
pub enum Due {
    // A name to be declared.
    NewConcept,
    NewRole,
    NewItem,
    // A name that is declared.
    Concept,
    Role,
    Item,
    // The same, or the inverse of the role.
    RoleUse,
    // The count of an at least, of an at most.
    AtLeast,
    AtMost,
    // A word of an expression, or a concept.
    Expr,
    // No field: what an unknown word has in the place of its one field.
    Nothing,
}

// What is due in the fields of a line, as many as a list of them has.
#[derive(Clone, Copy)]
pub struct Lineup {}

impl Lineup {
    // The most fields.
    pub const MOST: usize = 5;
    // The fewest and the most roles of a chain: those of its path, and the one that the path is under.
    pub const CHAIN_SHORTEST: usize = Rule::SHORTEST + 1;

    pub const CHAIN_LONGEST: usize = Rule::LONGEST + 1;
}

// The numbers lent for the names of a sheet: first the hints, which say where to look for a name first; then for each name an entry, which holds its tag (made of its last two bytes), its place in the sheet and its length. All but the items are as many in every table, so the items come last.
#[derive(Drop)]
pub struct Table {}

impl Table {
    // How many hints there are.
    pub const KEYS: usize = 1024;
    // Where the number of items stands that the sheet's edition has room for.
    pub const ROOM: usize = Table::KEYS;
    // Where the entries of concepts, of roles and of items begin.
    pub const CONCEPTS: usize = Table::ROOM + 1;

    pub const ROLES: usize = Table::CONCEPTS + Store::CONCEPTS;

    pub const ITEMS: usize = Table::ROLES + Store::ROLES;
    // How many numbers there are in all, for the items of the smaller store and for those of the larger.
    pub const NUMBERS: usize = Table::ITEMS + Store::ITEMS;

    pub const LARGE_NUMBERS: usize = Table::ITEMS + Store::LARGE_ITEMS;
    // How many tags there are.
    pub const TAGS: u32 = 2048;
    // How many places in a sheet an entry can tell.
    pub const PLACES: u32 = 65536;
    // How many lengths of names an entry can tell.
    pub const LENGTHS: u32 = 32;
    // How many entries have the same tag.
    pub const TAGGED: u32 = Table::PLACES * Table::LENGTHS;
}
