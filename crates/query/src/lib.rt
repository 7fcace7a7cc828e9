// Queries: a rule compiled to query items.
#![tactic(auto)]

mod compile;

use refusal::Numbered;

// What compiles a rule.
#[derive(Drop)]
pub struct Query {}

// Why a rule is not compiled.
#[derive(Clone, Copy)]
pub enum QueryRefusal {
    // A declared count is over its limit: 1.
    Size,
    // The rule is malformed: 3.
    Malformed,
    // An item, concept or role number is not below its count: 4.
    Number,
    // The query is longer than the most items: 5.
    Long,
    // The room has under four words for each item: 6.
    Room,
}

impl Numbered for QueryRefusal {
    ghost use Rattle.query.specs.Promise.{number};

    ghost number = { number };

    fn number(self) -> u8 {
        match self {
            QueryRefusal::Size => 1,
            QueryRefusal::Malformed => 3,
            QueryRefusal::Number => 4,
            QueryRefusal::Long => 5,
            QueryRefusal::Room => 6,
        }
    }
}

// The number of items of a query and of its answer variables.
#[derive(Clone, Copy)]
pub struct Compiled {
    pub items: usize,
    pub answers: usize,
}
