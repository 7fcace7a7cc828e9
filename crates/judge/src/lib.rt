// What breaks a rule in a closed store: findings are counted, and sought one after another. `count` is the entry point.
#![tactic(auto)]

mod findings;
pub mod seek;

ghost use Rattle.store.specs.Layout.{width_of};
ghost use Rattle.judge.specs.Promise.{Totals};

use breach::Plan;
use refusal::Numbered;
use row::Row;
use rule::{Finding, Rule};
use store::{Counts, Layout};

// Why a rule is refused.
#[derive(Clone, Copy)]
pub enum RuleRefusal {
    // The store is not as long as it must be, or a declared count is over its limit: 1.
    Size,
    // The store is not closed: 2.
    NotClosed,
    // The rule is malformed: 3.
    Malformed,
    // An item, concept or role number is not below its count: 4.
    Number,
}

impl Numbered for RuleRefusal {
    ghost use Rattle.judge.specs.Promise.{number};

    ghost number = { number };

    fn number(self) -> u8 {
        match self {
            RuleRefusal::Size => 1,
            RuleRefusal::NotClosed => 2,
            RuleRefusal::Malformed => 3,
            RuleRefusal::Number => 4,
        }
    }
}

// Where the findings are: the plan, the places that are left in the row of x, and the least of them, y. At the end x is the number of items.
#[derive(Clone, Copy)]
pub struct Cursor {
    pub plan: Plan,
    pub row: Row,
    pub x: usize,
    pub y: usize,
}

// A search for findings that a writer steps: the finding at hand, the cursor there, and what it reads the store by.
#[derive(Clone, Copy)]
pub struct Search {
    pub finding: Finding,
    pub cursor: Cursor,
    pub at: Layout,
    pub counts: Counts,
}

// What a listing needs: its answer, how many findings to write, and the search at the first.
#[derive(Clone, Copy)]
pub struct Prepared {
    pub answer: Result<u64, RuleRefusal>,
    pub write: usize,
    pub search: Search,
}

// How many findings the rule has in the store.
pub fn count(words: &[u64], counts: Counts, rule: Rule) -> Result<u64, RuleRefusal>
    ensures { Totals (width_of words.now) counts rule words.now result }
{
    let p = seek::prepare(words, counts, 0, rule, 0);
    p.answer
}
