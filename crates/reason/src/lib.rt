// Why a cell follows: of statements kept as numbers, some from which it follows, and from no part of them with one taken out. Knows nothing of sheets.
#![tactic(auto)]

mod choose;
pub mod code;
mod facts;
pub mod marks;
mod reach;
mod seek;
mod table;

ghost use Rattle.store.specs.Cell.{cell_of};
ghost use Rattle.reason.specs.own.Aim.{plain_goal};
ghost use Rattle.reason.specs.own.Promise.{Reasoned, Sought};
ghost use Rattle.reason.specs.own.Seek.{Narrowest, Wanted};

use store::{Concept, Counts, Item, Role, Statement};

// The statements that are searched.
#[derive(Drop)]
pub struct Lines {}

impl Lines {
    // The most statements.
    pub const MOST: usize = 6592;
    // The words of marks on them, a bit for each.
    pub const WORDS: usize = 103;
    // The places between which steps lead from concept to concept, or from role to role.
    pub const ABOVE: usize = 48;
    // The words of a row in a table of such steps.
    pub const ABOVE_WIDTH: usize = 1;
    // The words of such a table.
    pub const ABOVE_WORDS: usize = 64;
}

// What steps are about: items that are the same, concepts that are under others, roles that are under others or their inverses.
#[derive(Clone, Copy)]
pub enum Kind {
    Same,
    Under,
    Role,
}

// A way: steps have to lead from a to b, and from c to d.
#[derive(Clone, Copy)]
pub struct Way {
    pub a: usize,
    pub b: usize,
    pub c: usize,
    pub d: usize,
}

// What is sought: one of two ways, as far as they are open.
#[derive(Clone, Copy)]
pub struct Goal {
    pub one: Option<Way>,
    pub other: Option<Way>,
}

// The steps that a statement states: from a to b, and from c to d.
#[derive(Clone, Copy)]
pub struct Steps {
    pub a: usize,
    pub b: usize,
    pub c: usize,
    pub d: usize,
}

// A fact: an item in a concept, or a link from one item to another.
#[derive(Clone, Copy)]
pub enum Fact {
    Member(Item, Concept),
    Link(Role, Item, Item),
}

// A way from one fact to another: from the concept or the role `from` to `to`, and between the items `ends`.
#[derive(Clone, Copy)]
pub struct Route {
    pub from: usize,
    pub to: usize,
    pub ends: Way,
}

// Marks steps of a kind by which y is reached from x.
fn by_steps(
    codes: &[u32],
    kind: Kind,
    nodes: usize,
    x: usize,
    y: usize,
    t: &mut [u64],
    width: usize,
    marks: &mut [u64; Lines::WORDS],
)
    requires { Wanted width kind nodes (plain_goal x y) codes.now t.old marks.old }
    ensures { Narrowest kind (plain_goal x y) codes.now marks.new }
{
    let way = Way {
        a: x,
        b: y,
        c: x,
        d: y,
    };
    let goal = Goal {
        one: Some(way),
        other: None,
    };
    crate::seek::narrow(codes, kind, nodes, goal, t, width, marks);
}

// Marks a reason for the cell that `goal` states: statements from which it follows, and from no part of them with one taken out. The words lent have room for a row of `width` words for each item.
pub fn explain(
    codes: &[u32],
    counts: Counts,
    goal: Statement,
    table: &mut [u64],
    width: usize,
    marks: &mut [u64; Lines::WORDS],
)
    requires { Sought width counts (cell_of goal) codes.now table.old marks.old }
    ensures { Reasoned counts (cell_of goal) codes.now marks.new }
{
    let items = counts.items;
    let above = Lines::ABOVE;
    let one = Lines::ABOVE_WIDTH;
    match goal {
        Statement::Same(a, b) => {
            by_steps(codes, Kind::Same, items, a.0, b.0, table, width, marks)
        }
        Statement::Under(a, b) => {
            by_steps(codes, Kind::Under, above, a.0, b.0, table, one, marks)
        }
        Statement::RoleUnder(r, u, s) => {
            let y = crate::reach::role_place(u, s.0);
            by_steps(codes, Kind::Role, above, r.0, y, table, one, marks)
        }
        Statement::In(a, b) => {
            let g = Fact::Member(a, b);
            crate::choose::by_fact(codes, counts, g, table, width, marks)
        }
        Statement::Link(r, a, b) => {
            let g = Fact::Link(r, a, b);
            crate::choose::by_fact(codes, counts, g, table, width, marks)
        }
    }
}
