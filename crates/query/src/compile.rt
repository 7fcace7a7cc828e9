// Compiling a rule by number to a query.
ghost use Rattle.std.specs.Prelude.{◌≡◌};
ghost use Rattle.store.specs.Layout.{large};
ghost use Rattle.body.specs.Translation.{answers_of};
ghost use Rattle.query.specs.Promise.{Compiles};
ghost use Rattle.query.specs.own.Filling.{Filled, Spacious};

use crate::{Compiled, Query, QueryRefusal};
use body::write::term;
use body::{Body, Cursor};
use rule::{Head, Rule, Slot};
use store::{Counts, Store};

// The number of answer variables of a rule's query.
fn answers_of(head: Head) -> usize
    ensures { result ≡ answers_of head }
{
    match head {
        Head::RoleSub(_, _) | Head::Chain(_, _, _, _, _, _) | Head::Dis(_, _) => 2,
        Head::Sub(_, _) | Head::Ref(_) | Head::Irr(_) => 1,
        _ => 0,
    }
}

// The cursor at the start of a query with so many answer variables, which come first.
fn start(next: u16) -> Cursor
    ensures { result ≡ record { next = next; place = 0 } }
{
    Cursor { next, place: 0 }
}

// Writes the query of a rule from the start of the room, and says where it ends.
#[tactic(auto, unfolding(body::specs::Length::head_length, body::specs::Translation::body_of))]
fn fill(head: Head, nodes: &[Slot; Rule::NODES], room: &mut [u16]) -> Cursor
    requires { Spacious room.old nodes.now head }
    ensures { Filled room.old room.new nodes.now head }
{
    match head {
        Head::Sub(c, d) => start(1)
            .expr(nodes, Rule::NODES, c, 0, room)
            .open_not(room)
            .expr(nodes, Rule::NODES, d, 0, room)
            .close_not(room),
        Head::RoleSub(u, v) => start(2).link(room, u, 0, 1).unlinked(room, v, 0, 1),
        Head::Chain(k, a, b, c, d, u) => start(2)
            .path(room, &[a, b, c, d][..k], 0)
            .unlinked(room, u, 0, 1),
        Head::Ref(u) => start(1).unlinked(room, u, 0, 0),
        Head::Irr(u) => start(1).link(room, u, 0, 0),
        Head::Dis(u, v) => start(2).link(room, u, 0, 1).link(room, v, 0, 1),
        Head::In(c, a) => start(0)
            .open_not(room)
            .expr(nodes, Rule::NODES, c, term(a), room)
            .close_not(room),
        Head::Rel(u, a, b) => start(0).unlinked(room, u, term(a), term(b)),
        Head::NoRel(u, a, b) => start(0).link(room, u, term(a), term(b)),
        Head::Same(a, b) => start(0).unequal(room, term(a), term(b)),
        Head::Differ(a, b) => start(0).equal(room, term(a), term(b)),
    }
}

impl Query {
    // Compiles a rule: writes its query from the start of the room, and says how long it is and how many answer variables it has.
    pub fn compile(counts: Counts, rule: &Rule, room: &mut [u16]) -> Result<Compiled, QueryRefusal>
        ensures { Compiles large counts rule.now room.old room.new result }
    {
        if !store::size::fits(Store::LARGE, counts) {
            return Err(QueryRefusal::Size);
        }
        if !form::well_formed(rule) {
            return Err(QueryRefusal::Malformed);
        }
        if !form::rule_within(counts, rule) {
            return Err(QueryRefusal::Number);
        }
        let n = body::length::rule_length(rule.head, &rule.nodes);
        if Body::ITEMS < n {
            return Err(QueryRefusal::Long);
        }
        if room.len() < Body::WORDS * n {
            return Err(QueryRefusal::Room);
        }
        fill(rule.head, &rule.nodes, room);
        let query = Compiled {
            items: n,
            answers: answers_of(rule.head),
        };
        Ok(query)
    }
}
