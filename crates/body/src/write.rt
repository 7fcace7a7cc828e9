// Writing query items: a cursor that each function hands back. Recursion goes down the nodes, with the nodes left as the falling number.
ghost use Rattle.std.specs.Prelude.{◌≡◌, ◌∷◌, [], ◌+◌, ◌≤◌, ◌<◌, length};
ghost use Rattle.rule.specs.Expr.{expr_at};
ghost use Rattle.body.specs.Body.{first_item, eq, flat, atom, end};
ghost use Rattle.body.specs.Translation.{link, without};
ghost use Rattle.body.specs.own.Writing.{word_of, Wrote, RoomFor, Roomy, Written, RoomyTurns, Turned, RoomyApart, Parted, RoomyPairs, Paired, RoomyPath, Pathed};

use crate::{Body, Cursor, Kind};
use rule::{Node, RoleUse, Rule, Slot};
use store::Item;

// A number as a word.
fn word(n: usize) -> u16
    requires { n < first_item }
    ensures { result ≡ n }
{
    n as u16
}

// The term of an item.
pub fn term(a: Item) -> u16
    requires { a.0 < first_item }
    ensures { result ≡ first_item + a.0 }
{
    (Body::FIRST + a.0) as u16
}

impl Cursor {
    // Writes one item.
    fn put(self, room: &mut [u16], kind: Kind, name: u16, s: u16, t: u16) -> Cursor
        requires { self.place + 4 ≤ length room.old }
        ensures { Wrote room.old room.new self result (word_of kind ∷ name ∷ s ∷ t ∷ []) 0 }
    {
        let at = self.place;
        room[at] = kind as u16;
        room[at + 1] = name;
        room[at + 2] = s;
        room[at + 3] = t;
        Cursor {
            place: at + Body::WORDS,
            ..self
        }
    }

    // Opens a not.
    pub fn open_not(self, room: &mut [u16]) -> Cursor
        requires { self.place + 4 ≤ length room.old }
        ensures { Wrote room.old room.new self result (4 ∷ 0 ∷ 0 ∷ 0 ∷ []) 0 }
    {
        self.put(room, Kind::Open, 0, 0, 0)
    }

    // Closes a not.
    pub fn close_not(self, room: &mut [u16]) -> Cursor
        requires { self.place + 4 ≤ length room.old }
        ensures { Wrote room.old room.new self result (5 ∷ 0 ∷ 0 ∷ 0 ∷ []) 0 }
    {
        self.put(room, Kind::Close, 0, 0, 0)
    }

    // Writes a role atom; an inverse swaps the terms.
    pub fn link(self, room: &mut [u16], u: RoleUse, s: u16, t: u16) -> Cursor
        requires { RoomFor room.old self 1 u }
        ensures { Wrote room.old room.new self result (flat (atom (link u s t) end)) 0 }
    {
        let role = word(u.role.0);
        if u.inverse {
            return self.put(room, Kind::Role, role, t, s);
        }
        self.put(room, Kind::Role, role, s, t)
    }

    // Writes a role atom inside a not.
    pub fn unlinked(self, room: &mut [u16], u: RoleUse, s: u16, t: u16) -> Cursor
        requires { RoomFor room.old self 3 u }
        ensures { Wrote room.old room.new self result (flat (without (link u s t))) 0 }
    {
        self.open_not(room).link(room, u, s, t).close_not(room)
    }

    // Writes an equality.
    pub fn equal(self, room: &mut [u16], s: u16, t: u16) -> Cursor
        requires { self.place + 4 ≤ length room.old }
        ensures { Wrote room.old room.new self result (flat (atom (eq s t) end)) 0 }
    {
        self.put(room, Kind::Equality, 0, s, t)
    }

    // Writes an equality inside a not.
    pub fn unequal(self, room: &mut [u16], s: u16, t: u16) -> Cursor
        requires { self.place + 12 ≤ length room.old }
        ensures { Wrote room.old room.new self result (flat (without (eq s t))) 0 }
    {
        self.open_not(room).equal(room, s, t).close_not(room)
    }

    // Writes that y differs from each of the n variables z, z + stride, ..
    fn apart(self, room: &mut [u16], y: u16, z: u16, stride: u16, n: usize) -> Cursor
        requires { RoomyApart room.old self z stride n }
        ensures { Parted room.old room.new self result y z stride n }
    {
        if n == 0 {
            return self;
        }
        self.unequal(room, y, z)
            .apart(room, y, z + stride, stride, n - 1)
    }

    // Writes that the n variables y, y + stride, .. differ, pair by pair.
    fn pairs(self, room: &mut [u16], y: u16, stride: u16, n: usize) -> Cursor
        requires { RoomyPairs room.old self y stride n }
        ensures { Paired room.old room.new self result y stride n }
    {
        if n == 0 {
            return self;
        }
        self.apart(room, y, y + stride, stride, n - 1)
            .pairs(room, y + stride, stride, n - 1)
    }

    // Writes the expression at a node of the term t. It reads `left` nodes deep.
    #[cycle(expr_turns)]
    #[tactic(auto, unfolding(rule::specs::Expr::expr_at))]
    pub fn expr(
        self,
        nodes: &[Slot; Rule::NODES],
        left: usize,
        at: usize,
        t: u16,
        room: &mut [u16],
    ) -> Cursor
        requires { Roomy room.old self (expr_at left nodes.now at) }
        ensures { Written room.old room.new self result t (expr_at left nodes.now at) }
    {
        if left == 0 {
            return self;
        }
        match rule::nodes::node_at(nodes, at) {
            Node::Name(c) => self.put(room, Kind::Concept, word(c.0), t, 0),
            Node::Top => self,
            Node::Not(i) => self
                .open_not(room)
                .expr(nodes, left - 1, i, t, room)
                .close_not(room),
            Node::And(i, j) => self
                .expr(nodes, left - 1, i, t, room)
                .expr(nodes, left - 1, j, t, room),
            Node::AtLeast(n, u, i) => {
                if n == 0 {
                    return self;
                }
                let turned = self.turns(nodes, left - 1, i, u, n, t, room);
                let stride = (turned.next - self.next) / word(n);
                turned.pairs(room, self.next, stride, n)
            }
            Node::SelfOf(u) => self.link(room, u, t, t),
            Node::One(a) => self.equal(room, t, term(a)),
        }
    }

    // n times: a new variable, its role atom, then the expression at a node of it.
    #[cycle(expr_turns)]
    fn turns(
        self,
        nodes: &[Slot; Rule::NODES],
        left: usize,
        at: usize,
        u: RoleUse,
        n: usize,
        t: u16,
        room: &mut [u16],
    ) -> Cursor
        requires { RoomyTurns room.old self u (expr_at left nodes.now at) n }
        ensures { Turned room.old room.new self result t u (expr_at left nodes.now at) n }
    {
        if n == 0 {
            return self;
        }
        let y = self.next;
        let linked = self.link(room, u, t, y);
        let fresh = Cursor {
            next: y + 1,
            ..linked
        };
        fresh
            .expr(nodes, left, at, y, room)
            .turns(nodes, left, at, u, n - 1, t, room)
    }

    // Writes the path of the roles in order, from the term t to y.
    pub fn path(self, room: &mut [u16], roles: &[RoleUse], t: u16) -> Cursor
        requires { RoomyPath room.old self roles.now }
        ensures { Pathed room.old room.new self result t roles.now }
    {
        match roles {
            [] => self,
            [last] => self.link(room, *last, t, 1),
            [first, rest @ ..] => {
                let y = self.next;
                let linked = self.link(room, *first, t, y);
                let fresh = Cursor {
                    next: y + 1,
                    ..linked
                };
                fresh.path(room, rest, y)
            }
        }
    }
}
