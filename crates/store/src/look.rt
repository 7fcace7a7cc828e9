ghost use Rattle.std.specs.Prelude.{◌≡◌, ◌+◌, ◌*◌, ◌≤◌, ◌<◌, length};
ghost use Rattle.logic.specs.Number.{Number};
ghost use Rattle.logic.specs.own.Decides.{Decides};
ghost use Rattle.row.specs.own.Row.{RowHas};
ghost use Rattle.row.specs.own.Pick.{Marks, room};
ghost use Rattle.store.specs.Cell.{cell_of, DeclaredConcept, DeclaredItem, DeclaredRole};
ghost use Rattle.store.specs.Cell.Cell.{Same, Under, RoleUnder, In, Link};
ghost use Rattle.store.specs.Layout.{item_limit, link_at};
ghost use Rattle.store.specs.own.Look.{LinksJoined, LinksMeet, LinkWord, SameDropped};
ghost use Rattle.store.specs.own.View.{held};

use crate::view::View;
use crate::{Concept, Item, Role, Statement};
use row::Row;

impl<'a> View<'a> {
    // Whether the item a is in the concept c. A number that is not declared is in none.
    fn in_concept(&self, a: Item, c: Concept) -> bool
        ensures { Decides result (held self.now (In a.0 c.0)) }
    {
        if self.counts.items <= a.0 || self.counts.concepts <= c.0 {
            return false;
        }
        row::bit::has_bit(self.words[self.at.item + a.0], c.0 as u64)
    }

    // Whether the items a and b are the same article.
    pub fn same(&self, a: Item, b: Item) -> bool
        ensures { Decides result (held self.now (Same a.0 b.0)) }
    {
        if self.counts.items <= a.0 || self.counts.items <= b.0 {
            return false;
        }
        row::bit::has_bit(
            self.words[a.0 * self.at.width + b.0 / 64],
            (b.0 % 64) as u64,
        )
    }

    // Whether the concept a is under the concept b.
    fn under(&self, a: Concept, b: Concept) -> bool
        ensures { Decides result (held self.now (Under a.0 b.0)) }
    {
        if self.counts.concepts <= a.0 || self.counts.concepts <= b.0 {
            return false;
        }
        row::bit::has_bit(self.words[self.at.under + a.0], b.0 as u64)
    }

    // Whether the role r is under the role t, or under its inverse if u.
    fn role_under(&self, r: Role, u: bool, t: Role) -> bool
        ensures { Decides result (held self.now (RoleUnder r.0 u t.0)) }
    {
        if self.counts.roles <= r.0 || self.counts.roles <= t.0 {
            return false;
        }
        let w = self.words[self.at.role + r.0];
        if u {
            return row::bit::has_bit(w, (crate::Store::ROLES + t.0) as u64);
        }
        row::bit::has_bit(w, t.0 as u64)
    }

    // Whether the store says already what the statement does.
    pub fn told(&self, s: Statement) -> bool
        ensures { Decides result (held self.now (cell_of s)) }
    {
        match s {
            Statement::Same(a, b) => self.same(a, b),
            Statement::Under(a, b) => self.under(a, b),
            Statement::RoleUnder(r, u, t) => self.role_under(r, u, t),
            Statement::In(a, b) => self.in_concept(a, b),
            Statement::Link(r, a, b) => self.link(r, a, b),
        }
    }

    // The items that are the same article as b.
    pub fn same_row(&self, b: Item) -> Row
        requires { DeclaredItem self.now.counts b.0 }
        ensures { Marks self.now.counts.items result (λ x. held self.now (Same b.0 x)) }
    {
        let width = self.at.width;
        row::copy::row_of(self.words, b.0 * width, width)
    }

    // The row t loses the items that are the same article as b.
    pub fn drop_same(&self, b: Item, t: &mut Row)
        requires { DeclaredItem self.now.counts b.0 × (length t.old ≡ room) }
        ensures { (length t.new ≡ room) × SameDropped (held self.now) b.0 t.old t.new }
    {
        let width = self.at.width;
        row::copy::take_off(t, self.words, b.0 * width, width);
    }

    // Where the row of the items that the role r links a to begins.
    fn link_row(&self, r: Role, a: Item) -> usize
        requires { DeclaredRole self.now.counts r.0 × DeclaredItem self.now.counts a.0 }
        ensures { (result ≡ link_at self.now.at.width + (r.0 * item_limit self.now.at.width + a.0) * self.now.at.width) × (result + self.now.at.width ≤ length self.now.words.now) }
    {
        let width = self.at.width;
        self.at.link + (r.0 * (64 * width) + a.0) * width
    }

    // Whether the role r links a to b.
    pub fn link(&self, r: Role, a: Item, b: Item) -> bool
        ensures { Decides result (held self.now (Link r.0 a.0 b.0)) }
    {
        if self.counts.roles <= r.0 || self.counts.items <= a.0 || self.counts.items <= b.0 {
            return false;
        }
        let from = self.link_row(r, a);
        row::bit::has_bit(self.words[from + b.0 / 64], (b.0 % 64) as u64)
    }

    // The row p, and the items that the role r links a to.
    pub fn join_links(&self, r: Role, a: Item, p: &Row) -> Row
        requires { DeclaredRole self.now.counts r.0 × DeclaredItem self.now.counts a.0 }
        ensures { LinksJoined (held self.now) self.now.counts r.0 a.0 p.now result }
    {
        row::copy::together(self.words, self.link_row(r, a), self.at.width, p)
    }

    // The row t takes on the items that the role r links a to.
    pub fn add_links(&self, r: Role, a: Item, t: &mut Row)
        requires { DeclaredRole self.now.counts r.0 × DeclaredItem self.now.counts a.0 × (length t.old ≡ room) }
        ensures { (length t.new ≡ room) × LinksJoined (held self.now) self.now.counts r.0 a.0 t.old t.new }
    {
        row::copy::take_on(t, self.words, self.link_row(r, a), self.at.width);
    }

    // Word h of the row of the items that the role r links a to.
    pub fn link_word(&self, r: Role, a: Item, h: usize) -> u64
        requires { DeclaredRole self.now.counts r.0 × DeclaredItem self.now.counts a.0 × (h < self.now.at.width) }
        ensures { LinkWord (held self.now) r.0 a.0 h result }
    {
        self.words[self.link_row(r, a) + h]
    }

    // Whether the role r links a to an item of the row p.
    pub fn links_meet(&self, r: Role, a: Item, p: &Row) -> bool
        requires { DeclaredRole self.now.counts r.0 × DeclaredItem self.now.counts a.0 }
        ensures { Decides result (LinksMeet (held self.now) r.0 a.0 p.now) }
    {
        row::pick::shares(self.words, self.link_row(r, a), self.at.width, p)
    }

    // The items that the role r links to x.
    pub fn back_row(&self, r: Role, x: Item) -> Row
        requires { DeclaredRole self.now.counts r.0 × DeclaredItem self.now.counts x.0 }
        ensures { Marks self.now.counts.items result (λ y. held self.now (Link r.0 y x.0)) }
    {
        let from = self.link_row(r, Item(0)) + x.0 / 64;
        row::copy::column(
            self.words,
            from,
            self.at.width,
            (x.0 % 64) as u64,
            self.counts.items,
        )
    }

    // The items in the concept c.
    pub fn concept_row(&self, c: Concept) -> Row
        requires { DeclaredConcept self.now.counts c.0 }
        ensures { Marks self.now.counts.items result (λ x. held self.now (In x c.0)) }
    {
        row::copy::column(self.words, self.at.item, 1, c.0 as u64, self.counts.items)
    }

    // How many items of the row p the role r links a to.
    pub fn links_common(&self, r: Role, a: Item, p: &Row) -> usize
        requires { DeclaredRole self.now.counts r.0 × DeclaredItem self.now.counts a.0 }
        ensures { Number (λ y. held self.now (Link r.0 a.0 y) × RowHas p.now y) result }
    {
        row::pick::common(self.words, self.link_row(r, a), self.at.width, p)
    }
}
