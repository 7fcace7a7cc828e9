ghost use Rattle.std.specs.Prelude.{Bool, ℕ, ◌+◌, ◌≤◌, ◌<◌, length, get_or};
ghost use Rattle.logic.specs.own.Decides.{Decides};
ghost use Rattle.row.specs.Bit.{Has};
ghost use Rattle.inspect.specs.own.Test.{WordIncludes};
ghost use Rattle.store.specs.Layout.{role_limit};
ghost use Rattle.closed.specs.own.Closed.{Clean, ConceptRules, ItemRules, LinkRules, PairIncludes, RoleBit, RoleRules, RoleSteps, RolesBelow, SameRules};
ghost use Rattle.store.specs.own.RoleWord.{turned};
ghost use Rattle.store.specs.Cell.{DeclaredItem};

use crate::lent::Lent;
use store::{RoleWord, Store};

// Whether every bit of a role's word is a step, plain or to the inverse, to one of n roles.
fn role_bits(w: u64, n: usize) -> bool
    requires { n ≤ role_limit }
    ensures { Decides result ((k : ℕ) → Has w k → RoleBit n k) }
{
    inspect::below::word_below(w % RoleWord::HALF, n)
        && inspect::below::word_below(w / RoleWord::HALF, n)
}

// Whether of the roles' words at `at` only the first n have bits, and only steps to the first n roles.
fn roles_below(s: &[u64], at: usize, n: usize) -> bool
    requires { (at + role_limit ≤ length s.now) × (n ≤ role_limit) }
    ensures { Decides result (RolesBelow s.now at role_limit n) }
{
    for r in 0..Store::ROLES {
        let bits = if r < n { n } else { 0 };
        if !role_bits(s[at + r], bits) {
            return false;
        }
    }
    true
}

// Whether the word of role r, and so its inverse, includes the words of its steps.
fn role_closed(s: &[u64], at: usize, n: usize, r: usize) -> bool
    requires { (at + n ≤ length s.now) × (n ≤ role_limit) × (r < n) }
    ensures { Decides result ((u : Bool) → WordIncludes s.now (turned u (get_or s.now (at + r) 0)) at n) }
{
    let w = s[at + r];
    inspect::test::word_includes(s, w, at, n)
        && inspect::test::word_includes(s, store::role_word::turn_word(true, w), at, n)
}

// The same for each of the n roles.
fn role_steps(s: &[u64], at: usize, n: usize) -> bool
    requires { (at + n ≤ length s.now) × (n ≤ role_limit) }
    ensures { Decides result (RoleSteps s.now at n n) }
{
    for r in 0..n {
        if !role_closed(s, at, n, r) {
            return false;
        }
    }
    true
}

impl Lent<'_> {
    // Whether all bits but those of cells within the counts are 0.
    pub fn clean(&self) -> bool
        ensures { Decides result (Clean self.now.at self.now.counts self.now.words.now) }
    {
        let Lent { words, at, counts } = *self;
        let rows = 64 * at.width;
        inspect::below::rows_below(words, 0, rows, at.width, counts.items, counts.items)
            && inspect::below::rows_below(
                words,
                at.under,
                Store::CONCEPTS,
                1,
                counts.concepts,
                counts.concepts,
            )
            && roles_below(words, at.role, counts.roles)
            && inspect::below::rows_below(words, at.item, rows, 1, counts.items, counts.concepts)
            && inspect::below::blocks_below(
                words,
                at.link,
                Store::ROLES,
                at.width,
                counts.roles,
                counts.items,
            )
    }

    // Whether each item is the same as itself, and what is the same as it is the same as all that are.
    pub fn same_closed(&self) -> bool
        ensures { Decides result (SameRules self.now.at self.now.counts self.now.words.now) }
    {
        let Lent { words, at, counts } = *self;
        let width = at.width;
        let size = 64 * width * width;
        inspect::test::reflexive(words, 0, width, counts.items)
            && inspect::test::all_spread(words, 0, width, 0, width, counts.items, size, 1)
    }

    // Whether each concept is under itself, and under what the concepts above it are under.
    pub fn concepts_closed(&self) -> bool
        ensures { Decides result (ConceptRules self.now.at self.now.counts self.now.words.now) }
    {
        let Lent { words, at, counts } = *self;
        inspect::test::reflexive(words, at.under, 1, counts.concepts)
            && inspect::test::rows_include(
                words,
                at.under,
                counts.concepts,
                at.under,
                1,
                counts.concepts,
            )
    }

    // Whether each role is under itself, and under what the roles above it are under.
    pub fn roles_closed(&self) -> bool
        ensures { Decides result (RoleRules self.now.at self.now.counts self.now.words.now) }
    {
        let Lent { words, at, counts } = *self;
        inspect::test::reflexive(words, at.role, 1, counts.roles)
            && role_steps(words, at.role, counts.roles)
    }

    // Whether each item is in what its concepts are under, and in the concepts of the items that are the same.
    pub fn items_closed(&self) -> bool
        ensures { Decides result (ItemRules self.now.at self.now.counts self.now.words.now) }
    {
        let Lent { words, at, counts } = *self;
        let rows = 64 * at.width;
        inspect::test::rows_include(words, at.item, counts.items, at.under, 1, counts.concepts)
            && inspect::test::all_spread(words, 0, at.width, at.item, 1, counts.items, rows, 1)
    }

    // Whether the roles that link a and b, either way, have the roles above them beside them.
    fn pair_closed(&self, a: usize, b: usize) -> bool
        requires { DeclaredItem self.now.counts a × DeclaredItem self.now.counts b }
        ensures { Decides result (PairIncludes self.now.at self.now.words.now self.now.counts.roles a b) }
    {
        let Lent { words, at, counts } = *self;
        let width = at.width;
        let size = 64 * width * width;
        let to = at.link + a * width + b / 64;
        let there = row::copy::gather(words, to, size, (b % 64) as u64, counts.roles);
        if there == 0 {
            return true;
        }
        let from = at.link + b * width + a / 64;
        let back = row::copy::gather(words, from, size, (a % 64) as u64, counts.roles);
        inspect::test::word_includes(words, back * RoleWord::HALF + there, at.role, counts.roles)
    }

    // The same for a and each item.
    fn pairs_closed(&self, a: usize) -> bool
        requires { DeclaredItem self.now.counts a }
        ensures { Decides result ((b : ℕ) → DeclaredItem self.now.counts b → PairIncludes self.now.at self.now.words.now self.now.counts.roles a b) }
    {
        for b in 0..self.counts.items {
            if !self.pair_closed(a, b) {
                return false;
            }
        }
        true
    }

    // The same for all pairs of items.
    fn all_pairs_closed(&self) -> bool
        ensures { Decides result ((a : ℕ) → DeclaredItem self.now.counts a → (b : ℕ) → DeclaredItem self.now.counts b → PairIncludes self.now.at self.now.words.now self.now.counts.roles a b) }
    {
        for a in 0..self.counts.items {
            if !self.pairs_closed(a) {
                return false;
            }
        }
        true
    }

    // Whether the links go along what is the same, at both ends, and along the roles.
    pub fn links_closed(&self) -> bool
        ensures { Decides result (LinkRules self.now.at self.now.counts self.now.words.now) }
    {
        let Lent { words, at, counts } = *self;
        let width = at.width;
        let rows = 64 * width;
        let size = rows * width;
        inspect::test::all_spread(
            words,
            0,
            width,
            at.link,
            width,
            counts.items,
            size,
            counts.roles,
        ) && inspect::test::rows_include(
            words,
            at.link,
            counts.roles * rows,
            0,
            width,
            counts.items,
        ) && self.all_pairs_closed()
    }
}
