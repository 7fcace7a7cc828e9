ghost use Rattle.std.specs.Prelude.{◌≡◌, Bool, true, ◌*◌, ◌≤◌, ◌<◌, length};
ghost use Rattle.logic.specs.own.Decides.{Decides};
ghost use Rattle.row.specs.own.Row.{RowHas};
ghost use Rattle.row.specs.own.Pick.{Marks, room};
ghost use Rattle.store.specs.own.View.{held};
ghost use Rattle.rule.specs.Form.{count_limit};
ghost use Rattle.rule.specs.Meaning.{Articles, LinkedWay};
ghost use Rattle.expression.specs.own.Tally.{AllTell, Blank, Countable, Counted, tally_words};

use row::Row;
use rule::{RoleUse, Rule};
use store::view::View;
use store::{Counts, Item, Role};

// How many words the tallies of 64 items have: one for each number, from none to the largest count.
const TALLIES: usize = Rule::COUNT + 1;

// The word that has every bit.
const FULL: u64 = 0xffff_ffff_ffff_ffff;

// Whether tallies count k articles of the role use: it is the inverse of a declared role, and k is from 2 to the largest count.
pub fn counts_for(counts: Counts, k: usize, u: RoleUse) -> bool
    ensures { Decides result (Countable counts k u) }
{
    u.inverse && u.role.0 < counts.roles && 2 <= k && k <= Rule::COUNT
}

// The tallies before any item is counted: word 0 has every bit, the others none.
fn blank() -> [u64; TALLIES]
    ensures { Blank result }
{
    let mut t = [0u64; TALLIES];
    t[0] = FULL;
    t
}

// Each word of the tallies up to word k takes on what the word before it and w have in common, the highest first.
fn count_word(t: &mut [u64; TALLIES], w: u64, k: usize)
    requires { (length t.old ≡ tally_words) × (k ≤ count_limit) }
    ensures { Counted 0 k w t.old t.new }
{
    for j in (0..k).rev() {
        t[j + 1] = t[j + 1] | (t[j] & w);
    }
}

// Of the 64 items of word h those that the role links at least k items of the row p to, as bits.
fn tally_word(view: &View, k: usize, role: Role, p: &Row, h: usize) -> u64
    requires { (role.0 < view.now.counts.roles) × (k ≤ count_limit) × (h < view.now.at.width) }
    ensures { AllTell h k (λ x y. LinkedWay (held view.now) Bool.true role.0 x y × RowHas p.now y) result }
{
    let mut t = blank();
    // No for: the loop goes from an item of the row to the next, with no look at those between.
    let mut b = row::pick::next(p, 0, view.counts.items);
    while b < view.counts.items {
        let links = view.link_word(role, Item(b), h);
        count_word(&mut t, links, k);
        b = row::pick::next(p, b + 1, view.counts.items);
    }
    t[k]
}

// The numbers of the row p below n.
fn within(n: usize, p: &Row) -> Row
    requires { n ≤ 64 * room }
    ensures { Marks n result (RowHas p.now) }
{
    row::pick::meet(&row::pick::below(n), p)
}

// The items that the role links items of the row p of at least k different articles to.
pub fn tally(view: &View, k: usize, role: Role, p: &Row) -> Row
    requires { (role.0 < view.now.counts.roles) × (1 ≤ k) × (k ≤ count_limit) }
    ensures { Marks view.now.counts.items result (λ x. Articles (held view.now) view.now.counts k (λ b. LinkedWay (held view.now) Bool.true role.0 x b × RowHas p.now b)) }
{
    let mut lead = within(view.counts.items, p);
    crate::lead::keep_leaders(view, &mut lead);
    let mut r = row::pick::empty();
    for h in 0..view.at.width {
        r[h] = tally_word(view, k, role, &lead, h);
    }
    r
}
