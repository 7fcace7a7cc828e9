// What other languages call: the entry points under their C names, and nothing else.
// Items, concepts, roles and kinds come as plain numbers, and answers go out as such: this is the C interface.
#![tactic(auto)]

ghost use Rattle.std.specs.Prelude.{not, eqb};
ghost use Rattle.store.specs.Cell.{cell_of};
ghost use Rattle.store.specs.Cell.Cell.{Same, Under, RoleUnder, In, Link};
ghost use Rattle.batch.specs.Codes.{AddCode};
ghost use Rattle.saltreeve.specs.Code.{FreshCode, counts};

pub mod checks;
pub mod reasons;
pub mod rules;
pub mod stores;

use store::{Concept, Counts, Item, Role, Statement};

// Adds a statement to the lent store.
fn add(words: &mut [u64], n: Counts, s: Statement) -> i64
    ensures { AddCode n (cell_of s) words.old words.new result }
{
    refusal::signed(closure::add(words, n, s))
}

// Makes the lent words a fresh store.
pub fn saltreeve_fresh(words: &mut [u64], items: usize, concepts: usize, roles: usize) -> i64
    ensures { FreshCode (counts items concepts roles) words.old words.new result }
{
    let a = closure::fresh(
        words,
        Counts {
            items,
            concepts,
            roles,
        },
    );
    refusal::signed(a)
}

// Adds "a is the same as b".
pub fn saltreeve_add_same(
    words: &mut [u64],
    items: usize,
    concepts: usize,
    roles: usize,
    a: usize,
    b: usize,
) -> i64
    ensures { AddCode (counts items concepts roles) (Same a b) words.old words.new result }
{
    let s = Statement::Same(Item(a), Item(b));
    add(
        words,
        Counts {
            items,
            concepts,
            roles,
        },
        s,
    )
}

// Adds "the concept is under the other".
pub fn saltreeve_add_under(
    words: &mut [u64],
    items: usize,
    concepts: usize,
    roles: usize,
    concept: usize,
    over: usize,
) -> i64
    ensures { AddCode (counts items concepts roles) (Under concept over) words.old words.new result }
{
    let s = Statement::Under(Concept(concept), Concept(over));
    add(
        words,
        Counts {
            items,
            concepts,
            roles,
        },
        s,
    )
}

// Adds "the role is under the other", or under its inverse if `inverse` is not 0.
pub fn saltreeve_add_role_under(
    words: &mut [u64],
    items: usize,
    concepts: usize,
    roles: usize,
    role: usize,
    over: usize,
    inverse: usize,
) -> i64
    ensures { AddCode (counts items concepts roles) (RoleUnder role (not (eqb inverse 0)) over) words.old words.new result }
{
    let s = Statement::RoleUnder(Role(role), inverse != 0, Role(over));
    add(
        words,
        Counts {
            items,
            concepts,
            roles,
        },
        s,
    )
}

// Adds "the item is in the concept".
pub fn saltreeve_add_in(
    words: &mut [u64],
    items: usize,
    concepts: usize,
    roles: usize,
    item: usize,
    concept: usize,
) -> i64
    ensures { AddCode (counts items concepts roles) (In item concept) words.old words.new result }
{
    let s = Statement::In(Item(item), Concept(concept));
    add(
        words,
        Counts {
            items,
            concepts,
            roles,
        },
        s,
    )
}

// Adds "the role links a to b".
pub fn saltreeve_add_link(
    words: &mut [u64],
    items: usize,
    concepts: usize,
    roles: usize,
    role: usize,
    a: usize,
    b: usize,
) -> i64
    ensures { AddCode (counts items concepts roles) (Link role a b) words.old words.new result }
{
    let s = Statement::Link(Role(role), Item(a), Item(b));
    add(
        words,
        Counts {
            items,
            concepts,
            roles,
        },
        s,
    )
}
