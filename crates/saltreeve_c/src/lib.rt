// The entry points under their C names, as a static library: each calls the function of its name in crate saltreeve, and says the same of it.
#![tactic(auto)]

ghost use Rattle.std.specs.Prelude.{not, eqb};
ghost use Rattle.store.specs.Cell.Cell.{Same, Under, RoleUnder, In, Link};
ghost use Rattle.batch.specs.Codes.{AddCode};
ghost use Rattle.saltreeve.specs.Code.{FreshCode, counts};

pub mod checks;
pub mod reasons;
pub mod rules;
pub mod stores;

// Makes the lent words a fresh store.
#[unsafe(no_mangle)]
pub extern "C" fn saltreeve_fresh(
    words: &mut [u64],
    items: usize,
    concepts: usize,
    roles: usize,
) -> i64
    ensures { FreshCode (counts items concepts roles) words.old words.new result }
{
    saltreeve::saltreeve_fresh(words, items, concepts, roles)
}

// Adds "a is the same as b".
#[unsafe(no_mangle)]
pub extern "C" fn saltreeve_add_same(
    words: &mut [u64],
    items: usize,
    concepts: usize,
    roles: usize,
    a: usize,
    b: usize,
) -> i64
    ensures { AddCode (counts items concepts roles) (Same a b) words.old words.new result }
{
    saltreeve::saltreeve_add_same(words, items, concepts, roles, a, b)
}

// Adds "the concept is under the other".
#[unsafe(no_mangle)]
pub extern "C" fn saltreeve_add_under(
    words: &mut [u64],
    items: usize,
    concepts: usize,
    roles: usize,
    concept: usize,
    over: usize,
) -> i64
    ensures { AddCode (counts items concepts roles) (Under concept over) words.old words.new result }
{
    saltreeve::saltreeve_add_under(words, items, concepts, roles, concept, over)
}

// Adds "the role is under the other", or under its inverse if `inverse` is not 0.
#[unsafe(no_mangle)]
pub extern "C" fn saltreeve_add_role_under(
    words: &mut [u64],
    items: usize,
    concepts: usize,
    roles: usize,
    role: usize,
    over: usize,
    inverse: usize,
) -> i64
    ensures { AddCode (counts items concepts roles) (RoleUnder role (not (eqb inverse 0)) over) words.old words.new result }
{
    saltreeve::saltreeve_add_role_under(words, items, concepts, roles, role, over, inverse)
}

// Adds "the item is in the concept".
#[unsafe(no_mangle)]
pub extern "C" fn saltreeve_add_in(
    words: &mut [u64],
    items: usize,
    concepts: usize,
    roles: usize,
    item: usize,
    concept: usize,
) -> i64
    ensures { AddCode (counts items concepts roles) (In item concept) words.old words.new result }
{
    saltreeve::saltreeve_add_in(words, items, concepts, roles, item, concept)
}

// Adds "the role links a to b".
#[unsafe(no_mangle)]
pub extern "C" fn saltreeve_add_link(
    words: &mut [u64],
    items: usize,
    concepts: usize,
    roles: usize,
    role: usize,
    a: usize,
    b: usize,
) -> i64
    ensures { AddCode (counts items concepts roles) (Link role a b) words.old words.new result }
{
    saltreeve::saltreeve_add_link(words, items, concepts, roles, role, a, b)
}
