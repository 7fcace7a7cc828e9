ghost use Rattle.store.specs.Layout.{ClosedStore};
ghost use Rattle.store.specs.own.Laid.{Laid};
ghost use Rattle.store.specs.laws.Proposition.{closed-prop};

use crate::{Counts, Layout};

// A closed store as it is read: its words, where its parts begin, and how many items, concepts and roles are declared.
#[derive(Clone, Copy)]
pub struct View<'a> {
    pub words: &'a [u64],
    pub at: Layout,
    pub counts: Counts,
    ghost laid: { Laid at words.now },
    ghost closed: { ClosedStore at.width counts words.now } by { closed-prop at.width counts words.now },
}
