ghost use Rattle.store.specs.Layout.{Fits};
ghost use Rattle.store.specs.own.Laid.{Laid};

use store::{Counts, Layout};

// Words that may be a closed store: where their parts begin, and how many items, concepts and roles are declared.
#[derive(Clone, Copy)]
pub struct Lent<'a> {
    pub words: &'a [u64],
    pub at: Layout,
    pub counts: Counts,
    ghost laid: { Laid at words.now },
    ghost fits: { Fits at.width counts },
}
