// The test of closedness: whether lent words are a closed store, asked part by part of whole rows.
#![tactic(auto)]

mod lent;
mod parts;

ghost use Rattle.logic.specs.own.Decides.{Decides};
ghost use Rattle.store.specs.Layout.{ClosedStore, Fits};
ghost use Rattle.store.specs.own.Laid.{Laid};

use lent::Lent;
use store::{Counts, Layout};

// Whether the words are a closed store.
pub fn is_closed(s: &[u64], at: Layout, counts: Counts) -> bool
    requires { Laid at s.now × Fits at.width counts }
    ensures { Decides result (ClosedStore at.width counts s.now) }
{
    let lent = Lent {
        words: s,
        at,
        counts,
    };
    lent.clean()
        && lent.same_closed()
        && lent.concepts_closed()
        && lent.roles_closed()
        && lent.items_closed()
        && lent.links_closed()
}
