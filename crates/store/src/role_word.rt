ghost use Rattle.std.specs.Prelude.{◌≡◌};
ghost use Rattle.store.specs.own.RoleWord.{turned};

use crate::RoleWord;

// A role's word with its halves changed, if v: the plain steps for those to the inverse.
pub fn turn_word(v: bool, w: u64) -> u64
    ensures { result ≡ turned v w }
{
    if v {
        w % RoleWord::HALF * RoleWord::HALF + w / RoleWord::HALF
    } else {
        w
    }
}
