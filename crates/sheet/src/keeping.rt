ghost use Rattle.std.specs.Prelude.{◌≡◌, false, replicate};
ghost use Rattle.store.specs.Cell.{With, Within, cell_of};
ghost use Rattle.store.specs.Layout.{ClosedStore, Fits, Holds, size};
ghost use Rattle.store.specs.Keeps.{Keeps};
ghost use Rattle.store.specs.own.Laid.{Laid};
ghost use Rattle.line.specs.Fault.{begun as begun_by};
ghost use Rattle.sheet.specs.own.Stands.{Begins};

use line::Marks;
use store::{Counts, Layout, Statement};

// Whether a statement or a rule was accepted.
fn begun(m: Marks) -> bool
    ensures { result ≡ begun_by m }
{
    m.stated || 0 < m.rules
}

// Makes the store fresh, unless a statement or a rule was accepted before; until then its words are all 0.
pub fn begin(words: &mut [u64], at: Layout, counts: Counts, m: Marks)
    requires { (begun_by m ≡ false → words.old ≡ replicate (size at.width) 0) × Fits at.width counts × Laid at words.old }
    ensures { Begins at.width (begun_by m) counts words.old words.new }
{
    if begun(m) {
        return;
    }
    closure::entry::begin(words, at, counts);
}

// Adds a statement to a closed store.
pub fn state(words: &mut [u64], at: Layout, counts: Counts, s: Statement)
    requires { ClosedStore at.width counts words.old × Within counts (cell_of s) × Laid at words.old }
    ensures { Keeps at.width counts (With (Holds at.width counts words.old) (cell_of s)) words.new }
{
    closure::entry::apply(words, at, counts, s);
}
