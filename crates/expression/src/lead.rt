ghost use Rattle.std.specs.Prelude.{◌≡◌, ℕ, length};
ghost use Rattle.row.specs.own.Row.{RowHas};
ghost use Rattle.row.specs.own.Pick.{Marks, room};
ghost use Rattle.store.specs.Cell.{DeclaredItem};
ghost use Rattle.store.specs.own.View.{held};
ghost use Rattle.expression.specs.own.Lead.{Leads};

use row::Row;
use store::Item;
use store::view::View;

// Of the row's items of each article only the one with the lowest number stays.
pub fn keep_leaders(view: &View, r: &mut Row)
    requires { (length r.old ≡ room) × ((x : ℕ) → RowHas r.old x → DeclaredItem view.now.counts x) }
    ensures { (length r.new ≡ room) × Marks view.now.counts.items r.new (Leads (held view.now) (RowHas r.old)) }
{
    // No for: the loop goes from an item of the row to the next, with no look at those between.
    let mut b = row::pick::next(r, 0, view.counts.items);
    while b < view.counts.items {
        view.drop_same(Item(b), r);
        row::pick::mark(r, b, true);
        b = row::pick::next(r, b + 1, view.counts.items);
    }
}
