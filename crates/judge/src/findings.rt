ghost use Rattle.std.specs.Prelude.{◌≡◌, true, false, ◌*◌, ◌≤◌};
ghost use Rattle.logic.specs.Number.{Number};
ghost use Rattle.row.specs.own.Row.{RowHas};
ghost use Rattle.row.specs.own.Pick.{room};
ghost use Rattle.store.specs.own.View.{held};
ghost use Rattle.breach.specs.own.Plan.{is_pair, second_at};
ghost use Rattle.judge.specs.own.Cursor.{Advances, Begins, PlanBroken, Sought, current_of};

use crate::Cursor;
use breach::Plan;
use row::Row;
use rule::{Finding, Head};
use store::Item;
use store::view::View;

// How many numbers the row has.
fn ones(r: &Row) -> u64
    ensures { Number (RowHas r.now) result × (result ≤ 64 * room) }
{
    row::bit::count(r)
}

// How many findings a rule about pairs has, row by row.
fn count_rows(view: &View, plan: Plan) -> u64
    requires { is_pair plan.head ≡ true }
    ensures { Number (PlanBroken (held view.now) view.now.counts plan) result }
{
    let mut n: u64 = 0;
    for x in 0..view.counts.items {
        n += ones(&breach::breaking::pair_row(view, plan.head, x));
    }
    n
}

// How many findings there are.
pub fn count(view: &View, plan: Plan) -> u64
    ensures { Number (PlanBroken (held view.now) view.now.counts plan) result }
{
    if breach::breaking::is_pair(plan.head) {
        return count_rows(view, plan);
    }
    ones(&breach::breaking::alone_row(view, plan))
}

// The cursor at the first finding from the item `from` on, or at the end, for a rule about one item: by the row of the items that break it.
fn seek_alone(view: &View, plan: Plan, from: usize) -> Cursor
    requires { (is_pair plan.head ≡ false) × (from ≤ view.now.counts.items) }
    ensures { Sought (held view.now) view.now.counts plan from result }
{
    let broken = breach::breaking::alone_row(view, plan);
    let x = row::pick::next(&broken, from, view.counts.items);
    let row = if x == view.counts.items {
        row::pick::empty()
    } else {
        links::reach::item_row(0)
    };
    Cursor { plan, row, x, y: 0 }
}

// The cursor at the first finding from the row `from` on, or at the end; but for a rule of two roots row by row.
fn seek(view: &View, plan: Plan, from: usize) -> Cursor
    requires { from ≤ view.now.counts.items }
    ensures { Sought (held view.now) view.now.counts plan from result }
{
    if breach::breaking::is_sub(plan.head) {
        return seek_alone(view, plan, from);
    }
    for x in from..view.counts.items {
        let row = breach::breaking::places(view, plan, x);
        let y = row::pick::least(&row);
        if y < view.counts.items {
            return Cursor { plan, row, x, y };
        }
    }
    Cursor {
        plan,
        row: row::pick::empty(),
        x: view.counts.items,
        y: 0,
    }
}

// The cursor at the first of the findings, of which there are `total`, or at the end.
pub fn first(view: &View, plan: Plan, total: u64) -> Cursor
    requires { Number (PlanBroken (held view.now) view.now.counts plan) total }
    ensures { Begins (held view.now) view.now.counts plan result }
{
    if total == 0 {
        return seek(view, plan, view.counts.items);
    }
    seek(view, plan, 0)
}

// The cursor at the next finding; at the end it stays.
pub fn advance(view: &View, c: Cursor) -> Cursor
    ensures { Advances (held view.now) view.now.counts c result }
{
    if view.counts.items <= c.x {
        return c;
    }
    let rest = row::pick::without(&c.row, &links::reach::item_row(c.y));
    let y = row::pick::least(&rest);
    if y < view.counts.items {
        return Cursor {
            plan: c.plan,
            row: rest,
            x: c.x,
            y,
        };
    }
    seek(view, c.plan, c.x + 1)
}

// The second item at a place.
fn second_at(head: Head, y: usize) -> Option<Item>
    ensures { result ≡ second_at head y }
{
    if breach::breaking::is_pair(head) {
        return Some(Item(y));
    }
    None
}

// The finding at the cursor, with the rule's number.
pub fn current(c: Cursor, number: usize) -> Finding
    ensures { result ≡ current_of number c }
{
    Finding {
        rule: number,
        item: Item(c.x),
        second: second_at(c.plan.head, c.y),
    }
}
