// From one item in a concept to another, and from link to link.
ghost use Rattle.std.specs.Prelude.{◌≡◌, ◌<◌, length, IfSome};
ghost use Rattle.store.specs.Cell.{cell_of};
ghost use Rattle.reason.specs.own.Aim as aim;
ghost use Rattle.reason.specs.own.Aim.{Near, Raised, Rising, Small};
ghost use Rattle.reason.specs.own.Fact as spec;
ghost use Rattle.reason.specs.own.Fact.{above_width, fact_of, kind_above};

use crate::table::Table;
use crate::{Fact, Goal, Kind, Route, Way};
use store::{Statement, Store};

// The fact that a statement states, if it states one.
fn stated(s: Statement) -> Option<Fact>
    ensures { result ≡ fact_of (cell_of s) }
{
    match s {
        Statement::In(a, b) => Some(Fact::Member(a, b)),
        Statement::Link(r, a, b) => Some(Fact::Link(r, a, b)),
        _ => None,
    }
}

// The fact that the number at the place i states, if it states one.
pub fn fact_at(codes: &[u32], i: usize) -> Option<Fact>
    requires { i < length codes.now }
    ensures { result ≡ aim.fact_at codes.now i }
{
    stated(crate::code::statement_at(codes[i]))
}

// The kind of the steps above a fact.
pub fn kind_above(g: Fact) -> Kind
    ensures { result ≡ kind_above g }
{
    match g {
        Fact::Member(_, _) => Kind::Under,
        Fact::Link(_, _, _) => Kind::Role,
    }
}

// The way from one fact to another of the same sort.
fn straight(f: Option<Fact>, g: Fact) -> Option<Route>
    ensures { result ≡ spec.straight f g }
{
    match (f?, g) {
        (Fact::Member(a, c), Fact::Member(b, d)) => Some(Route {
            from: c.0,
            to: d.0,
            ends: Way {
                a: a.0,
                b: b.0,
                c: a.0,
                d: b.0,
            },
        }),
        (Fact::Link(r, a, c), Fact::Link(s, b, d)) => Some(Route {
            from: r.0,
            to: s.0,
            ends: Way {
                a: a.0,
                b: b.0,
                c: c.0,
                d: d.0,
            },
        }),
        _ => None,
    }
}

// The way from one link to another by the inverse of the other's role.
fn turned(f: Option<Fact>, g: Fact) -> Option<Route>
    requires { Raised g }
    ensures { result ≡ spec.turned f g }
{
    match (f?, g) {
        (Fact::Link(r, a, c), Fact::Link(s, b, d)) => Some(Route {
            from: r.0,
            to: Store::ROLES + s.0,
            ends: Way {
                a: a.0,
                b: d.0,
                c: c.0,
                d: b.0,
            },
        }),
        _ => None,
    }
}

// The way above of a route, if steps of "same" lead between its ends, by their table.
fn above_way(t: Table, r: Option<Route>) -> Option<Way>
    requires { IfSome r (Near t.width) }
    ensures { result ≡ aim.above_by t.entry.width t.entry.words.now r }
{
    let r = r?;
    let open = crate::table::along(t, r.ends);
    open.then_some(Way {
        a: r.from,
        b: r.to,
        c: r.from,
        d: r.to,
    })
}

// The way of "same" of a route, if steps above lead along it, by their table.
fn same_way(t: Table, r: Option<Route>) -> Option<Way>
    requires { (t.width ≡ above_width) × IfSome r Rising }
    ensures { result ≡ aim.same_by t.entry.words.now r }
{
    let r = r?;
    let open = crate::table::leads(t, r.from, r.to);
    open.then_some(r.ends)
}

// The steps above that have to lead from one fact to another, by the table of the steps of "same".
pub fn above_goal(t: Table, f: Option<Fact>, g: Fact) -> Goal
    requires { IfSome f (Small t.width) × Small t.width g }
    ensures { result ≡ aim.above_goal t.entry.width t.entry.words.now f g }
{
    let one = above_way(t, straight(f, g));
    let other = above_way(t, turned(f, g));
    Goal { one, other }
}

// The steps of "same" that have to lead from one fact to another, by the table of the steps above.
pub fn same_goal(t: Table, f: Option<Fact>, g: Fact) -> Goal
    requires { (t.width ≡ above_width) × IfSome f Raised × Raised g }
    ensures { result ≡ aim.same_goal t.entry.words.now f g }
{
    let one = same_way(t, straight(f, g));
    let other = same_way(t, turned(f, g));
    Goal { one, other }
}

// Whether steps lead along a route, by the tables of "same" and of the steps above.
fn opens(same: Table, above: Table, r: Option<Route>) -> bool
    requires { (above.width ≡ above_width) × IfSome r (Near same.width) }
    ensures { result ≡ aim.opensb same.entry.width same.entry.words.now above.entry.words.now r }
{
    match r {
        Some(r) => { crate::table::along(same, r.ends) && crate::table::leads(above, r.from, r.to) }
        None => false,
    }
}

// Whether steps lead from one fact to another, by the tables of "same" and of the steps above.
pub fn meets(same: Table, above: Table, f: Option<Fact>, g: Fact) -> bool
    requires { (above.width ≡ above_width) × IfSome f (Small same.width) × Small same.width g }
    ensures { result ≡ aim.meetsb same.entry.width same.entry.words.now above.entry.words.now f g }
{
    opens(same, above, straight(f, g)) || opens(same, above, turned(f, g))
}
