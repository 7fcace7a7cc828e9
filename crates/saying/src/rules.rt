ghost use Rattle.std.specs.Prelude.{◌≡◌, ◌≤◌, drop};
ghost use Rattle.field.specs.Words.{at as field_of};
ghost use Rattle.field.specs.own.Known.{fields_in, names_in};
ghost use Rattle.saying.specs.own.Nodes.{RuleReady};
ghost use Rattle.saying.specs.Read.{bare as bare_rule, blank as blank_slots, chain_of, rule_of};
ghost use Rattle.stated.specs.Stated.{item_of, role_use_of};

use crate::Parsed;
use crate::expressions::read_expr;
use field::RuleWord;
use field::known::{Fields, Known};
use rule::{Head, Node, RoleUse, Rule, Slot};
use stated::numbers;
use store::Item;

// Places without nodes.
fn blank() -> [Slot; Rule::NODES]
    ensures { result ≡ blank_slots }
{
    [Slot { node: Node::Top }; Rule::NODES]
}

// A rule without expressions.
pub fn bare(head: Head) -> Rule
    ensures { result ≡ bare_rule head }
{
    Rule {
        head,
        len: 0,
        nodes: blank(),
    }
}

// The roles of a chain.
fn chain(known: &Known, fields: &Fields, from: usize) -> Head
    requires { (from ≤ 2) × RuleReady RuleWord.Chain (drop from (fields_in fields.now)) }
    ensures { result ≡ chain_of (names_in known.now) (drop from (fields_in fields.now)) }
{
    let k = fields.ends.len().saturating_sub(from) - 1;
    let a = numbers::role_use(known, fields, from);
    let b = numbers::role_use(known, fields, from + 1);
    let c = numbers::role_use(known, fields, from + 2);
    let d = numbers::role_use(known, fields, from + 3);
    let e = numbers::role_use(known, fields, from + k);
    Head::Chain(k, a, b, c, d, e)
}

// The roles of two fields.
fn roles(known: &Known, fields: &Fields, from: usize) -> (RoleUse, RoleUse)
    requires { from ≤ 2 }
    ensures first { result.0 ≡ role_use_of (names_in known.now) (field_of 0 (drop from (fields_in fields.now))) }
    ensures second { result.1 ≡ role_use_of (names_in known.now) (field_of 1 (drop from (fields_in fields.now))) }
{
    let a = numbers::role_use(known, fields, from);
    let b = numbers::role_use(known, fields, from + 1);
    (a, b)
}

// The items of two fields.
fn items(known: &Known, fields: &Fields, from: usize) -> (Item, Item)
    requires { from ≤ 3 }
    ensures first { result.0 ≡ item_of (names_in known.now) (field_of 0 (drop from (fields_in fields.now))) }
    ensures second { result.1 ≡ item_of (names_in known.now) (field_of 1 (drop from (fields_in fields.now))) }
{
    let a = numbers::item(known, fields, from);
    let b = numbers::item(known, fields, from + 1);
    (a, b)
}

// The role and the items of three fields.
fn link(known: &Known, fields: &Fields, from: usize) -> (RoleUse, Item, Item)
    requires { from ≤ 2 }
    ensures role { result.0 ≡ role_use_of (names_in known.now) (field_of 0 (drop from (fields_in fields.now))) }
    ensures first { result.1 ≡ item_of (names_in known.now) (field_of 1 (drop from (fields_in fields.now))) }
    ensures second { result.2 ≡ item_of (names_in known.now) (field_of 2 (drop from (fields_in fields.now))) }
{
    let u = numbers::role_use(known, fields, from);
    let a = numbers::item(known, fields, from + 1);
    let b = numbers::item(known, fields, from + 2);
    (u, a, b)
}

// The rule that one expression is below another.
fn sub(known: &Known, fields: &Fields, from: usize) -> Rule
    requires { (from ≤ 2) × RuleReady RuleWord.Sub (drop from (fields_in fields.now)) }
    ensures { result ≡ rule_of (names_in known.now) RuleWord.Sub (drop from (fields_in fields.now)) }
{
    let mut nodes = blank();
    let none = Parsed { len: 0, at: from };
    let left = fields.ends.len().saturating_sub(from);
    let first = read_expr(known, fields, &mut nodes, none, left);
    let rest = fields.ends.len().saturating_sub(first.at);
    let both = read_expr(known, fields, &mut nodes, first, rest);
    Rule {
        head: Head::Sub(0, first.len),
        len: both.len,
        nodes,
    }
}

// The rule that an expression holds of an item.
fn in_rule(known: &Known, fields: &Fields, from: usize) -> Rule
    requires { (from ≤ 2) × RuleReady RuleWord.In (drop from (fields_in fields.now)) }
    ensures { result ≡ rule_of (names_in known.now) RuleWord.In (drop from (fields_in fields.now)) }
{
    let mut nodes = blank();
    let none = Parsed { len: 0, at: from };
    let left = fields.ends.len().saturating_sub(from);
    let first = read_expr(known, fields, &mut nodes, none, left);
    let item = numbers::item(known, fields, first.at);
    Rule {
        head: Head::In(0, item),
        len: first.len,
        nodes,
    }
}

// The rule that the fields of a line say, from the one with the number `from` on.
pub fn rule_of(known: &Known, fields: &Fields, from: usize, w: RuleWord) -> Rule
    requires { (from ≤ 2) × RuleReady w (drop from (fields_in fields.now)) }
    ensures { result ≡ rule_of (names_in known.now) w (drop from (fields_in fields.now)) }
{
    match w {
        RuleWord::Sub => sub(known, fields, from),
        RuleWord::RoleSub => {
            let (a, b) = roles(known, fields, from);
            bare(Head::RoleSub(a, b))
        }
        RuleWord::Chain => bare(chain(known, fields, from)),
        RuleWord::Ref => bare(Head::Ref(numbers::role_use(known, fields, from))),
        RuleWord::Irr => bare(Head::Irr(numbers::role_use(known, fields, from))),
        RuleWord::Dis => {
            let (a, b) = roles(known, fields, from);
            bare(Head::Dis(a, b))
        }
        RuleWord::In => in_rule(known, fields, from),
        RuleWord::Rel => {
            let (u, a, b) = link(known, fields, from);
            bare(Head::Rel(u, a, b))
        }
        RuleWord::NoRel => {
            let (u, a, b) = link(known, fields, from);
            bare(Head::NoRel(u, a, b))
        }
        RuleWord::Same => {
            let (a, b) = items(known, fields, from);
            bare(Head::Same(a, b))
        }
        RuleWord::Differ => {
            let (a, b) = items(known, fields, from);
            bare(Head::Differ(a, b))
        }
    }
}
