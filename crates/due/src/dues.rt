ghost use Rattle.std.specs.Prelude.{◌≡◌, max, min, slice_get};
ghost use Rattle.field.specs.Due.{chain as chain_dues, chain_longest, chain_shortest, statement_lineup, rule_lineup, lineup_of, is_expr};

use field::{Due, Form, Lineup, RuleWord, StatementWord};

// The roles of the longest chain: those of its path, and the one that the path is under.
const CHAIN: &[Due] = &[Due::RoleUse; Lineup::MOST];

// How many roles a chain has, in a line with so many fields.
fn chain_count(n: usize) -> usize
    ensures { result ≡ max chain_shortest (min n chain_longest) }
{
    n.min(Lineup::CHAIN_LONGEST).max(Lineup::CHAIN_SHORTEST)
}

// The roles of a chain, in a line with so many fields.
fn chain(n: usize) -> &'static [Due]
    ensures { result.now ≡ chain_dues n }
{
    &CHAIN[..chain_count(n)]
}

// What is due in a statement.
fn statement(w: StatementWord) -> &'static [Due]
    ensures { result.now ≡ statement_lineup w }
{
    match w {
        StatementWord::In => &[Due::Item, Due::Concept],
        StatementWord::Rel => &[Due::Role, Due::Item, Due::Item],
        StatementWord::Same => &[Due::Item, Due::Item],
        StatementWord::Under => &[Due::Concept, Due::Concept],
        StatementWord::RoleUnder => &[Due::RoleUse, Due::RoleUse],
    }
}

// What is due in a rule, of so many fields.
fn rule(w: RuleWord, n: usize) -> &'static [Due]
    ensures { result.now ≡ rule_lineup w n }
{
    match w {
        RuleWord::Sub => &[Due::Expr, Due::Expr],
        RuleWord::RoleSub | RuleWord::Dis => &[Due::RoleUse, Due::RoleUse],
        RuleWord::Chain => chain(n),
        RuleWord::Ref | RuleWord::Irr => &[Due::RoleUse],
        RuleWord::In => &[Due::Expr, Due::Item],
        RuleWord::Rel | RuleWord::NoRel => &[Due::RoleUse, Due::Item, Due::Item],
        RuleWord::Same | RuleWord::Differ => &[Due::Item, Due::Item],
    }
}

// What is due in a line, of so many fields after its word or words.
pub fn lineup(f: Form, n: usize) -> &'static [Due]
    ensures { result.now ≡ lineup_of f n }
{
    match f {
        Form::Concept => &[Due::NewConcept],
        Form::Role => &[Due::NewRole],
        Form::Item => &[Due::NewItem],
        Form::Statement(w) => statement(w),
        Form::Rule(w) => rule(w, n),
        Form::Bare => &[Due::Expr],
        Form::Unknown => &[Due::Nothing],
    }
}

// Whether a word of an expression, or a concept, is due.
pub fn is_expr(d: Due) -> bool
    ensures { result ≡ is_expr d }
{
    matches!(d, Due::Expr)
}
