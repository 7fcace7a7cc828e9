ghost use Rattle.std.specs.Prelude.{◌≡◌};
ghost use Rattle.field.specs.Names.{reserved as reserved_of};
ghost use Rattle.field.specs.Words.{form_of, is_rule, line_form, operator_of, rule_form, section_of};
ghost use Rattle.field.specs.own.Known.{fields_in};
ghost use Rattle.field.specs.own.Line.{words_of};

use crate::known::Fields;
use crate::{Form, Operator, RuleWord, Section, StatementWord};

// The word of an expression that a field is; none where it is any other field.
pub fn operator(f: &[u8]) -> Option<Operator>
    ensures { result ≡ operator_of f.now }
{
    let k = crate::code::code(f);
    match k {
        // and
        23359073 => Some(Operator::And),
        // or
        94831 => Some(Operator::Or),
        // not
        24407918 => Some(Operator::Not),
        // some
        5996638067 => Some(Operator::Some),
        // all
        23882849 => Some(Operator::All),
        // atleast
        104835553486992481 => Some(Operator::AtLeast),
        // atmost
        409514116215905 => Some(Operator::AtMost),
        // self
        6013347187 => Some(Operator::SelfOf),
        // one
        23424623 => Some(Operator::One),
        // top
        24145780 => Some(Operator::Top),
        // bot
        24407906 => Some(Operator::Bot),
        _ => None,
    }
}

// Whether a field is one of the words of expressions.
pub fn reserved(f: &[u8]) -> bool
    ensures { result ≡ reserved_of f.now }
{
    operator(f).is_some()
}

// The declaration or statement that a first word begins.
fn line_form(f: &[u8]) -> Form
    ensures { result ≡ line_form f.now }
{
    let k = crate::code::code(f);
    match k {
        // concept
        104832272098553699 => Form::Concept,
        // role
        5996572530 => Form::Role,
        // item
        6130332777 => Form::Item,
        // in
        93801 => Form::Statement(StatementWord::In),
        // rel
        23881074 => Form::Statement(StatementWord::Rel),
        // same
        5996634483 => Form::Statement(StatementWord::Same),
        // under
        1590838980213 => Form::Statement(StatementWord::Under),
        // runder
        407254778934642 => Form::Statement(StatementWord::RoleUnder),
        _ => Form::Unknown,
    }
}

// The rule that a rule word begins.
fn rule_form(f: &[u8]) -> Form
    ensures { result ≡ rule_form f.now }
{
    let k = crate::code::code(f);
    match k {
        // sub
        23229811 => Form::Rule(RuleWord::Sub),
        // rsub
        5946831730 => Form::Rule(RuleWord::RoleSub),
        // chain
        1573726021731 => Form::Rule(RuleWord::Chain),
        // ref
        23487858 => Form::Rule(RuleWord::Ref),
        // irr
        24277609 => Form::Rule(RuleWord::Irr),
        // dis
        24340836 => Form::Rule(RuleWord::Dis),
        // in
        93801 => Form::Rule(RuleWord::In),
        // rel
        23881074 => Form::Rule(RuleWord::Rel),
        // norel
        1565070094190 => Form::Rule(RuleWord::NoRel),
        // same
        5996634483 => Form::Rule(RuleWord::Same),
        // differ
        407254811961700 => Form::Rule(RuleWord::Differ),
        _ => Form::Unknown,
    }
}

// Whether a field is the word `rule`.
fn is_rule(f: &[u8]) -> bool
    ensures { result ≡ is_rule f.now }
{
    crate::code::code(f) == 5996574066
}

// What a line is, by its word or words.
pub fn form(fields: &Fields) -> Form
    ensures { result ≡ form_of (fields_in fields.now) }
{
    let w = reader::scan::field(fields.line, fields.ends, 0);
    if is_rule(w) {
        if 1 < fields.ends.len() {
            return rule_form(reader::scan::field(fields.line, fields.ends, 1));
        }
        return Form::Bare;
    }
    line_form(w)
}

// How many fields stand before those that are due, also where the rule word is missing; of an unknown word it says nothing.
pub fn words(f: Form) -> usize
    ensures { result ≡ words_of f }
{
    match f {
        Form::Rule(_) | Form::Bare => 2,
        _ => 1,
    }
}

// The section that a line is in; none where its word is unknown.
pub fn section(f: Form) -> Option<Section>
    ensures { result ≡ section_of f }
{
    match f {
        Form::Concept | Form::Role | Form::Item => Some(Section::Declarations),
        Form::Statement(_) => Some(Section::Statements),
        Form::Rule(_) | Form::Bare => Some(Section::Rules),
        Form::Unknown => None,
    }
}
