ghost use Rattle.std.specs.Prelude.{◌≡◌, ◌≤◌, ltb, length, drop};
ghost use Rattle.text.specs.Bytes.{every};
ghost use Rattle.text.specs.Name.{line_byte};
ghost use Rattle.rule.specs.Form.{node_limit};
ghost use Rattle.field.specs.Names.{fault};
ghost use Rattle.line.specs.Fault.{ended as ended_by, fields_fault, form_fault, full as full_by, headed as headed_by, header_fault, is_second, line_fault, line_limit, room_by, unknown as unknown_by};
ghost use Rattle.field.specs.own.Known.{fields_in, names_in};
ghost use Rattle.line.specs.own.Number.{found};
ghost use Rattle.field.specs.Words.{body_of, form_of};
ghost use Rattle.field.specs.own.Line.{Looked, words_of};

use crate::{Fault, Marks, Sheet};
use field::known::{Fields, Known};
use field::{Form, Section};
use rule::Rule;
use store::Store;

// Whether the section has ended.
fn ended(m: Marks, s: Option<Section>) -> bool
    ensures { result ≡ ended_by m s }
{
    match s {
        Some(Section::Declarations) => m.stated || 0 < m.rules,
        Some(Section::Statements) => 0 < m.rules,
        _ => false,
    }
}

// Whether the word of the section is unknown.
fn unknown(s: Option<Section>) -> bool
    ensures { result ≡ unknown_by s }
{
    s.is_none()
}

// Whether there is no room for one more rule.
fn full(m: Marks, s: Option<Section>) -> bool
    ensures { result ≡ full_by m s }
{
    matches!(s, Some(Section::Rules)) && Sheet::RULES <= m.rules
}

// What is wrong with the room for rules, or with so many nodes.
fn size_fault(filled: bool, nodes: usize) -> Result<(), Fault>
    ensures { found result ≡ fault filled 18 (fault (ltb node_limit nodes) 21 0) }
{
    if filled {
        return Err(Fault::Room);
    }
    if Rule::NODES < nodes {
        return Err(Fault::Nodes);
    }
    Ok(())
}

// What is wrong with the fields of a line of the form given, after its word or words.
#[tactic(auto, unfolding(crate::specs::Fault::fields_fault))]
fn fields_fault(known: &Known, m: Marks, fields: &Fields, f: Form) -> Result<(), Fault>
    requires { length fields.now.line.now ≤ line_limit }
    ensures { found result ≡ fields_fault (names_in known.now) m f (drop (words_of f) (fields_in fields.now)) }
{
    let from = field::words::words(f);
    let l = due::dues::lineup(f, fields.ends.len().saturating_sub(from));
    let w = crate::walk::walk(known, fields, from, l);
    if !w.fits {
        return Err(Fault::Fields);
    }
    let filled = full(m, field::words::section(f));
    crate::faults::lower(w.fault, size_fault(filled, w.nodes))
}

// What is wrong with a line, by its form.
#[tactic(auto, unfolding(crate::specs::Fault::form_fault))]
fn form_fault(known: &Known, m: Marks, fields: &Fields) -> Result<(), Fault>
    requires { length fields.now.line.now ≤ line_limit }
    ensures { found result ≡ form_fault (names_in known.now) m (form_of (fields_in fields.now)) (body_of (fields_in fields.now)) }
{
    let f = field::words::form(fields);
    let s = field::words::section(f);
    if unknown(s) {
        return Err(Fault::Word);
    }
    if ended(m, s) {
        return Err(Fault::Ended);
    }
    fields_fault(known, m, fields, f)
}

// What is wrong with a line after the first, whose bytes are good or not, and which was looked at if it is not too long: the lowest fault that applies, if there is one.
#[tactic(auto, unfolding(crate::specs::Fault::line_fault))]
pub fn line_fault(
    known: &Known,
    m: Marks,
    line: &[u8],
    good: bool,
    ends: &[u16],
) -> Result<(), Fault>
    requires { (good ≡ every line_byte line.now) × (length line.now ≤ line_limit → Looked line.now ends.now) }
    ensures { found result ≡ line_fault (names_in known.now) m line.now }
{
    if line.is_empty() {
        return Ok(());
    }
    if Sheet::LINE < line.len() || !good {
        return Err(Fault::Bytes);
    }
    form_fault(known, m, &Fields { line, ends })
}

// Whether line 1 is the header of edition 2.
fn second(line: &[u8]) -> bool
    ensures { result ≡ is_second line.now }
{
    text::part::same(line, b"sheet\t2")
}

// Whether line 1 is a header that a store with item rows of so many words takes.
fn headed(width: usize, line: &[u8]) -> bool
    ensures { result ≡ headed_by width line.now }
{
    text::part::same(line, b"sheet\t1") || second(line) && Store::LARGE <= width
}

// The most items of a sheet, by its line 1: those of its edition.
#[tactic(auto, unfolding(crate::specs::Fault::room_by))]
pub fn item_room(line: &[u8]) -> usize
    ensures { result ≡ room_by line.now }
{
    if second(line) {
        Store::LARGE_ITEMS
    } else {
        Store::ITEMS
    }
}

// What is wrong with line 1, with a store with item rows of so many words.
#[tactic(auto, unfolding(crate::specs::Fault::header_fault))]
pub fn header_fault(width: usize, line: &[u8]) -> Result<(), Fault>
    ensures { found result ≡ header_fault width line.now }
{
    if Sheet::LINE < line.len() || !text::name::line_bytes(line) {
        return Err(Fault::Bytes);
    }
    if !headed(width, line) {
        return Err(Fault::Header);
    }
    Ok(())
}
