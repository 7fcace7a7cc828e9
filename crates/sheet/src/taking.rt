ghost use Rattle.std.specs.Prelude.{◌≡◌, false, ◌+◌, ◌≤◌, ◌<◌, length, replicate};
ghost use Rattle.reader.specs.own.Scan.{start_by};
ghost use Rattle.store.specs.Cell.{Within, cell_of};
ghost use Rattle.store.specs.Layout.{Fits, large, size};
ghost use Rattle.store.specs.own.Laid.{Laid};
ghost use Rattle.field.specs.Due.{none};
ghost use Rattle.line.specs.Fault.{begun, rule_limit};
ghost use Rattle.line.specs.own.Number.{found};
ghost use Rattle.sheet.specs.own.Stands.{Adding, Begins, Came, Comes, Declaration, Standing, TakenOther, TakesOther, one_rule, one_stated};
ghost use Rattle.field.specs.own.Table.{Noted, concepts_from, entry_of, hint_at, number_count, place_count, table_of};
ghost use Rattle.field.specs.own.Known.{fields_in};
ghost use Rattle.field.specs.Words.{at as field_of};

use crate::{Kept, LineRead};
use field::known::{Fields, Known};
use field::{Form, Table};
use line::Marks;
use store::{Layout, Statement};

// Adds a statement to the store, which is made fresh by the first one.
fn add(words: &mut [u64], at: Layout, k: Kept, s: Statement) -> Kept
    requires { Standing at.width k words.old × Within k.counts (cell_of s) × Laid at words.old }
    ensures { (result ≡ one_stated k) × Adding at.width (begun k.marks) k.counts s words.old words.new }
{
    crate::keeping::begin(words, at, k.counts, k.marks);
    crate::keeping::state(words, at, k.counts, s);
    Kept {
        counts: k.counts,
        marks: Marks {
            stated: true,
            rules: k.marks.rules,
        },
    }
}

// Takes a rule: the store is made fresh by the first one, and there is one rule more.
fn take_rule(words: &mut [u64], at: Layout, k: Kept) -> Kept
    requires { (begun k.marks ≡ false → words.old ≡ replicate (size at.width) 0) × Fits at.width k.counts × (k.marks.rules < rule_limit) × Laid at words.old }
    ensures { (result ≡ one_rule k) × Begins at.width (begun k.marks) k.counts words.old words.new }
{
    crate::keeping::begin(words, at, k.counts, k.marks);
    Kept {
        counts: k.counts,
        marks: Marks {
            stated: k.marks.stated,
            rules: k.marks.rules + 1,
        },
    }
}

// Notes the name that a declaration declares, as the one after n others whose entries begin at `from`; the line starts at a place of the sheet.
fn declare(names: &mut [u32], from: usize, n: usize, start: usize, fields: &Fields)
    requires { (from + n < length names.old) × (from + n < number_count large) × Declaration fields.now.line.now × (start + length fields.now.line.now < place_count) × (concepts_from ≤ from) }
    ensures { Noted names.old (from + n) (entry_of (field_of 1 (fields_in fields.now)) (start + start_by 0 fields.now.ends.now 1)) (hint_at from (field_of 1 (fields_in fields.now))) names.new }
{
    let place = start + reader::scan::start(fields.ends, 1);
    field::tables::note(
        names,
        from,
        n,
        place,
        reader::scan::field(fields.line, fields.ends, 1),
    );
}

// Takes a line that is not empty and no statement, and has no fault; it starts at a place of a sheet.
fn take_form(
    words: &mut [u64],
    at: Layout,
    names: &mut [u32],
    k: Kept,
    start: usize,
    fields: &Fields,
) -> Kept
    requires { TakesOther at.width (table_of names.old k.counts) k.marks words.old start fields.now.line.now × (none fields.now.line.now ≡ false) × Laid at words.old }
    ensures { TakenOther at.width (table_of names.old k.counts) k.marks words.old start fields.now.line.now (table_of names.new result.counts) result.marks words.new }
{
    let mut counts = k.counts;
    let marks = k.marks;
    match field::words::form(fields) {
        Form::Concept => {
            declare(names, Table::CONCEPTS, counts.concepts, start, fields);
            counts.concepts += 1;
            Kept { counts, marks }
        }
        Form::Role => {
            declare(names, Table::ROLES, counts.roles, start, fields);
            counts.roles += 1;
            Kept { counts, marks }
        }
        Form::Item => {
            declare(names, Table::ITEMS, counts.items, start, fields);
            counts.items += 1;
            Kept { counts, marks }
        }
        Form::Rule(_) => take_rule(words, at, k),
        _ => k,
    }
}

// Takes a line without a fault that is no statement; it starts at a place of a sheet.
fn take(
    words: &mut [u64],
    at: Layout,
    names: &mut [u32],
    k: Kept,
    start: usize,
    fields: &Fields,
) -> Kept
    requires { TakesOther at.width (table_of names.old k.counts) k.marks words.old start fields.now.line.now × Laid at words.old }
    ensures { TakenOther at.width (table_of names.old k.counts) k.marks words.old start fields.now.line.now (table_of names.new result.counts) result.marks words.new }
{
    if fields.line.is_empty() {
        return k;
    }
    take_form(words, at, names, k, start, fields)
}

// Reads a line, which starts at a place of the sheet: takes it, if it has no fault.
pub fn read(
    sheet: &[u8],
    words: &mut [u64],
    at: Layout,
    names: &mut [u32],
    k: Kept,
    start: usize,
    line: &[u8],
    good: bool,
    ends: &[u16],
) -> LineRead
    requires { Comes at.width sheet.now (table_of names.old k.counts) k.marks words.old start line.now good ends.now × Laid at words.old }
    ensures { Came at.width sheet.now (table_of names.old k.counts) k.marks words.old line.now (found result.taken) (table_of names.new result.kept.counts) result.kept.marks words.new }
{
    let known = Known {
        sheet,
        numbers: names,
        counts: k.counts,
    };
    if let Some(s) = quick::statement_in(&known, k.marks, line, good, ends) {
        let kept = add(words, at, k, s);
        return LineRead {
            taken: Ok(()),
            kept,
        };
    }
    let taken = line::lines::line_fault(&known, k.marks, line, good, ends);
    if taken.is_err() {
        return LineRead { taken, kept: k };
    }
    let kept = take(words, at, names, k, start, &Fields { line, ends });
    LineRead { taken, kept }
}
