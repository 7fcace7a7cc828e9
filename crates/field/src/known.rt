ghost use Rattle.field.specs.own.Line.{Looked};
ghost use Rattle.field.specs.own.Table.{Tidy, table_of};
ghost use Rattle.field.specs.laws.Proposition.{tidy-prop};

use store::Counts;

// What is known of the names of a sheet: the sheet, the numbers lent for its names, and how many names are declared.
#[derive(Clone, Copy)]
pub struct Known<'a> {
    pub sheet: &'a [u8],
    pub numbers: &'a [u32],
    pub counts: Counts,
    ghost tidy: { Tidy sheet.now (table_of numbers.now counts) } by { tidy-prop sheet.now (table_of numbers.now counts) },
}

// A line that was looked at: its bytes, and where its fields end.
#[derive(Clone, Copy)]
pub struct Fields<'a> {
    pub line: &'a [u8],
    pub ends: &'a [u16],
    ghost looked: { Looked line.now ends.now },
}
