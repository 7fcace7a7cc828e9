// What is printed of a sheet: its rules, their findings, the text.
#![tactic(auto)]

pub mod page;

// What is printed of a sheet.
#[derive(Drop)]
pub struct Report {}

impl Report {
    // Bytes that suffice for the text of any sheet, with the smaller store and with the larger.
    pub const BYTES: usize = 12814;

    pub const LARGE_BYTES: usize = 12815;
}
