// What breaks a rule in a closed store, row by row: the parts of `judge`, which counts and seeks the findings.
#![tactic(auto)]

pub mod breaking;

use row::Row;
use rule::Head;

// What is kept of a rule while its findings are sought: its head, and the rows of what its roots hold of.
#[derive(Clone, Copy)]
pub struct Plan {
    pub head: Head,
    pub left: Row,
    pub right: Row,
}
