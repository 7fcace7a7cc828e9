// One look at a line, and the reader that takes it: where the line ends, where its fields end, and whether its bytes may stand there.
#![tactic(auto)]

pub mod line;
pub mod scan;
