// Lines of a sheet, read forwards from an index: keywords, numbers and roots.
#![tactic(auto)]

pub mod ends;
pub mod keyword;
pub mod number;
pub mod root;
pub mod row;
