//! Sheets: which components there are, what each needs, what it conflicts with, and which can stand together.
#![tactic(auto)]

pub mod clause;
pub mod sheet;

pub use clause::Clause;
pub use sheet::Sheet;
