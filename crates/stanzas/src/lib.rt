//! Reads a control file up to what its stanzas say: names, clauses and conflicts, still by name.
#![tactic(auto)]

mod cursor;
pub mod lines;
pub mod notes;
#[cfg(test)]
mod tests;

pub use notes::{Clash, Need, Notes, OpenNotes};
