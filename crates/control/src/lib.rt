//! Control files as grounds: the names in their stanzas become numbers of components.
#![tactic(auto)]

pub mod file;
mod resolve;

pub use file::ControlFile;
