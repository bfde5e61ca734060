//! Bytes, stretches of a text, and what can be wrong with one.
#![tactic(auto)]

pub mod bytes;
pub mod faults;
pub mod spans;

pub use faults::{Fault, Layer, ReadError, RefusedLine};
pub use spans::{Span, find};
