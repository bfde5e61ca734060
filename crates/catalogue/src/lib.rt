//! Catalogues: an open one is filled by calls, a closed one is a ground.
#![tactic(auto)]

pub mod closed;
pub mod opened;
pub mod records;

pub use closed::ClosedCatalogue;
pub use opened::OpenCatalogue;
