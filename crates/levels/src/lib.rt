//! Levels: grounds, reductions, and the piles that they make.
#![tactic(auto)]

pub mod level;
pub mod pile;
pub mod reduction;

pub use level::{Ground, Level};
pub use pile::{KernelSize, Pile};
pub use reduction::Reduction;
pub use refusals::Refusal;
