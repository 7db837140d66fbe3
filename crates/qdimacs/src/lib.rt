// Reads a formula from its text.
#![tactic(auto)]

mod draft;
mod phase;
pub mod sealed;

pub use sealed::{Formula, Sealed};
