// A docket on the caller's memory: the steps of a trace are checked and entered one by one, and close gives the verdict.
#![tactic(auto)]

mod docket;
mod leaves;
mod look;
mod parents;
mod refusing;
mod side;
mod stored;
mod tails;

pub use docket::{Docket, Verdict};
pub use stored::StoredStep;
