// Grounds: what a derivation may start from, and which finished plays are won.
#![tactic(auto)]

pub mod clauses;
pub mod cubes;
pub mod ground;
pub mod leaves;
mod plays;
mod rows;
mod signs;
pub mod whole;

pub use clauses::Clauses;
pub use cubes::Cubes;
pub use ground::{Ground, JudgingGround};
