// The parts of a quantified Boolean formula, each with room of its own: the prefix of blocks, and the rows of literals.
#![tactic(auto)]

pub mod letter;
pub mod limits;
pub mod matrix;
pub mod prefix;
mod sections;
