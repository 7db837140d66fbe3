// A formula as far as it is read.
mod reading;

use crate::phase::Phase;
use formula::matrix::Matrix;
use formula::prefix::Prefix;

// What is due, and prefix and matrix with the block or row that is being read.
#[derive(Drop)]
pub struct Draft {
    phase: Phase,
    prefix: Prefix,
    matrix: Matrix,
}
