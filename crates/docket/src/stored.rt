// A step as it lies in memory.
use game::record::Origin;

// How the step came, and where its record ends among the marks of all steps; it begins where the record of the step before ends.
#[derive(Clone, Copy, Debug, PartialEq)]
pub struct StoredStep {
    pub origin: Origin,
    pub end: usize,
}
