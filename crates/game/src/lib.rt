// The game that a quantified Boolean formula is, the records and steps of long-distance Q-resolution, and why a step with an
// empty record shows that a side wins. The types are used by the checker; the rest is definitions and theorems.
#![tactic(auto)]

pub mod record;
pub mod theorems;
