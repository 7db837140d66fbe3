// What each call on a docket answers and leaves, as definitions, and what is assured of every docket that the calls lead to. The
// functions here do nothing, and the contract of each is a theorem; the calls themselves are code of the crate `docket`.
#![tactic(auto)]

ghost use Rattle.calls.specs.Assured.{DocketsAssured};
ghost use Rattle.calls.specs.Exact.{StepsExact};
ghost use Rattle.calls.specs.Examples.{StepExamples};

// A step is accepted exactly when the rules allow it and the tables hold it; every call is refused exactly by its tests.
pub fn steps_exact()
    ensures { StepsExact }
{}

// The steps of every docket that calls lead to are a derivation, within its room, and a verdict of it is right.
pub fn dockets_assured()
    ensures { DocketsAssured }
{}

// Worked examples, step by step through the calls' definitions.
pub fn step_examples()
    ensures { StepExamples }
{}
