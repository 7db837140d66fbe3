// The theorems: each function does nothing, and its contract is a theorem. docs/GAME.md tells how they hang together.
ghost use Rattle.game.specs.Examples.{Examples};
ghost use Rattle.game.specs.Functions.{RulesAgree};
ghost use Rattle.game.specs.Grounds.{EmptyRecordWins, GroundsRight, NeverBoth};
ghost use Rattle.game.specs.Prefix.{PrefixOrdered};
ghost use Rattle.game.specs.Steps.{StepsEnter};
ghost use Rattle.game.specs.Theorems.{Dependence, DownToALeaf, EntriesFound, Growth, OwnSideWins, PhasesLookBack, PlayedOut, RepliesLookBack, ResolveGoesDown, TailInWords, WitnessInWords};

// The functions of the rules answer a record exactly where the rules, variable by variable, allow it.
pub fn rules_agree()
    ensures { RulesAgree }
{}

// In a rising record each entry's mark is the one that is found.
pub fn entries_found()
    ensures { EntriesFound }
{}

// The tail of a record in words, and that it is above the base.
pub fn tail_in_words()
    ensures { TailInWords }
{}

// The order of a prefix goes level by level and has all bound variables, for either side.
pub fn prefix_ordered()
    ensures { PrefixOrdered }
{}

// The phase of a variable depends only on the values of variables at lower levels.
pub fn phases_look_back()
    ensures { PhasesLookBack }
{}

// The reply to a variable, value and step, depends only on the values of variables at lower levels.
pub fn replies_look_back()
    ensures { RepliesLookBack }
{}

// A resolve whose record is met has a parent whose record is met: the one whose pivot literal is.
pub fn resolve_goes_down()
    ensures { ResolveGoesDown }
{}

// A full play that follows the replies under a verdict meets a leaf step up to it.
pub fn down_to_a_leaf()
    ensures { DownToALeaf }
{}

// Where a leaf step is met, the witness is the lowest such.
pub fn witness_in_words()
    ensures { WitnessInWords }
{}

// With a law, a finished play in which own side gave the replies is won.
pub fn played_out()
    ensures { PlayedOut }
{}

// With a law, a derivation with an empty record shows that own side wins.
pub fn own_side_wins()
    ensures { OwnSideWins }
{}

// The reply to a variable depends only on the opponent's choices at lower levels.
pub fn replies_depend()
    ensures { Dependence }
{}

// What holds of a derivation holds on when steps come behind it.
pub fn derivations_grow()
    ensures { Growth }
{}

// Steps that the rules allow leave a derivation over the ground, in which the marks of each step are a record.
pub fn steps_enter()
    ensures { StepsEnter }
{}

// A derivation with an empty record over a ground that keeps the law shows that own side wins the formula's game, and every play
// in which it gives the replies ends won, with a witness.
pub fn empty_record_wins()
    ensures { EmptyRecordWins }
{}

// The clause ground and the cube ground keep the law, so an empty record shows FALSE over the one and TRUE over the other.
pub fn grounds_right()
    ensures { GroundsRight }
{}

// No formula is both FALSE and TRUE.
pub fn never_both()
    ensures { NeverBoth }
{}

// Worked examples, by computation.
pub fn worked_examples()
    ensures { Examples }
{}
