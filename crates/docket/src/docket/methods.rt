ghost use Rattle.std.specs.Prelude.{◌≡◌, suc, ◌+◌, ◌<◌, ◌≤◌, [], ◌∷◌, length, take, true, false, MatchOption, MatchResult, OnOk};
ghost use Rattle.table.specs.Entries.{entries, free, Grown};
ghost use Rattle.qdimacs.specs.Kept.{sealed_formula};
ghost use Rattle.calls.specs.Tests.{refused_by};
ghost use Rattle.game.specs.Rules.{marks_of};
ghost use Rattle.game.specs.Plays.{is_empty, lowest_empty};
ghost use Rattle.calls.specs.Dockets.{close, opened, same_size};
ghost use Rattle.calls.specs.Runs.{Reached};
ghost use Rattle.calls.specs.Assured.{VerdictRight};
ghost use Rattle.formula.specs.Cuts.{last_end};
ghost use Rattle.docket.specs.Checks.{checked, room_for};
ghost use Rattle.docket.specs.Models.{docket_of, Leafed, LieBoth, Lies, Memory, numbered, Reduced, Resolved};
ghost use Rattle.docket.specs.Stored.{step_end};

use super::{Docket, Verdict};
use crate::leaves::append_leaf;
use crate::parents::Parents;
use crate::refusing::{check, refused};
use crate::side::Side;
use crate::stored::StoredStep;
use crate::tails::Cut;
use formula::letter::Literal;
use game::record::{Entry, Origin};
use ground::Ground;
use ground::leaves::{all_bound, rises};
use qdimacs::Sealed;
use refusal::{Layer, Reason, Refusal};
use table::{Span, Table};

// Stores a step whose record ends at `end`, and tells its number. It takes the steps and not their docket, whose invariant does not hold
// while the record's marks are in and the step is not.
fn enter(steps: &mut Table<StoredStep>, origin: Origin, end: usize) -> u32
    requires room { 0 < length (free steps.old) }
    requires few { length (entries steps.old) + length (free steps.old) ≤ 4096 }
    ensures stored { Grown steps.old (record { origin = origin; end = end } ∷ []) steps.new }
    ensures number { result ≡ length (entries steps.old) + 1 }
{
    let place = steps.push(StoredStep { origin, end }).unwrap();
    // at most 4,096, so the cast loses nothing
    place as u32 + 1
}

impl Verdict {
    // The number of the step that has the empty record.
    pub fn step(self) -> u32
        ensures { result ≡ self.step }
    {
        let Verdict { step } = self;
        step
    }
}

impl<'a> Docket<'a> {
    pub const MOST_STEPS: usize = 4096;

    pub const MOST_MARKS: usize = 16384;

    // A new docket, without steps, for formulas of n variables, on memory of any length.
    pub fn open(n: usize, steps: &'a mut [StoredStep], marks: &'a mut [Entry]) -> Docket<'a>
        ensures new { docket_of result ≡ opened n (length steps.old) (length marks.old) }
        ensures free_steps { free result.steps ≡ take 4096 steps.old }
        ensures free_marks { free result.marks ≡ take 16384 marks.old }
    {
        Docket {
            n,
            steps: Table::new(steps, Self::MOST_STEPS),
            marks: Table::new(marks, Self::MOST_MARKS),
        }
    }

    // Refuses where formula, ground and docket do not have the same n.
    fn check_sizes<G: Ground>(&self, formula: &Sealed<'_>, own_ground: &G) -> Result<(), Refusal>
        ensures { let same = same_size (sealed_formula formula.now) (G.Ground.meaning own_ground.now) (docket_of self.now) in
            MatchResult result (λ _. same ≡ true) (λ e. (same ≡ false) × (e ≡ refused_by Layer.Docket Reason.SizesDiffer)) }
    {
        let same = self.n == formula.variables() && self.n == own_ground.variables();
        check(same, Layer::Docket, Reason::SizesDiffer)
    }

    // Refuses where no further step fits, or not so many further marks.
    #[tactic(auto, using(crate::proofs::Rooms::step_fits, crate::proofs::Rooms::marks_fit))]
    fn check_room(&self, layer: Layer, count: usize) -> Result<(), Refusal>
        ensures answer { result ≡ checked (room_for layer (docket_of self.now) count) }
        ensures room { OnOk result ((0 < length (free self.now.steps)) × (count ≤ length (free self.now.marks))) }
    {
        check(!self.steps.is_full(), layer, Reason::StepsFull)?;
        check(count <= self.marks.room(), layer, Reason::MarksFull)
    }

    // Where the record of the step at this place begins among the marks: where that of the step before ends.
    #[tactic(auto, using(formula::proofs::Parts::last_or))]
    fn start_of(&self, place: usize) -> usize
        requires { place ≤ length (entries self.now.steps) }
        ensures { result ≡ last_end step_end 0 (take place (entries self.now.steps)) }
    {
        self.steps.as_slice()[..place]
            .last()
            .map_or(0, |step| step.end)
    }

    // Where the record of a step lies among the marks, if there is a step of this number.
    #[tactic(auto, using(std::proofs::lemmas::Option::slice_get_within, crate::proofs::Spans::lies_none))]
    fn span_of(&self, step: u32) -> Option<Span>
        ensures { Lies self.now step result }
    {
        let place = (step as usize).checked_sub(1)?;
        let to = self.steps.get(place)?.end;
        let from = self.start_of(place);
        Some(Span { from, to })
    }

    // Where the records of two steps lie, if there are steps of both numbers.
    fn spans_of(&self, first: u32, second: u32) -> Option<(Span, Span)>
        ensures { LieBoth self.now first second result }
    {
        Some((self.span_of(first)?, self.span_of(second)?))
    }

    // Enters a leaf that the ground admits, and tells its number; or refuses, and alters nothing.
    pub fn leaf<G: Ground>(
        &mut self,
        formula: &Sealed<'_>,
        own_ground: &G,
        literals: &[Literal],
    ) -> Result<u32, Refusal>
        ensures answer { Leafed (sealed_formula formula.now) (G.Ground.meaning own_ground.now) literals.now (docket_of self.old) result (docket_of self.new) }
        ensures memory { Memory self.old result self.new }
    {
        self.check_sizes(formula, own_ground)?;
        check(
            all_bound(formula, literals),
            Layer::Leaf,
            Reason::LeafUnbound,
        )?;
        check(rises(literals), Layer::Leaf, Reason::NotRising)?;
        check(own_ground.admit(literals), Layer::Leaf, Reason::NotAdmitted)?;
        self.check_room(Layer::Leaf, literals.len())?;
        append_leaf(&mut self.marks, literals);
        let end = self.marks.len();
        Ok(enter(&mut self.steps, Origin::Leaf, end))
    }

    // Enters what two parents come to, resolved on the pivot, and tells the step's number; or refuses, and alters nothing.
    pub fn resolve<G: Ground>(
        &mut self,
        formula: &Sealed<'_>,
        own_ground: &G,
        pivot: u32,
        first: u32,
        second: u32,
    ) -> Result<u32, Refusal>
        ensures answer { Resolved (sealed_formula formula.now) (G.Ground.meaning own_ground.now) pivot first second (docket_of self.old) result (docket_of self.new) }
        ensures memory { Memory self.old result self.new }
    {
        self.check_sizes(formula, own_ground)?;
        let spans = self
            .spans_of(first, second)
            .ok_or(refused(Layer::Resolve, Reason::NotEarlier))?;
        let marks = self.marks.as_slice();
        let parents = Parents {
            side: Side::of(formula, own_ground),
            pivot,
            first: spans.0.of(marks),
            second: spans.1.of(marks),
        };
        parents.check()?;
        self.check_room(Layer::Resolve, parents.resolved_len())?;
        self.marks.append_joined(pivot, spans.0, spans.1);
        let end = self.marks.len();
        let origin = Origin::Resolve {
            pivot,
            first,
            second,
        };
        Ok(enter(&mut self.steps, origin, end))
    }

    // Enters the parent's record without its tail, and tells the step's number; or refuses, and alters nothing.
    pub fn reduce<G: Ground>(
        &mut self,
        formula: &Sealed<'_>,
        own_ground: &G,
        parent: u32,
    ) -> Result<u32, Refusal>
        ensures answer { Reduced (sealed_formula formula.now) (G.Ground.meaning own_ground.now) parent (docket_of self.old) result (docket_of self.new) }
        ensures memory { Memory self.old result self.new }
    {
        self.check_sizes(formula, own_ground)?;
        let span = self
            .span_of(parent)
            .ok_or(refused(Layer::Reduce, Reason::NotEarlier))?;
        let record = span.of(self.marks.as_slice());
        let cut = Cut::of(Side::of(formula, own_ground), record);
        let stay = cut.kept_len(record);
        check(stay < record.len(), Layer::Reduce, Reason::EmptyTail)?;
        self.check_room(Layer::Reduce, stay)?;
        self.marks
            .append_kept(span, |entry| cut.keeps(entry.variable));
        let end = self.marks.len();
        Ok(enter(&mut self.steps, Origin::Reduce { parent }, end))
    }

    // Whether the record of the step at this place is empty.
    #[tactic(auto, using(crate::proofs::Closing::empty_at))]
    fn is_empty_at(&self, place: usize) -> bool
        requires { place < length (entries self.now.steps) }
        ensures { result ≡ is_empty (marks_of (docket_of self.now).steps (suc place)) }
    {
        self.start_of(place) == self.steps.as_slice()[place].end
    }

    // The number of the lowest step with an empty record, if there is one.
    fn lowest_empty(&self) -> Option<u32>
        ensures { MatchOption result (lowest_empty (docket_of self.now).steps ≡ 0) (λ k. (0 < k) × (lowest_empty (docket_of self.now).steps ≡ k)) }
    {
        let place = (0..self.steps.len()).find(|place| self.is_empty_at(*place))?;
        // at most 4,096, so the cast loses nothing
        Some(place as u32 + 1)
    }

    // The lowest step with an empty record, or a refusal. Apart from `close`, so that the answer is proved once, path by path, and then said twice.
    fn lowest_verdict<G: Ground>(
        &self,
        formula: &Sealed<'_>,
        own_ground: &G,
    ) -> Result<Verdict, Refusal>
        ensures { (numbered result, docket_of self.now) ≡ close (sealed_formula formula.now) (G.Ground.meaning own_ground.now) (docket_of self.now) }
    {
        self.check_sizes(formula, own_ground)?;
        let step = self
            .lowest_empty()
            .ok_or(refused(Layer::Close, Reason::NoEmptyRecord))?;
        Ok(Verdict { step })
    }

    // Gives the verdict, the lowest step with an empty record, or refuses; the docket may grow on. Where the docket was new and only
    // these calls acted upon it, each with this formula and its ground, a verdict shows that own side wins.
    pub fn close<G: Ground>(&self, formula: &Sealed<'_>, own_ground: &G) -> Result<Verdict, Refusal>
        ensures answer { (numbered result, docket_of self.now) ≡ close (sealed_formula formula.now) (G.Ground.meaning own_ground.now) (docket_of self.now) }
        ensures verdict { sealed_formula formula.now ≡ (G.Ground.meaning own_ground.now).formula → Reached (G.Ground.meaning own_ground.now) (docket_of self.now) → VerdictRight (G.Ground.meaning own_ground.now) (docket_of self.now) (numbered result) }
    {
        self.lowest_verdict(formula, own_ground)
    }
}
