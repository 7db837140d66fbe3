ghost use Rattle.std.specs.Prelude.{◌≡◌, OnErr};
ghost use Rattle.std.specs.Result.{result_err};
ghost use Rattle.formula.specs.Told.{told};
ghost use Rattle.words.specs.Said.{said};
ghost use Rattle.qdimacs.specs.Reading.{apply as applied, by_layer, in_phase, lacks, nothing, reading, step as stepped};
ghost use Rattle.qdimacs.specs.View.{state_of};

use super::Draft;
use crate::phase::{Fault, MISPLACED, Move, Phase, decide};
use formula::letter::{Letter, Literal};
use formula::matrix::Matrix;
use formula::prefix::Prefix;
use refusal::{Layer, Reason, Refusal};
use words::reader::Words;
use words::token::Token;

pub const MOST_BYTES: usize = 65536;

fn by_layer(layer: Layer, reason: Reason) -> Fault
    ensures { result ≡ by_layer layer reason }
{
    Fault { reason, layer }
}

const TOO_LONG: Refusal = Refusal {
    reason: Reason::TextTooLong,
    layer: Layer::Text,
    place: 0,
};

impl Draft {
    // Nothing is read yet.
    pub fn new() -> Self
        ensures { state_of result ≡ nothing }
    {
        Draft {
            phase: Phase::Start,
            prefix: Prefix::new(),
            matrix: Matrix::new(),
        }
    }

    pub fn prefix(&self) -> &Prefix
        ensures { result.now ≡ self.now.prefix }
    {
        &self.prefix
    }

    pub fn matrix(&self) -> &Matrix
        ensures { result.now ≡ self.now.matrix }
    {
        &self.matrix
    }

    fn clear(&mut self)
        ensures { state_of self.new ≡ nothing }
    {
        self.phase = Phase::Start;
        self.prefix.restart(0);
        self.matrix.restart(0);
    }

    // A literal of the row that is being read, or of a new one.
    fn add(&mut self, literal: Literal) -> Result<(), Fault>
        ensures value { told result (in_phase Phase.Row (state_of self.new)) ≡ applied (state_of self.old) (Move.Add literal) }
        ensures same { OnErr result (state_of self.new ≡ state_of self.old) }
    {
        let in_row = |reason| by_layer(Layer::Row, reason);
        if self.matrix.is_complete() {
            return Err(in_row(Reason::WrongRowCount));
        }
        self.prefix.nameable(literal.variable).map_err(in_row)?;
        self.matrix.add(literal).map_err(in_row)
    }

    // Does the move, and goes into the phase that it leads to; or refuses, and alters nothing.
    fn apply(&mut self, step: Move) -> Result<(), Fault>
        ensures value { told result (state_of self.new) ≡ applied (state_of self.old) step }
        ensures same { OnErr result (state_of self.new ≡ state_of self.old) }
    {
        let in_block = |reason| by_layer(Layer::Block, reason);
        let in_row = |reason| by_layer(Layer::Row, reason);
        self.phase = match step {
            Move::Problem => Phase::Format,
            Move::Format => Phase::Variables,
            Move::Variables(n) => Phase::RowCount(n),
            Move::Head(n, m) => {
                self.prefix.restart(n);
                self.matrix.restart(m);
                Phase::Blocks
            }
            Move::Open(letter) => {
                self.prefix.may_open(letter).map_err(in_block)?;
                Phase::Block(letter)
            }
            Move::Bind(variable) => {
                self.prefix.bind(variable).map_err(in_block)?;
                self.phase
            }
            Move::EndBlock(letter) => {
                self.prefix.end_block(letter).map_err(in_block)?;
                Phase::Blocks
            }
            Move::Add(literal) => {
                self.add(literal)?;
                Phase::Row
            }
            Move::EndRow => {
                self.matrix.end_row().map_err(in_row)?;
                Phase::Rows
            }
        };
        Ok(())
    }

    // One word more.
    fn take(&mut self, token: Token<'_>) -> Result<(), Fault>
        ensures value { told result (state_of self.new) ≡ stepped (state_of self.old) (said token.entry) }
        ensures same { OnErr result (state_of self.new ≡ state_of self.old) }
    {
        let step = decide(self.phase, token)?;
        self.apply(step)
    }

    // Whether the text may end here, and what is wrong where it may not.
    fn ended(&self) -> Result<(), Fault>
        ensures { result_err result ≡ lacks (state_of self.now) }
    {
        match self.phase {
            Phase::Blocks | Phase::Rows if self.matrix.is_complete() => Ok(()),
            Phase::Blocks | Phase::Rows => Err(by_layer(Layer::Row, Reason::WrongRowCount)),
            _ => Err(MISPLACED),
        }
    }

    // Reads a text, from nothing. A refused text leaves what was complete before.
    pub fn read(&mut self, text: &[u8]) -> Result<(), Refusal>
        ensures left { state_of self.new ≡ (reading text.now).left }
        ensures refusal { result_err result ≡ (reading text.now).refusal }
    {
        self.clear();
        if text.len() > MOST_BYTES {
            return Err(TOO_LONG);
        }
        for (place, token) in Words::after_comments(text) {
            self.take(token).map_err(|fault| fault.at(place))?;
        }
        self.ended().map_err(|fault| fault.at(text.len()))
    }
}
