ghost use Rattle.std.specs.Prelude.{◌≡◌, true, false, length, is_some, IfSome, is_ok};
ghost use Rattle.std.specs.Option.{option_map};
ghost use Rattle.std.specs.Result.{result_err};
ghost use Rattle.std.specs.List.{slice_get};
ghost use Rattle.formula.specs.Formula.{WellFormed};
ghost use Rattle.formula.specs.Matrix.{all_literals};
ghost use Rattle.formula.specs.Prefix.{level as level_of, order as prefix_order, owner as owner_of};
ghost use Rattle.qdimacs.specs.Grammar.{Exact};
ghost use Rattle.qdimacs.specs.Refused.{Stopped};
ghost use Rattle.qdimacs.specs.Reading.{left_formula, nothing, reading};
ghost use Rattle.qdimacs.specs.Kept.{formula_of, sealed_formula};

use super::{Formula, Sealed};
use crate::draft::Draft;
use formula::letter::{Letter, Literal};
use refusal::Refusal;

impl Formula {
    // A formula of which nothing is read.
    pub fn new() -> Self
        ensures empty { formula_of result ≡ left_formula nothing }
        ensures unsealed { result.sealed ≡ false }
    {
        Formula {
            draft: Draft::new(),
            sealed: false,
        }
    }

    // Reads a text, from nothing, and seals the formula if the text is accepted.
    // A refused text leaves the head, the blocks and the rows that were complete before the refusal, and no seal.
    pub fn read(&mut self, text: &[u8]) -> Result<(), Refusal>
        ensures exact { Exact text.now result (formula_of self.new) }
        ensures stops { Stopped text.now result (reading text.now).left }
        ensures left { formula_of self.new ≡ left_formula (reading text.now).left }
        ensures refusal { result_err result ≡ (reading text.now).refusal }
        ensures seal { self.new.sealed ≡ is_ok result }
    {
        self.sealed = false;
        let read = self.draft.read(text);
        self.sealed = read.is_ok();
        read
    }

    // The sealed formula, if the last reading was accepted.
    pub fn sealed(&self) -> Option<Sealed<'_>>
        ensures test { is_some result ≡ self.now.sealed }
        ensures same { IfSome result (λ s. sealed_formula s ≡ formula_of self.now) }
        ensures well { IfSome result (λ s. WellFormed (sealed_formula s)) }
    {
        if self.sealed {
            Some(Sealed { formula: self })
        } else {
            None
        }
    }
}

// The look-ups of a sealed formula, each in constant time. They hand on what prefix and matrix tell, and no plainer form stands for them: to
// hand out prefix and matrix would show what may still be begun in them, and ask of each caller to tie the two to the sealed formula.
impl<'a> Sealed<'a> {
    // n: the variables are numbered 1 to n.
    pub fn variables(&self) -> usize
        ensures { result ≡ (sealed_formula self.now).size }
    {
        self.formula.draft.prefix().variables()
    }

    // How many blocks the prefix has.
    pub fn blocks(&self) -> usize
        ensures { result ≡ length (sealed_formula self.now).blocks }
    {
        self.formula.draft.prefix().blocks()
    }

    // A variable's level, the place of its block from 1; 0 where it is unbound: a number for the rules to compare, as in the prefix.
    pub fn level(&self, variable: u32) -> usize
        ensures { result ≡ level_of (sealed_formula self.now).blocks variable }
    {
        self.formula.draft.prefix().level(variable)
    }

    // The letter of a variable's block; none where it is unbound.
    pub fn owner(&self, variable: u32) -> Option<Letter>
        ensures { result ≡ owner_of (sealed_formula self.now).blocks variable }
    {
        self.formula.draft.prefix().owner(variable)
    }

    // How many variables are bound.
    pub fn order_len(&self) -> usize
        ensures { result ≡ length (prefix_order (sealed_formula self.now).blocks) }
    {
        self.formula.draft.prefix().order_len()
    }

    // The variable at place i of the prefix order, counted from 0.
    pub fn order_at(&self, i: usize) -> Option<u32>
        ensures { result ≡ slice_get (prefix_order (sealed_formula self.now).blocks) i }
    {
        self.formula.draft.prefix().order_at(i)
    }

    // How many rows there are.
    pub fn rows(&self) -> usize
        ensures { result ≡ length (sealed_formula self.now).rows }
    {
        self.formula.draft.matrix().rows()
    }

    // How many literals the rows have together.
    pub fn literals(&self) -> usize
        ensures { result ≡ length (all_literals (sealed_formula self.now).rows) }
    {
        self.formula.draft.matrix().literals()
    }

    // The literals of row i, counted from 0.
    pub fn row(&self, i: usize) -> Option<&'a [Literal]>
        ensures { option_map (λ s. s.now) result ≡ slice_get (sealed_formula self.now).rows i }
    {
        let formula = self.formula;
        formula.draft.matrix().row(i)
    }
}
