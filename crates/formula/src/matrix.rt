// The rows of a formula, in room of their own.
ghost use Rattle.std.specs.Prelude.{◌≡◌, ◌≤◌, min, length, OnErr};
ghost use Rattle.std.specs.Option.{option_map};
ghost use Rattle.std.specs.List.{slice_get};
ghost use Rattle.std.specs.Result.{result_err};
ghost use Rattle.formula.specs.Matrix.{MarksTold, add_literal, all_literals, complete, end_row, forbidden, no_rows};
ghost use Rattle.formula.specs.Sections.{all_items};
ghost use Rattle.formula.specs.Told.{told};

use crate::letter::Literal;
use crate::limits::{MARKS, MOST_LITERALS, MOST_ROWS};
use crate::sections::Sections;
use refusal::Reason;

// The rows are sections of the literals. `seen` has for each variable the number of the last row that named it: a table by
// variable in place of a map, since a formula has fixed memory and no heap.
#[derive(Drop)]
pub struct Matrix {
    due: usize,
    rows: Sections<(), Literal, MOST_ROWS, MOST_LITERALS>,
    seen: [u16; MARKS],
    ghost each_seen: { length seen ≡ 1025 },
    ghost few: { (due ≤ 4096) × (length rows.complete ≤ due) × (length (all_items rows) ≤ 16384) },
    ghost marks: { MarksTold seen (length rows.complete) rows.begun },
}

impl Matrix {
    ghost use Rattle.formula.specs.View.{matrix_of};

    // A matrix of no rows.
    pub fn new() -> Self
        ensures { matrix_of result ≡ no_rows 0 }
    {
        Matrix {
            due: 0,
            rows: Sections::new(),
            seen: [0; MARKS],
        }
    }

    // Starts from nothing; `due` rows are to come, 4,096 at most.
    pub fn restart(&mut self, due: usize)
        ensures { matrix_of self.new ≡ no_rows (min due 4096) }
    {
        self.due = due.min(MOST_ROWS);
        self.rows.clear();
        self.seen = [0; MARKS];
    }

    // How many complete rows there are.
    pub fn rows(&self) -> usize
        ensures { result ≡ length (matrix_of self.now).rows }
    {
        self.rows.len()
    }

    // Whether all rows that are due are there.
    pub fn is_complete(&self) -> bool
        ensures { result ≡ complete (matrix_of self.now) }
    {
        self.rows() >= self.due
    }

    // Whether a literal may stand in the row that is being read, room aside.
    fn allows(&self, literal: Literal) -> Result<(), Reason>
        ensures { result_err result ≡ forbidden literal (matrix_of self.now) }
    {
        if self.is_complete() {
            return Err(Reason::WrongRowCount);
        }
        let seen = self.seen.get(literal.variable as usize).copied();
        let last = seen.ok_or(Reason::VariableOutOfRange)?;
        if usize::from(last) == self.rows() + 1 {
            return Err(Reason::VariableTwice);
        }
        Ok(())
    }

    // One literal more in the row that is being read, or a refusal that alters nothing.
    #[tactic(auto, using(crate::proofs::Rows::literal_total))]
    pub fn add(&mut self, literal: Literal) -> Result<(), Reason>
        ensures value { told result (matrix_of self.new) ≡ add_literal literal (matrix_of self.old) }
        ensures same { OnErr result (self.new ≡ self.old) }
    {
        self.allows(literal)?;
        if self.rows.all().len() == MOST_LITERALS {
            return Err(Reason::TooMany);
        }
        let row = self.rows() + 1;
        self.rows.push(literal);
        // A row's number fits, since no matrix has more than 4,096 rows.
        self.seen[literal.variable as usize] = row as u16;
        Ok(())
    }

    // The end of the row that is being read, or a refusal that alters nothing.
    #[tactic(auto, using(crate::proofs::SectionLemmas::length_with_section))]
    pub fn end_row(&mut self) -> Result<(), Reason>
        ensures value { told result (matrix_of self.new) ≡ end_row (matrix_of self.old) }
        ensures same { OnErr result (self.new ≡ self.old) }
    {
        if self.is_complete() {
            return Err(Reason::WrongRowCount);
        }
        self.rows.end(());
        Ok(())
    }

    // How many literals the complete rows have: the row that is being read begins behind them.
    #[tactic(auto, using(crate::proofs::Rows::literals_kept, std::proofs::lemmas::List::take_all))]
    pub fn literals(&self) -> usize
        ensures { result ≡ length (all_literals (matrix_of self.now).rows) }
    {
        self.rows.start(self.rows.len())
    }

    // The literals of row i, counted from 0. In constant time.
    pub fn row(&self, i: usize) -> Option<&[Literal]>
        ensures { option_map (λ s. s.now) result ≡ slice_get (matrix_of self.now).rows i }
    {
        self.rows.section(i)
    }
}
