// The prefix of a formula, in room of its own.
ghost use Rattle.std.specs.Prelude.{◌≡◌, ◌≤◌, true, min, length, OnErr};
ghost use Rattle.std.specs.List.{slice_get};
ghost use Rattle.std.specs.Result.{result_err};
ghost use Rattle.formula.specs.Prefix.{LevelsTold, all_in_range, bind as bound_one, blocks_in, end_block, ends_in, in_range, level as level_of, level_so_far, marked, no_block, order as prefix_order, owner as owner_of, unbindable, unbound, unnameable};
ghost use Rattle.formula.specs.Sections.{all_items};
ghost use Rattle.formula.specs.Told.{told};

use crate::letter::Letter;
use crate::limits::{MARKS, MOST_BLOCKS, MOST_VARIABLES};
use crate::sections::Sections;
use refusal::Reason;

// The blocks are sections of the variables as they were bound. `levels` has for each variable its level so far, 0 where
// it is unbound: a table by variable in place of a map, since a formula has fixed memory and no heap, and levels as numbers, since the
// rules compare them (an unbound variable's is below those of all blocks), so that an `Option` would be turned into 0 at each use.
#[derive(Drop)]
pub struct Prefix {
    variables: usize,
    blocks: Sections<Letter, u32, MOST_BLOCKS, MOST_VARIABLES>,
    levels: [u8; MARKS],
    ghost each_level: { length levels ≡ 1025 },
    ghost few: { (variables ≤ 1024) × (length blocks.complete ≤ 64) × (length (all_items blocks) ≤ 1024) },
    ghost range: { all_in_range variables (all_items blocks) ≡ true },
    ghost told: { LevelsTold levels (blocks_in blocks.complete) blocks.begun },
    ghost count: { marked levels ≡ length (all_items blocks) },
}

impl Prefix {
    ghost use Rattle.formula.specs.View.{prefix_of};

    // A prefix of no variables.
    pub fn new() -> Self
        ensures { prefix_of result ≡ unbound 0 }
    {
        Prefix {
            variables: 0,
            blocks: Sections::new(),
            levels: [0; MARKS],
        }
    }

    // Starts from nothing, for `variables` variables, 1,024 at most.
    pub fn restart(&mut self, variables: usize)
        ensures { prefix_of self.new ≡ unbound (min variables 1024) }
    {
        self.variables = variables.min(MOST_VARIABLES);
        self.blocks.clear();
        self.levels = [0; MARKS];
    }

    // n: the variables are numbered 1 to n.
    pub fn variables(&self) -> usize
        ensures { result ≡ (prefix_of self.now).size }
    {
        self.variables
    }

    // How many complete blocks there are.
    pub fn blocks(&self) -> usize
        ensures { result ≡ length (prefix_of self.now).blocks }
    {
        self.blocks.len()
    }

    // How many variables the complete blocks bind.
    #[tactic(auto, using(crate::proofs::Blocks::order_kept))]
    pub fn order_len(&self) -> usize
        ensures { result ≡ length (prefix_order (prefix_of self.now).blocks) }
    {
        self.blocks.complete().len()
    }

    // A variable's level so far, the block that is being read counted; 0 where it is unbound.
    #[tactic(auto, using(crate::proofs::Kept::mark_is, crate::proofs::Looked::got, std::proofs::lemmas::Option::gets))]
    fn mark(&self, variable: u32) -> u8
        ensures { result ≡ level_so_far (prefix_of self.now) variable }
    {
        self.levels.get(variable as usize).copied().unwrap_or(0)
    }

    // Whether the number lies in 1..n.
    fn has(&self, variable: u32) -> bool
        ensures { result ≡ in_range self.now.variables variable }
    {
        (1..=self.variables).contains(&(variable as usize))
    }

    // Whether a variable may be bound.
    #[tactic(auto, using(crate::proofs::Kept::bound_at, crate::proofs::Kept::unbound_at))]
    fn bindable(&self, variable: u32) -> Result<(), Reason>
        ensures { result_err result ≡ unbindable variable (prefix_of self.now) }
    {
        if !self.has(variable) {
            return Err(Reason::VariableOutOfRange);
        }
        if self.mark(variable) != 0 {
            return Err(Reason::BoundTwice);
        }
        Ok(())
    }

    // Whether a row may name a variable.
    #[tactic(auto, using(crate::proofs::Kept::bound_at, crate::proofs::Kept::unbound_at))]
    pub fn nameable(&self, variable: u32) -> Result<(), Reason>
        ensures { result_err result ≡ unnameable variable (prefix_of self.now) }
    {
        if !self.has(variable) {
            return Err(Reason::VariableOutOfRange);
        }
        if self.mark(variable) == 0 {
            return Err(Reason::Unbound);
        }
        Ok(())
    }

    // One variable more in the block that is being read, or a refusal that alters nothing.
    pub fn bind(&mut self, variable: u32) -> Result<(), Reason>
        ensures value { told result (prefix_of self.new) ≡ bound_one variable (prefix_of self.old) }
        ensures same { OnErr result (self.new ≡ self.old) }
    {
        self.bindable(variable)?;
        let level = self.blocks() + 1;
        self.blocks.push(variable);
        // A level fits, since no prefix has more than 64 blocks.
        self.levels[variable as usize] = level as u8;
        Ok(())
    }

    // Whether the last block has this letter.
    #[tactic(auto, using(crate::proofs::Blocks::ends_in_last))]
    fn ends_in(&self, letter: Letter) -> bool
        ensures { result ≡ ends_in letter (prefix_of self.now).blocks }
    {
        self.blocks.last_head().is_some_and(|last| letter == last)
    }

    // Whether a block of this letter may follow.
    pub fn may_open(&self, letter: Letter) -> Result<(), Reason>
        ensures { result_err result ≡ no_block letter (prefix_of self.now) }
    {
        if self.ends_in(letter) {
            return Err(Reason::BadBlock);
        }
        if self.blocks.is_full() {
            return Err(Reason::TooMany);
        }
        Ok(())
    }

    // The end of the block that is being read, which has this letter; or a refusal that alters nothing.
    pub fn end_block(&mut self, letter: Letter) -> Result<(), Reason>
        ensures value { told result (prefix_of self.new) ≡ end_block letter (prefix_of self.old) }
        ensures same { OnErr result (self.new ≡ self.old) }
    {
        self.may_open(letter)?;
        if self.blocks.begun_is_empty() {
            return Err(Reason::BadBlock);
        }
        self.blocks.end(letter);
        Ok(())
    }

    // A variable's level, the place of its block from 1; 0 where no complete block has it. In constant time.
    #[tactic(auto, using(crate::proofs::Blocks::mark_low, crate::proofs::Blocks::mark_high))]
    pub fn level(&self, variable: u32) -> usize
        ensures value { result ≡ level_of (prefix_of self.now).blocks variable }
        ensures bound { result ≤ length (prefix_of self.now).blocks }
    {
        let mark = usize::from(self.mark(variable));
        if mark <= self.blocks() { mark } else { 0 }
    }

    // The letter of a variable's block; none where no complete block has it. In constant time.
    #[tactic(auto, using(crate::proofs::Blocks::owner_zero, crate::proofs::Blocks::owner_at))]
    pub fn owner(&self, variable: u32) -> Option<Letter>
        ensures { result ≡ owner_of (prefix_of self.now).blocks variable }
    {
        match self.level(variable) {
            0 => None,
            level => Some(self.blocks.head(level - 1)),
        }
    }

    // The variable at place i of the prefix order, counted from 0. In constant time.
    #[tactic(auto, using(crate::proofs::Blocks::order_kept, crate::proofs::Looked::got))]
    pub fn order_at(&self, i: usize) -> Option<u32>
        ensures { result ≡ slice_get (prefix_order (prefix_of self.now).blocks) i }
    {
        self.blocks.complete().get(i).copied()
    }
}
