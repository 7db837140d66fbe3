// Which word may come next, and what it does.
ghost use Rattle.std.specs.Prelude.{◌≡◌, codes};
ghost use Rattle.std.specs.Str.{bytes_eq};
ghost use Rattle.words.specs.Said.{said};
ghost use Rattle.qdimacs.specs.Moves.{block_number, decide as decided, head_number, row_number};
ghost use Rattle.qdimacs.specs.Reading.{at_place};

use formula::letter::{Letter, Literal};
use formula::limits::{MOST_ROWS, MOST_VARIABLES};
use refusal::{Layer, Reason, Refusal};
use words::token::{Token, is_printable};

// What is due.
#[derive(Clone, Copy)]
pub enum Phase {
    // the word `p`
    Start,
    // the word `cnf`
    Format,
    // n, the number of variables
    Variables,
    // m, the number of rows; n is read
    RowCount(usize),
    // a block, or the first row
    Blocks,
    // a variable of a block with this letter, or its end
    Block(Letter),
    // a further row
    Rows,
    // a literal, or the row's end
    Row,
}

// What a word does. A value and no closure: the definitions tell what a word does apart from the doing, and no function hands out a closure.
#[derive(Clone, Copy)]
pub enum Move {
    Problem,
    Format,
    Variables(usize),
    Head(usize, usize),
    Open(Letter),
    Bind(u32),
    EndBlock(Letter),
    Add(Literal),
    EndRow,
}

// What is wrong with a word, and which layer says so.
#[derive(Clone, Copy)]
pub struct Fault {
    pub reason: Reason,
    pub layer: Layer,
}

const FOREIGN_BYTE: Fault = Fault {
    reason: Reason::ForeignByte,
    layer: Layer::Word,
};

pub const MISPLACED: Fault = Fault {
    reason: Reason::Misplaced,
    layer: Layer::Word,
};

const NOT_A_NUMBER: Fault = Fault {
    reason: Reason::NotANumber,
    layer: Layer::Word,
};

const BAD_HEAD: Fault = Fault {
    reason: Reason::HeadOutOfRange,
    layer: Layer::Head,
};

const BAD_VARIABLE: Fault = Fault {
    reason: Reason::VariableOutOfRange,
    layer: Layer::Block,
};

impl Fault {
    // The refusal of it at this place.
    pub fn at(self, place: usize) -> Refusal
        ensures { result ≡ at_place self place }
    {
        Refusal {
            reason: self.reason,
            layer: self.layer,
            place,
        }
    }
}

fn is_format(word: &[u8]) -> bool
    ensures { result ≡ bytes_eq word.now (codes "cnf") }
{
    word == b"cnf".as_slice()
}

// A number of the head: from 0 to `most`.
fn head_number(value: i32, most: usize) -> Result<usize, Fault>
    ensures { result ≡ head_number most value }
{
    match usize::try_from(value) {
        Ok(number) if number <= most => Ok(number),
        _ => Err(BAD_HEAD),
    }
}

// A number in a block: a variable, or 0 for the block's end.
fn block_number(letter: Letter, value: i32) -> Result<Move, Fault>
    ensures { result ≡ block_number letter value }
{
    match u32::try_from(value) {
        Ok(0) => Ok(Move::EndBlock(letter)),
        Ok(variable) => Ok(Move::Bind(variable)),
        Err(_) => Err(BAD_VARIABLE),
    }
}

// A number in a row: a literal, or 0 for the row's end.
fn row_number(value: i32) -> Move
    ensures { result ≡ row_number value }
{
    if value == 0 {
        Move::EndRow
    } else {
        Move::Add(Literal {
            variable: value.unsigned_abs(),
            positive: value > 0,
        })
    }
}

// What the word does where this is due, or why it is refused.
pub fn decide(phase: Phase, token: Token<'_>) -> Result<Move, Fault>
    ensures { result ≡ decided phase (said token.entry) }
{
    match (phase, token) {
        (_, Token::Stray { word }) if !is_printable(word) => Err(FOREIGN_BYTE),
        (Phase::Start, Token::Letter { letter: b'p', .. }) => Ok(Move::Problem),
        (Phase::Format, Token::Stray { word }) if is_format(word) => Ok(Move::Format),
        (Phase::Start | Phase::Format, _) => Err(MISPLACED),
        (Phase::Variables, Token::Number { value, .. }) => Ok(Move::Variables(head_number(
            value,
            MOST_VARIABLES,
        )?)),
        (Phase::RowCount(n), Token::Number { value, .. }) => Ok(Move::Head(
            n,
            head_number(value, MOST_ROWS)?,
        )),
        (Phase::Block(letter), Token::Number { value, .. }) => block_number(letter, value),
        (Phase::Blocks | Phase::Rows | Phase::Row, Token::Number { value, .. }) => Ok(row_number(
            value,
        )),
        (Phase::Blocks, Token::Letter { letter: b'a', .. }) => Ok(Move::Open(Letter::Universal)),
        (Phase::Blocks, Token::Letter { letter: b'e', .. }) => Ok(Move::Open(Letter::Existential)),
        (
            Phase::Rows,
            Token::Letter {
                letter: b'a' | b'e',
                ..
            },
        ) => Err(MISPLACED),
        (_, Token::Letter { .. } | Token::Stray { .. }) => Err(NOT_A_NUMBER),
    }
}
