// Why a call refuses, for the whole product: each reason has one number, and a refusal tells the layer and the place too.
#![tactic(auto)]

ghost use Rattle.std.specs.Prelude.{◌≡◌, Some};
ghost use Rattle.refusal.specs.Lines.{refusal_line};
ghost use Rattle.refusal.specs.Numbers.{ToldApart, name as layer_name, number as reason_number, text as reason_text};

use std::error::Error;
use std::fmt;

// What is wrong. The value of each is the number that the programs print.
#[derive(Clone, Copy, Debug, PartialEq, Eq)]
pub enum Reason {
    TextTooLong = 1,
    ForeignByte = 2,
    Misplaced = 3,
    NotANumber = 4,
    HeadOutOfRange = 5,
    VariableOutOfRange = 6,
    BoundTwice = 7,
    BadBlock = 8,
    Unbound = 9,
    VariableTwice = 10,
    WrongRowCount = 11,
    TooMany = 12,
    TraceTooLong = 20,
    CutShort = 21,
    UnknownKind = 22,
    WrongLength = 23,
    AfterEnd = 24,
    SizesDiffer = 25,
    NotEarlier = 31,
    LeafUnbound = 32,
    NotRising = 33,
    NotAdmitted = 34,
    PivotNotOpponents = 35,
    PivotMarks = 36,
    OpponentClash = 37,
    OwnClash = 38,
    EmptyTail = 39,
    StepsFull = 40,
    MarksFull = 41,
    NoEmptyRecord = 42,
    EndWithoutEmptyRecord = 43,
    NotBegun = 51,
    NoVerdict = 52,
    BytesTooFew = 53,
    OtherSidesTurn = 54,
    BoardFull = 55,
    BoardNotFull = 56,
    UnknownChoice = 57,
}

// Which part of the work refuses.
#[derive(Clone, Copy, Debug, PartialEq, Eq)]
pub enum Layer {
    Text,
    Word,
    Head,
    Block,
    Row,
    Trace,
    Record,
    Docket,
    Leaf,
    Resolve,
    Reduce,
    Close,
    Board,
    Choices,
}

// A refusal: why, by which layer, and where. The place is an offset in the file that is read (of a word, a record or a
// choice; the file's length at its end), and 0 where a single call refuses.
#[derive(Clone, Copy, Debug, PartialEq, Eq)]
pub struct Refusal {
    pub reason: Reason,
    pub layer: Layer,
    pub place: usize,
}

impl Reason {
    // The number that the programs print.
    pub fn number(self) -> u8
        ensures { result ≡ reason_number self }
    {
        self as u8
    }

    // What it says, for people.
    pub fn text(self) -> &'static str
        ensures { result.now ≡ reason_text self }
    {
        match self {
            Reason::TextTooLong => "the text is longer than 65,536 bytes",
            Reason::ForeignByte => "a word has a byte that the format does not know",
            Reason::Misplaced => "the text is not of the shape: head, blocks, rows",
            Reason::NotANumber => "a number is due",
            Reason::HeadOutOfRange =>
                "the head announces too many variables or rows, or fewer than none",
            Reason::VariableOutOfRange => "no variable of the head has this number",
            Reason::BoundTwice => "the variable was bound before",
            Reason::BadBlock => "the block has its neighbour's letter, or no variable",
            Reason::Unbound => "no block binds the variable",
            Reason::VariableTwice => "the row names the variable twice",
            Reason::WrongRowCount => "there are more or fewer rows than the head announces",
            Reason::TooMany => "there is no room for a further block or literal",
            Reason::TraceTooLong => "the trace is longer than 65,536 bytes",
            Reason::CutShort => "the record is cut short, or the trace has no end record",
            Reason::UnknownKind => "no record has this kind",
            Reason::WrongLength => "the record's length does not fit its kind",
            Reason::AfterEnd => "bytes follow the end record",
            Reason::SizesDiffer =>
                "formula, ground and docket are not of the same number of variables",
            Reason::NotEarlier => "a parent is no earlier step",
            Reason::LeafUnbound => "a literal's variable is not bound",
            Reason::NotRising => "the literals' variables do not rise",
            Reason::NotAdmitted => "the ground does not admit the leaf",
            Reason::PivotNotOpponents => "the pivot is no variable of the opponent",
            Reason::PivotMarks =>
                "the pivot is not plus in the first parent and minus in the second",
            Reason::OpponentClash => "the parents differ in a further variable of the opponent",
            Reason::OwnClash => "the parents differ in an own variable that is not above the pivot",
            Reason::EmptyTail => "the parent's tail is empty",
            Reason::StepsFull => "the step table is full",
            Reason::MarksFull => "the mark table is full",
            Reason::NoEmptyRecord => "no step has an empty record",
            Reason::EndWithoutEmptyRecord => "the trace ends and no step has an empty record",
            Reason::NotBegun => "the board is not begun",
            Reason::NoVerdict =>
                "the verdict is no step with an empty record here, or the board was begun for another number of variables",
            Reason::BytesTooFew => "the board has fewer bytes than there are variables",
            Reason::OtherSidesTurn => "it is the other side's turn",
            Reason::BoardFull => "every variable has a value",
            Reason::BoardNotFull => "not every variable has a value yet",
            Reason::UnknownChoice => "no choice is written so",
        }
    }
}

impl Layer {
    // Its name, for people.
    pub fn name(self) -> &'static str
        ensures { result.now ≡ layer_name self }
    {
        match self {
            Layer::Text => "text",
            Layer::Word => "word",
            Layer::Head => "head",
            Layer::Block => "block",
            Layer::Row => "row",
            Layer::Trace => "trace",
            Layer::Record => "record",
            Layer::Docket => "docket",
            Layer::Leaf => "leaf",
            Layer::Resolve => "resolve",
            Layer::Reduce => "reduce",
            Layer::Close => "close",
            Layer::Board => "board",
            Layer::Choices => "choices",
        }
    }
}

impl fmt::Display for Reason {
    ghost output = { λ r. Some (reason_text r) };

    fn fmt<W: fmt::Write>(&self, f: &mut fmt::Formatter<W>) -> fmt::Result {
        f.write_str(self.text())
    }
}

impl fmt::Display for Layer {
    ghost output = { λ l. Some (layer_name l) };

    fn fmt<W: fmt::Write>(&self, f: &mut fmt::Formatter<W>) -> fmt::Result {
        f.write_str(self.name())
    }
}

// `refused`, the number of the reason, and the place: the line that the programs print.
impl fmt::Display for Refusal {
    ghost output = { λ r. Some (refusal_line r) };

    fn fmt<W: fmt::Write>(&self, f: &mut fmt::Formatter<W>) -> fmt::Result {
        let number = self.reason.number();
        let place = self.place;
        write!(f, "refused {number} {place}")
    }
}

impl Error for Refusal {}

// No two reasons have the same number.
pub fn numbers_apart()
    ensures { ToldApart }
{}
