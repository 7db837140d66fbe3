// A script: a docket, and calls on it with the answers that are expected.
use formula::letter::Literal;
use std::alloc::{AllocFailed, Global};
use std::error::Error;
use std::fmt;

// Why a block of text is no script.
#[derive(Debug, Drop)]
pub enum ScriptError {
    NotWellWritten,
    OutOfMemory,
}

impl fmt::Display for ScriptError {
    fn fmt<W: fmt::Write>(&self, f: &mut fmt::Formatter<W>) -> fmt::Result {
        f.write_str(match self {
            ScriptError::NotWellWritten => "not well written",
            ScriptError::OutOfMemory => "out of memory",
        })
    }
}

impl Error for ScriptError {}

impl<T: Drop> From<AllocFailed<T>> for ScriptError {
    fn from(_error: AllocFailed<T>) -> Self {
        ScriptError::OutOfMemory
    }
}

#[derive(Drop)]
pub enum Call {
    Leaf(Vec<Literal>),
    Resolve { pivot: u32, first: u32, second: u32 },
    Reduce { parent: u32 },
    Close,
}

// A call, and what it is to answer: a number, or the line of a refusal.
#[derive(Drop)]
pub struct Line<'a> {
    pub call: Call,
    pub expected: &'a str,
}

// `NAME LETTER N STEPS MARKS FORMULA`, and a line for each call. The letter is own side's, N the docket's number of variables, and it has room for
// so many steps and marks.
#[derive(Drop)]
pub struct Script<'a> {
    pub name: &'a str,
    pub letter: &'a str,
    pub variables: usize,
    pub step_room: usize,
    pub mark_room: usize,
    pub formula: &'a str,
    pub lines: Vec<Line<'a>>,
}

fn number(word: Option<&str>) -> Option<u32> {
    word?.parse().ok()
}

fn literal(word: &str) -> Option<Literal> {
    let value = word.parse::<i32>().ok()?;
    Some(Literal {
        variable: value.unsigned_abs(),
        positive: value > 0,
    })
}

fn literals(heap: Global, words: &str) -> Result<Vec<Literal>, ScriptError> {
    let mut list = Vec::new(heap);
    for word in words.split_whitespace() {
        list.push(literal(word).ok_or(ScriptError::NotWellWritten)?)?;
    }
    Ok(list)
}

// `resolve PIVOT FIRST SECOND`
fn resolve(words: &str) -> Option<Call> {
    let mut words = words.split_whitespace();
    let pivot = number(words.next())?;
    let first = number(words.next())?;
    let second = number(words.next())?;
    Some(Call::Resolve {
        pivot,
        first,
        second,
    })
}

impl Call {
    fn read(heap: Global, text: &str) -> Result<Call, ScriptError> {
        let (name, words) = text.split_once(' ').unwrap_or((text, ""));
        match name {
            "leaf" => Ok(Call::Leaf(literals(heap, words)?)),
            "resolve" => resolve(words).ok_or(ScriptError::NotWellWritten),
            "reduce" => {
                let parent = number(Some(words)).ok_or(ScriptError::NotWellWritten)?;
                Ok(Call::Reduce { parent })
            }
            "close" => Ok(Call::Close),
            _ => Err(ScriptError::NotWellWritten),
        }
    }
}

impl<'a> Script<'a> {
    fn head(heap: Global, text: &'a str) -> Option<Script<'a>> {
        let (name, rest) = text.split_once(' ')?;
        let (letter, rest) = rest.split_once(' ')?;
        let (variables, rest) = rest.split_once(' ')?;
        let (step_room, rest) = rest.split_once(' ')?;
        let (mark_room, formula) = rest.split_once(' ')?;
        Some(Script {
            name,
            letter,
            variables: variables.parse().ok()?,
            step_room: step_room.parse().ok()?,
            mark_room: mark_room.parse().ok()?,
            formula,
            lines: Vec::new(heap),
        })
    }

    // Reads a script: its head, and a line `CALL = EXPECTED` for each call; a line that begins with `#` is for people.
    pub(crate) fn read(heap: Global, text: &'a str) -> Result<Script<'a>, ScriptError> {
        let mut lines = text.lines().filter(|line| !line.starts_with('#'));
        let head = lines.next().ok_or(ScriptError::NotWellWritten)?;
        let mut script = Script::head(heap, head).ok_or(ScriptError::NotWellWritten)?;
        for line in lines {
            let (call, expected) = line.split_once(" = ").ok_or(ScriptError::NotWellWritten)?;
            let call = Call::read(heap, call)?;
            script.lines.push(Line { call, expected })?;
        }
        Ok(script)
    }
}
