// Reads a table of formula texts, and compares the line for each with the line that the table expects.
#![tactic(auto)]

ghost use Rattle.std.specs.Prelude.{◌+◌, ◌<◌, ◌≤◌, length, IfSome, IfOk};

use report::formula_line;
use std::alloc::{AllocError, Global};
use std::str::from_utf8;
use std::{fs, io};

// `to_digit` would take capitals too.
fn hex_digit(b: u8) -> Option<u8>
    ensures { IfSome result (λ d. d < 16) }
{
    match b {
        b'0'..=b'9' => Some(b - b'0'),
        b'a'..=b'f' => Some(b - b'a' + 10),
        _ => None,
    }
}

// The byte that a backslash and this one stand for.
fn escape(b: u8) -> Option<u8> {
    match b {
        b'n' => Some(b'\n'),
        b'r' => Some(b'\r'),
        b't' => Some(b'\t'),
        b'\\' => Some(b'\\'),
        _ => None,
    }
}

// The first byte, which stands for itself or is written `\n`, `\r`, `\t`, `\\` or `\xNN`, and what is behind it.
fn one_byte(escaped: &[u8]) -> Option<(u8, &[u8])>
    ensures { IfSome result (λ w. length w.1.now < length escaped.now) }
{
    match escaped {
        [b'\\', b'x', high, low, rest @ ..] => Some((
            16 * hex_digit(*high)? + hex_digit(*low)?,
            rest,
        )),
        [b'\\', named, rest @ ..] => Some((escape(*named)?, rest)),
        [] | [b'\\'] => None,
        [b, rest @ ..] => Some((*b, rest)),
    }
}

// Why no bytes come of a text column.
#[derive(Drop)]
enum DecodeError {
    NotWellWritten,
    OutOfMemory(AllocError),
}

impl From<AllocError> for DecodeError {
    fn from(error: AllocError) -> Self {
        DecodeError::OutOfMemory(error)
    }
}

// Appends byte after byte, and gives what is left where none is written.
fn append<'a>(bytes: &mut Vec<u8>, escaped: &'a [u8]) -> Result<&'a [u8], AllocError>
    ensures { IfOk result (λ rest. length rest.now ≤ length escaped.now) }
{
    let mut rest = escaped;
    while let Some((byte, behind)) = one_byte(rest) {
        bytes.push(byte)?;
        rest = behind;
    }
    Ok(rest)
}

// Nothing may be left at the end.
fn expect_end(rest: &[u8]) -> Result<(), DecodeError> {
    if rest.is_empty() {
        Ok(())
    } else {
        Err(DecodeError::NotWellWritten)
    }
}

// `COUNT*BYTES}`, and what is behind it.
#[derive(Clone, Copy)]
struct Repetition<'a> {
    count: usize,
    bytes: &'a [u8],
    rest: &'a [u8],
}

fn repeated_in(escaped: &[u8]) -> Option<Repetition<'_>>
    ensures { IfSome result (λ p. length p.rest.now < length escaped.now) }
{
    let star = escaped.iter().position(|b| *b == b'*')?;
    let behind = &escaped[star + 1..];
    let end = behind.iter().position(|b| *b == b'}')?;
    Some(Repetition {
        count: from_utf8(&escaped[..star]).ok()?.parse().ok()?,
        bytes: &behind[..end],
        rest: &behind[end + 1..],
    })
}

// Appends the bytes as often as the count says.
fn append_repeated(bytes: &mut Vec<u8>, repeated: Repetition<'_>) -> Result<(), DecodeError> {
    for _ in 0..repeated.count {
        expect_end(append(bytes, repeated.bytes)?)?;
    }
    Ok(())
}

// The bytes that a text column stands for.
fn decode(heap: Global, escaped: &[u8]) -> Result<Vec<u8>, DecodeError> {
    let mut bytes = Vec::new(heap);
    let mut rest = append(&mut bytes, escaped)?;
    while let [b'\\', b'{', behind @ ..] = rest {
        let repeated = repeated_in(behind).ok_or(DecodeError::NotWellWritten)?;
        append_repeated(&mut bytes, repeated)?;
        rest = append(&mut bytes, repeated.rest)?;
    }
    expect_end(rest)?;
    Ok(bytes)
}

// The line for a text column.
fn line_for(heap: Global, escaped: &str) -> Result<String, AllocError> {
    match decode(heap, escaped.as_bytes()) {
        Ok(text) => formula_line(heap, text.as_slice()),
        Err(DecodeError::NotWellWritten) => String::from_str(
            heap,
            "a text that is not well written",
        ),
        Err(DecodeError::OutOfMemory(error)) => Err(error),
    }
}

// A line of the table: four columns with tabs between them, the last for people.
#[derive(Clone, Copy)]
struct Case<'a> {
    name: &'a str,
    expected: &'a str,
    text: &'a str,
}

fn case_in(line: &str) -> Option<Case<'_>> {
    let (name, rest) = line.split_once('\t')?;
    let (expected, rest) = rest.split_once('\t')?;
    let (text, _reason) = rest.split_once('\t')?;
    Some(Case {
        name,
        expected,
        text,
    })
}

fn main(rt: HostRuntime) -> io::Result<()> {
    let table = fs::read_to_string(&rt, "cases.txt")?;
    let mut cases = 0usize;
    let mut wrong = 0usize;
    // a line without columns is a heading
    for case in table.as_str().lines().filter_map(case_in) {
        cases += 1;
        let got = line_for(rt.alloc(), case.text)?;
        if got.as_str() != case.expected {
            wrong += 1;
            let name = case.name;
            let expected = case.expected;
            println!(rt; "{name}: expected {expected}, got {got}")?;
        }
    }
    println!(rt; "{cases} cases, {wrong} wrong")
}
