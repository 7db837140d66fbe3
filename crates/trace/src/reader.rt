// Goes through a trace record by record.
ghost use Rattle.std.specs.Prelude.{◌≡◌, ◌-◌, ◌≤◌, length};

use crate::record::{Record, cut};
use refusal::Reason;

// What is left of a trace, and how long the whole trace is.
#[derive(Drop)]
pub struct Records<'a> {
    rest: &'a [u8],
    len: usize,
    ghost within: { length rest.now ≤ len },
}

impl<'a> Records<'a> {
    ghost use Rattle.trace.specs.Reads.{Reads};

    // Begins at the front of the trace.
    pub fn new(bytes: &'a [u8]) -> Self
        ensures all { result.rest.now ≡ bytes.now }
        ensures len { result.len ≡ length bytes.now }
    {
        Records {
            rest: bytes,
            len: bytes.len(),
        }
    }

    // The offset of the next record in the trace, or the trace's length where none is left.
    pub fn place(&self) -> usize
        ensures { result ≡ self.now.len - length self.now.rest.now }
    {
        self.len - self.rest.len()
    }

    // The next record, a part of the trace's bytes; or why there is none, and then the reader stays.
    pub fn next(&mut self) -> Result<Record<'a>, Reason>
        ensures { Reads self.old result self.new }
    {
        let (record, rest) = cut(self.rest)?;
        self.rest = rest;
        Ok(record)
    }
}
