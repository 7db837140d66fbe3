// One record: a header of its total length and its kind, two bytes each, and a payload. Every number has its lowest byte first.
ghost use Rattle.std.specs.Prelude.{◌≡◌, ◌+◌, ◌≤◌, length, IfOk};
ghost use Rattle.std.specs.Option.{option_map};
ghost use Rattle.trace.specs.Format.{known, payload_of, record_of};
ghost use Rattle.trace.specs.Said.{cut_told, said};

use refusal::Reason;

// A record, as a part of the trace's bytes.
#[derive(Clone, Copy, Debug)]
pub enum Record<'a> {
    // The literals of a leaf, four bytes each, signed.
    Leaf(&'a [u8]),
    Resolve { pivot: u32, first: u32, second: u32 },
    Reduce { parent: u32 },
    // The end of the trace, which closes the docket.
    End,
}

// What a record of this kind says, if its payload has the length for it.
fn payload(kind: u16, bytes: &[u8]) -> Option<Record<'_>>
    ensures { option_map said result ≡ payload_of kind bytes.now }
{
    match (kind, bytes) {
        (1, _) if bytes.len() % 4 == 0 => Some(Record::Leaf(bytes)),
        (2, [p0, p1, p2, p3, f0, f1, f2, f3, s0, s1, s2, s3]) => Some(Record::Resolve {
            pivot: u32::from_le_bytes([*p0, *p1, *p2, *p3]),
            first: u32::from_le_bytes([*f0, *f1, *f2, *f3]),
            second: u32::from_le_bytes([*s0, *s1, *s2, *s3]),
        }),
        (3, [p0, p1, p2, p3]) => Some(Record::Reduce {
            parent: u32::from_le_bytes([*p0, *p1, *p2, *p3]),
        }),
        (9, []) => Some(Record::End),
        _ => None,
    }
}

fn is_known(kind: u16) -> bool
    ensures { result ≡ known kind }
{
    matches!(kind, 1 | 2 | 3 | 9)
}

// Cuts the record at the front of the bytes, and gives it and what is behind it; or why there is none.
pub fn cut(bytes: &[u8]) -> Result<(Record<'_>, &[u8]), Reason>
    ensures value { cut_told result ≡ record_of bytes.now }
    ensures shorter { IfOk result (λ w. length w.1.now + 4 ≤ length bytes.now) }
{
    let [l0, l1, k0, k1, behind @ ..] = bytes else {
        return Err(Reason::CutShort);
    };
    let total = usize::from(u16::from_le_bytes([*l0, *l1]));
    let kind = u16::from_le_bytes([*k0, *k1]);
    if bytes.len() < total {
        return Err(Reason::CutShort);
    }
    if !is_known(kind) {
        return Err(Reason::UnknownKind);
    }
    let len = total.checked_sub(4).ok_or(Reason::WrongLength)?;
    let (front, rest) = behind.split_at(len);
    let record = payload(kind, front).ok_or(Reason::WrongLength)?;
    Ok((record, rest))
}
