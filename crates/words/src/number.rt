// The number that a word writes.
ghost use Rattle.std.specs.Prelude.{◌≡◌, ◌^◌, ◌<◌, ◌≤◌, length, pos, IfSome};
ghost use Rattle.std.specs.Option.{option_map};
ghost use Rattle.words.specs.Number.{magnitude, number as numeral, read_on};

// The most digits that a number may have.
const MOST_DIGITS: usize = 9;

// The number that a few digits write, or nothing where a byte is no digit. The library's `parse` reads a text, and to make one of the bytes, and
// to read it then, cost a reading of a formula half its time again.
fn decimal(digits: &[u8]) -> Option<u32>
    requires { length digits.now ≤ 9 }
    ensures value { result ≡ read_on 0 digits.now }
    ensures bound { IfSome result (λ n. n < 10 ^ 9) }
{
    let mut value = 0;
    for byte in digits {
        value = 10 * value + char::from(*byte).to_digit(10)?;
    }
    Some(value)
}

// One to nine digits, the first not 0.
fn magnitude(digits: &[u8]) -> Option<i32>
    ensures { result ≡ option_map pos (magnitude digits.now) }
{
    match digits {
        [b'1'..=b'9', ..] if digits.len() <= MOST_DIGITS => Some(decimal(digits)? as i32),
        _ => None,
    }
}

// `0`, or an optional minus and one to nine digits, the first not 0.
pub(crate) fn number(word: &[u8]) -> Option<i32>
    ensures { result ≡ numeral word.now }
{
    match word {
        [b'0'] => Some(0),
        [b'-', digits @ ..] => magnitude(digits).map(|n| -n),
        _ => magnitude(word),
    }
}
