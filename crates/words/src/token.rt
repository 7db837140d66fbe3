// What a word is, and which bytes a word may have.
ghost use Rattle.std.specs.Prelude.{◌≡◌};
ghost use Rattle.words.specs.Text.{lexeme, printable};
ghost use Rattle.words.specs.Said.{said, part};

use crate::number::number;

// A word of the text: what it is, and the bytes that write it, a part of the text.
#[derive(Clone, Copy, Debug)]
pub enum Token<'a> {
    // One small letter.
    Letter { letter: u8, word: &'a [u8] },
    // `0`, or an optional minus and one to nine digits of which the first is not 0.
    Number { value: i32, word: &'a [u8] },
    // Any other word.
    Stray { word: &'a [u8] },
}

impl<'a> Token<'a> {
    // The bytes of the word, a part of the text.
    pub fn word(self) -> &'a [u8]
        ensures { result ≡ part self.entry }
    {
        match self {
            Token::Letter { word, .. } | Token::Number { word, .. } | Token::Stray { word } => word,
        }
    }
}

// One small letter, a number, or any other word; it borrows the bytes.
pub fn token_of(word: &[u8]) -> Token<'_>
    ensures says { said result ≡ lexeme word.now }
    ensures borrows { (part result).now ≡ word.now }
{
    match word {
        [letter @ b'a'..=b'z'] => Token::Letter {
            letter: *letter,
            word,
        },
        _ => match number(word) {
            Some(value) => Token::Number { value, word },
            None => Token::Stray { word },
        },
    }
}

// Whether every byte is one that shows in print, from `!` to `~`.
pub fn is_printable(word: &[u8]) -> bool
    ensures { result ≡ printable word.now }
{
    word.iter().all(u8::is_ascii_graphic)
}
