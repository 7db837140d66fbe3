// Goes through a text word by word.
ghost use Rattle.std.specs.Prelude.{◌≡◌, ◌+◌, ◌<◌, ◌≤◌, [], ◌∷◌, length, drop, codes, IfSome, MatchOption};
ghost use Rattle.std.specs.Str.{bytes_eq};
ghost use Rattle.words.specs.Text.{separator, front, from_word, from_line_end, tokens_from, body};

use crate::token::{Token, token_of};

// A blank, a tab, CR or LF. `is_ascii_whitespace` would take the form feed too.
fn is_separator(b: &u8) -> bool
    ensures { result ≡ separator b.now }
{
    matches!(*b, b' ' | b'\t' | b'\r' | b'\n')
}

// The next three differ in their tests; with the test as a parameter their contracts would have to speak of what a closure answers.

// The bytes from the first word on.
fn from_word(bytes: &[u8]) -> &[u8]
    ensures { result.now ≡ from_word bytes.now }
{
    let gap = bytes.iter().take_while(|b| is_separator(b)).count();
    &bytes[gap..]
}

// The bytes up to the first separator.
fn front(bytes: &[u8]) -> &[u8]
    ensures { result.now ≡ front bytes.now }
{
    let end = bytes.iter().take_while(|b| !is_separator(b)).count();
    &bytes[..end]
}

// The bytes from the first LF on, which alone ends a comment; CR does not.
fn from_line_end(bytes: &[u8]) -> &[u8]
    ensures { result.now ≡ from_line_end bytes.now }
{
    let end = bytes.iter().take_while(|b| **b != b'\n').count();
    &bytes[end..]
}

// Whether the first word is `c`, where a word begins. Looks at two bytes at most.
fn is_comment(rest: &[u8]) -> bool
    ensures { result ≡ bytes_eq (front rest.now) (99 ∷ []) }
{
    match rest {
        [b'c'] => true,
        [b'c', b, ..] => is_separator(b),
        _ => false,
    }
}

// The offset after the comments at the front of the text: of its first word that is not `c`, or the text's length.
#[tactic(auto, using(crate::proofs::Comments::passing))]
fn comments_end(text: &[u8]) -> usize
    ensures value { result ≡ body text.now }
    ensures within { result ≤ length text.now }
{
    let mut rest = from_word(text);
    while is_comment(rest) {
        rest = from_word(from_line_end(rest));
    }
    text.len() - rest.len()
}

// A text, and a place in it where a word may begin.
#[derive(Drop)]
pub struct Words<'a> {
    text: &'a [u8],
    at: usize,
    ghost within: { at ≤ length text.now },
}

impl<'a> Words<'a> {
    // Begins after the comments at the front of the text.
    pub fn after_comments(text: &'a [u8]) -> Self
        ensures same { result.text.now ≡ text.now }
        ensures begins { result.at ≡ body text.now }
    {
        let at = comments_end(text);
        Words { text, at }
    }
}

// Gives the words that are left, each by its offset in the text and what it is. `GivesWord` says what a call of `next` promises.
impl<'a> Iterator for Words<'a> {
    ghost use Rattle.std.specs.Iterator.{item_count};
    ghost use Rattle.words.specs.Next.{GivesWord, left};

    type Item = (usize, Token<'a>);

    ghost next_gives = { GivesWord };

    ghost remaining = { item_count left };

    fn next(&mut self) -> Option<(usize, Token<'a>)> {
        let rest = from_word(&self.text[self.at..]);
        let word = front(rest);
        if word.is_empty() {
            return None;
        }
        let start = self.text.len() - rest.len();
        self.at = start + word.len();
        Some((start, token_of(word)))
    }
}
