// The words of a QDIMACS text, each handed on as a token that borrows the text.
#![tactic(auto)]

pub mod laws;
mod number;
pub mod reader;
pub mod token;

#[cfg(test)]
mod tests {
    use crate::reader::Words;
    use crate::token::{Token, token_of};

    fn number_in(word: &[u8]) -> Option<i32> {
        match token_of(word) {
            Token::Number { value, .. } => Some(value),
            _ => None,
        }
    }

    fn letter_in(word: &[u8]) -> Option<u8> {
        match token_of(word) {
            Token::Letter { letter, .. } => Some(letter),
            _ => None,
        }
    }

    #[test]
    fn a_word_is_a_letter_a_number_or_stray(rt: HostRuntime) {
        assert_eq!(rt; number_in(b"0"), Some(0));
        assert_eq!(rt; number_in(b"-5"), Some(-5));
        assert_eq!(rt; number_in(b"999999999"), Some(999999999));
        assert_eq!(rt; letter_in(b"a"), Some(b'a'));
        assert_eq!(rt; letter_in(b"p"), Some(b'p'));
        for word in ["-0", "+1", "007", "-", "1234567890", "cnf"] {
            assert!(rt; matches!(token_of(word.as_bytes()), Token::Stray { .. }));
        }
    }

    #[test]
    fn comments_are_skipped_up_to_a_line_feed(rt: HostRuntime) {
        let words = Words::after_comments(b"c a\r b\nc\ncc 1\r\n-2 x");
        // the offset and the length of each word
        let mut places = words.map(|(at, token)| (at, token.word().len()));
        assert_eq!(rt; places.next(), Some((9, 2)));
        assert_eq!(rt; places.next(), Some((12, 1)));
        assert_eq!(rt; places.next(), Some((15, 2)));
        assert_eq!(rt; places.next(), Some((18, 1)));
        assert_eq!(rt; places.next(), None);
    }
}
