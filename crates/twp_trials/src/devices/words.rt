//! The words of a line. The test that writes the lines also reads what comes of them, so a word that
//! is missing or wrong needs no message.

use std::io::ErrorKind;
use std::str::SplitWhitespace;

/// The next word, which is empty after the last.
pub fn next<'a>(words: &mut SplitWhitespace<'a>) -> &'a str {
    words.next().unwrap_or("")
}

/// The next word as a number.
pub fn number(words: &mut SplitWhitespace) -> usize {
    next(words).parse::<usize>().unwrap_or(0)
}

/// The next word as the kind of an error, of which there are two: the one after which others may
/// try again, and another.
pub fn error(words: &mut SplitWhitespace) -> Option<ErrorKind> {
    match next(words) {
        "interrupted" => Some(ErrorKind::Interrupted),
        "broken-pipe" => Some(ErrorKind::BrokenPipe),
        _ => None,
    }
}
