//! Whether a text is only a section, or a township and range, that is written elsewhere.
ghost use Rattle.std.specs.Prelude.{◌≡◌, ◌≤◌, drop, length};
ghost use Rattle.twp_rules.specs.Moving.{is_moved_at, is_moved_word, is_only_of, may_be_moved};

use crate::figures::{from, without_white};
use crate::moved::Moved;
use crate::naming::{begins_word, makes_half, word_of};
use crate::words::numbers::*;
use crate::words::sections::*;
use crate::words::sides::*;

/// Whether only a section, or a township and range, is in a text.
#[tactic(auto, using(crate::proofs::NamingFacts::next_is_moved))]
pub(crate) fn is_only_of(kind: Moved, seen: &[u8]) -> bool
    ensures { result ≡ is_only_of kind seen.now }
{
    for at in 0..seen.len() {
        if !is_moved_at(kind, seen, at) {
            return false;
        }
    }
    true
}

/// Whether the word at a place may be moved, if one begins there.
fn is_moved_at(kind: Moved, seen: &[u8], at: usize) -> bool
    requires { at ≤ length seen.now }
    ensures { result ≡ is_moved_at kind seen.now at (drop at seen.now) }
{
    if !begins_word(seen, at) {
        return true;
    }
    let rest = from(seen, at);
    let word = word_of(rest);
    may_be_moved(kind, word, from(rest, word.len()))
}

/// Whether a word may be moved with what is after it.
fn may_be_moved(kind: Moved, word: &[u8], after: &[u8]) -> bool
    ensures { result ≡ may_be_moved kind word.now after.now }
{
    is_moved_word(kind, word) && !(is_in_side_names(word) && makes_half(without_white(after)))
}

/// Whether a word is of such a phrase.
fn is_moved_word(kind: Moved, word: &[u8]) -> bool
    ensures { result ≡ is_moved_word kind word.now }
{
    match kind {
        Moved::Section => is_in_moved_section_words(word) || is_in_number_words(word),
        Moved::Heading => is_in_moved_heading_words(word) || is_in_number_words(word),
    }
}
