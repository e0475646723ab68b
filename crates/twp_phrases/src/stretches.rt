//! What is unread of a text: its words that no phrase covers.
ghost use Rattle.std.specs.Prelude.{◌≡◌, ◌<◌, ◌≤◌, ℕ, false, true, IfOk, MatchOption, length, slice_index};
ghost use Rattle.std.specs.Prelude.{◌==◌, if◌then◌else◌, slice_range};
ghost use Rattle.twp_phrases.specs.Unread.{AreRunsUpTo, AreUnread, HasNoWord, IsLeft, IsNextWord};
ghost use Rattle.twp_phrases.specs.Unread.{covers, left_at};
ghost use Rattle.twp_rules.specs.Edges.{is_one_of};
ghost use Rattle.twp_phrases.specs.Unread.{connectives, is_break, is_of_word};

use std::alloc::{AllocError, Global};
use twp_rules::is_text;

/// The bytes of a text from one place up to another.
#[derive(Clone, Copy, PartialEq, Eq)]
pub struct Stretch {
    pub start: usize,
    pub end: usize,
}

/// What is unread of a text, in which these phrases were found.
#[tactic(auto, using(crate::proofs::UnreadFacts::are_unread))]
pub fn unread_of(
    alloc: Global,
    text: &[u8],
    phrases: &[Stretch],
) -> Result<Vec<Stretch>, AllocError>
    ensures { IfOk result (λ it. AreUnread text.now phrases.now it.items) }
{
    let left = left_of(alloc, text, phrases)?;
    runs_of(alloc, left.as_slice())
}

/// The text with a 0 for each byte of a phrase.
fn left_of(alloc: Global, text: &[u8], phrases: &[Stretch]) -> Result<Vec<u8>, AllocError>
    ensures { IfOk result (λ it. IsLeft text.now phrases.now it.items) }
{
    let mut left = Vec::new(alloc);
    left.extend_from_slice(text)?;
    blank_all(left.as_mut_slice(), phrases);
    Ok(left)
}

/// Writes a 0 for each byte of a phrase.
#[tactic(auto, using(crate::proofs::UnreadFacts::next_left))]
fn blank_all(left: &mut [u8], phrases: &[Stretch])
    ensures { (at : ℕ) → slice_index left.new at ≡ left_at phrases.now at (slice_index left.old at) }
{
    for phrase in phrases {
        blank(left, *phrase);
    }
}

/// Writes a 0 for each byte of one phrase.
#[tactic(auto, using(crate::proofs::UnreadFacts::all_blank))]
fn blank(left: &mut [u8], phrase: Stretch)
    ensures { (at : ℕ) → slice_index left.new at
        ≡ (if covers phrase at then 0 else slice_index left.old at) }
{
    for at in phrase.start..phrase.end.min(left.len()) {
        left[at] = 0;
    }
}

/// The runs of what is left of a text.
#[tactic(auto, using(crate::proofs::UnreadFacts::no_runs, crate::proofs::UnreadFacts::passed, crate::proofs::UnreadFacts::all_runs))]
fn runs_of(alloc: Global, left: &[u8]) -> Result<Vec<Stretch>, AllocError>
    ensures { IfOk result (λ it. AreRunsUpTo left.now (length left.now) it.items) }
{
    let mut runs = Vec::new(alloc);
    let mut at = 0;
    while let Some(word) = next_word(left, at) {
        if !is_connective(&left[word.start..word.end]) {
            add(left, &mut runs, word)?;
        }
        at = word.end;
    }
    Ok(runs)
}

/// Adds an unread word to the last run, if nothing is between them that no run goes past, or else as a run.
#[tactic(auto, using(crate::proofs::UnreadFacts::first_added, crate::proofs::UnreadFacts::added_apart, crate::proofs::UnreadFacts::added_longer))]
fn add(left: &[u8], runs: &mut Vec<Stretch>, word: Stretch) -> Result<(), AllocError>
    ensures { IfOk result (λ _. (from : ℕ) → AreRunsUpTo left.now from runs.old.items
        → IsNextWord left.now from word → AreRunsUpTo left.now word.end runs.new.items) }
{
    let Some(last) = runs.pop() else {
        runs.push(word)?;
        return Ok(());
    };
    if has_break(left, last.end, word.start) {
        runs.push(last)?;
        runs.push(word)?;
        return Ok(());
    }
    runs.push(Stretch {
        start: last.start,
        end: word.end,
    })?;
    Ok(())
}

/// The next word from a place on.
fn next_word(left: &[u8], from: usize) -> Option<Stretch>
    ensures { MatchOption result (HasNoWord left.now from) (IsNextWord left.now from) }
{
    let start = begin_of_word(left, from);
    if start >= left.len() {
        return None;
    }
    Some(Stretch {
        start,
        end: end_of_word(left, start),
    })
}

/// Where the next word begins, from a place on, or where what is left ends.
fn begin_of_word(left: &[u8], from: usize) -> usize
    ensures after { from ≤ result }
    ensures none { (at : ℕ) → from ≤ at → at < result → is_of_word (slice_index left.now at) ≡ false }
    ensures found { result < length left.now → is_of_word (slice_index left.now result) ≡ true }
{
    for at in from..left.len() {
        if is_of_word(left[at]) {
            return at;
        }
    }
    from.max(left.len())
}

/// Where a word ends that has a byte at a place.
fn end_of_word(left: &[u8], from: usize) -> usize
    requires { from ≤ length left.now }
    ensures after { from ≤ result }
    ensures within { result ≤ length left.now }
    ensures bytes { (at : ℕ) → from ≤ at → at < result → is_of_word (slice_index left.now at) ≡ true }
    ensures ends { is_of_word (slice_index left.now result) ≡ false }
{
    for at in from..left.len() {
        if !is_of_word(left[at]) {
            return at;
        }
    }
    left.len()
}

/// Whether a line feed or a phrase is between two places.
fn has_break(left: &[u8], from: usize, to: usize) -> bool
    ensures { result ≡ false → (at : ℕ) → from ≤ at → at < to
        → is_break (slice_index left.now at) ≡ false }
{
    for at in from..to {
        if at >= left.len() || is_break(left[at]) {
            return true;
        }
    }
    false
}

/// Whether a byte is one that no run goes past.
fn is_break(byte: u8) -> bool
    ensures { result ≡ is_break byte }
{
    byte == 0 || byte == b'\n'
}

/// Whether a byte is one of a word.
fn is_of_word(byte: u8) -> bool
    ensures { result ≡ is_of_word byte }
{
    (48 <= byte && byte <= 57)
        || (97 <= byte && byte <= 122)
        || (65 <= byte && byte <= 90)
        || (35 <= byte && byte <= 37)
        || 128 <= byte
}

/// Whether a word only joins phrases.
fn is_connective(word: &[u8]) -> bool
    ensures { result ≡ is_one_of word.now connectives }
{
    is_text(word, b"and")
        || is_text(word, b"of")
        || is_text(word, b"the")
        || is_text(word, b"in")
        || is_text(word, b"said")
        || is_text(word, b"thereof")
        || is_text(word, b"also")
        || is_text(word, b"\xE2\x80\x93")
        || is_text(word, b"\xE2\x80\x94")
        || is_text(word, b"\xE2\x80\x9C")
        || is_text(word, b"\xE2\x80\x9D")
        || is_text(word, b"\xE2\x80\xA2")
}
