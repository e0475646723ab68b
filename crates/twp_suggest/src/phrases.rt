//! The phrase of a text that a change of a reading is about.
ghost use Rattle.std.specs.Prelude.{◌≡◌, ◌≤◌, ◌+◌, drop, length, slice_range};
ghost use Rattle.twp_rules.specs.Changes.{seen};
ghost use Rattle.twp_suggest.specs.Assumptions.{is_between_words, phrase, phrase_by, white_end, white_length};
ghost use Rattle.twp_suggest.specs.Assumptions.{white_start, without_period, word_end, word_length, word_start, words_around};

use crate::bytes::{after, between, byte_at, front, is_white};
use twp_rules::{Change, Rule};

/// The phrase of a text that a change is about: what it leaves out; and where it assumes that a
/// letter is wrong, or that no comma is missing, the words around it.
pub fn phrase_of<'a>(text: &'a [u8], change: &Change<'_>) -> &'a [u8]
    ensures { result.now ≡ phrase text.now (seen change.now) }
{
    phrase_by(change.rule, text, change.start, change.end)
}

/// The phrase that a change by a rule is about, from one place up to another.
fn phrase_by(rule: Rule, text: &[u8], start: usize, end: usize) -> &[u8]
    ensures { result.now ≡ phrase_by rule text.now start end }
{
    match rule {
        Rule::Meridian | Rule::Acreage | Rule::Label | Rule::Repeated => between(text, start, end),
        Rule::Copied(first, last) => words_around(text, first, last),
        Rule::OnePart => words_around(text, white_start(text, start), white_end(text, end)),
        _ => words_around(text, start, end),
    }
}

/// The words that a text has from one place up to another, whole, without the period at their end.
fn words_around(text: &[u8], start: usize, end: usize) -> &[u8]
    ensures { result.now ≡ words_around text.now start end }
{
    without_period(between(text, word_start(text, start), word_end(text, end)))
}

/// A text without the period at its end.
fn without_period(bytes: &[u8]) -> &[u8]
    ensures { result.now ≡ without_period bytes.now }
{
    let last = bytes.len().saturating_sub(1);
    if byte_at(bytes, last) == b'.' {
        return front(bytes, last);
    }
    bytes
}

/// Where the word before a place begins.
#[tactic(auto, using(crate::proofs::PlaceFacts::word_goes_on, crate::proofs::PlaceFacts::word_begins))]
fn word_start(text: &[u8], at: usize) -> usize
    ensures { result ≡ word_start text.now at }
{
    for count in 0..at {
        if is_between_words(byte_at(text, at - 1 - count)) {
            return at - count;
        }
    }
    0
}

/// Where the white space before a place begins.
#[tactic(auto, using(crate::proofs::PlaceFacts::white_goes_on, crate::proofs::PlaceFacts::white_begins))]
fn white_start(text: &[u8], at: usize) -> usize
    ensures { result ≡ white_start text.now at }
{
    for count in 0..at {
        if !is_white(byte_at(text, at - 1 - count)) {
            return at - count;
        }
    }
    0
}

/// Where the word after a place ends.
fn word_end(text: &[u8], at: usize) -> usize
    ensures { result ≡ word_end text.now at }
{
    at + word_length(after(text, at))
}

/// Where the white space after a place ends.
fn white_end(text: &[u8], at: usize) -> usize
    ensures { result ≡ white_end text.now at }
{
    at + white_length(after(text, at))
}

/// How long the word is with which a text begins.
fn word_length(rest: &[u8]) -> usize
    ensures counted { result ≡ word_length rest.now }
    ensures within { result ≤ length rest.now }
{
    for index in 0..rest.len() {
        if is_between_words(rest[index]) {
            return index;
        }
    }
    rest.len()
}

/// How long the white space is with which a text begins.
fn white_length(rest: &[u8]) -> usize
    ensures counted { result ≡ white_length rest.now }
    ensures within { result ≤ length rest.now }
{
    for index in 0..rest.len() {
        if !is_white(rest[index]) {
            return index;
        }
    }
    rest.len()
}

/// Whether a byte is between words.
fn is_between_words(byte: u8) -> bool
    ensures { result ≡ is_between_words byte }
{
    is_white(byte) || byte == b',' || byte == b';' || byte == b':' || byte == b'|'
}
