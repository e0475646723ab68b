//! Phrases that somebody says aren't land, such as an office's own labels and remarks: where they
//! are in a text.
ghost use Rattle.std.specs.Prelude.{◌≡◌, ◌≤◌, ◌<◌, ◌+◌, IfOk, IfSome, MatchOption, length, map, option_map};
ghost use Rattle.twp_phrases.specs.SetAside.{AreRemarks, AreSetAside, IsFirstOfLand, is_at, is_within_word};
ghost use Rattle.twp_phrases.specs.SetAside.{phrase_at};

use crate::stretches::Stretch;
use std::alloc::{AllocError, Global};
use twp_rules::{byte_at, byte_before, is_remark};

/// The first phrase that can't be set aside, by its index, since it names land, or says where land
/// ends or what is taken from it.
pub fn first_of_land(phrases: &[&[u8]]) -> Option<usize>
    ensures { MatchOption result (AreRemarks (map (λ phrase. phrase.now) phrases.now))
        (IsFirstOfLand (map (λ phrase. phrase.now) phrases.now)) }
{
    for index in 0..phrases.len() {
        if !is_remark(phrases[index]) {
            return Some(index);
        }
    }
    None
}

/// The places of the phrases in a text, from left to right: at each place past the last of them,
/// the first phrase that is there, in letters of either case, as whole words.
pub fn set_aside(alloc: Global, text: &[u8], phrases: &[&[u8]]) -> Result<Vec<Stretch>, AllocError>
    ensures { IfOk result (λ it.
        AreSetAside (map (λ phrase. phrase.now) phrases.now) text.now it.items) }
{
    let mut found = Vec::new(alloc);
    let mut at = 0;
    'places: while at < text.len() {
        let Some(length) = length_at(text, at, phrases) else {
            at += 1;
            continue;
        };
        found.push(Stretch {
            start: at,
            end: at + length,
        })?;
        at += length;
    }
    Ok(found)
}

/// The length of the first phrase of the list that is at a place.
fn length_at(text: &[u8], at: usize, phrases: &[&[u8]]) -> Option<usize>
    requires { at ≤ length text.now }
    ensures length { result ≡ option_map length
        (phrase_at (map (λ phrase. phrase.now) phrases.now) text.now at) }
    ensures some { IfSome result (λ size. 0 < size) }
    ensures within { IfSome result (λ size. at + size ≤ length text.now) }
{
    for index in 0..phrases.len() {
        if is_at(text, at, phrases[index]) {
            return Some(phrases[index].len());
        }
    }
    None
}

/// Whether a phrase is at a place, in letters of either case, and neither of its ends is within a word.
fn is_at(text: &[u8], at: usize, phrase: &[u8]) -> bool
    requires { at ≤ length text.now }
    ensures { result ≡ is_at text.now at phrase.now }
{
    let end = at + phrase.len();
    if phrase.is_empty() || text.len() < end {
        return false;
    }
    text[at..end].eq_ignore_ascii_case(phrase)
        && !is_within_word(text, at)
        && !is_within_word(text, end)
}

/// Whether a letter or digit is before a place, and one is at it.
fn is_within_word(text: &[u8], at: usize) -> bool
    ensures { result ≡ is_within_word text.now at }
{
    byte_before(text, at).is_ascii_alphanumeric() && byte_at(text, at).is_ascii_alphanumeric()
}
