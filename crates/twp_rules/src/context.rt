//! What is beside a change: numbers, marks, and words before it and after it.
ghost use Rattle.std.specs.Prelude.{◌≡◌, ◌≤◌, ◌-◌, drop, length, take};
ghost use Rattle.twp_rules.specs.Rules.{are_leading, is_after_three_digits, is_between_numbers, is_fraction_digit};
ghost use Rattle.twp_rules.specs.Rules.{is_before_township, is_township, is_whole_numeral, is_whole_word, solid_before, without_spaces};

use crate::endings::beside::*;
use crate::figures::{from, is_white, without_white};
use crate::keeping::rest_of;
use crate::naming::*;
use crate::same::{begins_with, ends_with};
use crate::words::numbers::*;
use crate::words::sides::*;

/// A text without the spaces before it.
pub(crate) fn without_spaces(text: &[u8]) -> &[u8]
    ensures { result.now ≡ without_spaces text.now }
{
    for index in 0..text.len() {
        if text[index] != b' ' {
            return from(text, index);
        }
    }
    from(text, text.len())
}

/// Whether a township follows.
pub(crate) fn is_township(rest: &[u8]) -> bool
    ensures { result ≡ is_township rest.now }
{
    let digits = digits_of(rest);
    digits.len() >= 1 && digits.len() <= 4 && is_north_south(mark_after_digits(rest))
}

/// Whether a township follows a code, after white space, or in the next cell.
pub(crate) fn is_before_township(code: &[u8], after: &[u8]) -> bool
    ensures { result ≡ is_before_township code.now after.now }
{
    is_township(without_white(after))
        || (begins_with(without_white(code), b"0")
            && begins_with(after, b",")
            && is_township(rest_after(after)))
}

/// Whether zeros at a place are before the other digits of a number.
pub(crate) fn are_leading(text: &[u8], start: usize) -> bool
    ensures { result ≡ are_leading text.now start }
{
    if !byte_before(text, start).is_ascii_digit() {
        return true;
    }
    byte_before(text, less(start, 1)).is_ascii_digit()
        && !byte_before(text, less(start, 2)).is_ascii_digit()
        && digits_of(rest_of(text, start)).len() == 4
}

/// Whether three digits are before a place, and no more, but for the code of a register.
pub(crate) fn is_after_three_digits(text: &[u8], start: usize) -> bool
    ensures { result ≡ is_after_three_digits text.now start }
{
    byte_before(text, start).is_ascii_digit()
        && byte_before(text, less(start, 1)).is_ascii_digit()
        && byte_before(text, less(start, 2)).is_ascii_digit()
        && (!byte_before(text, less(start, 3)).is_ascii_digit()
            || (byte_before(text, less(start, 4)).is_ascii_digit()
                && !byte_before(text, less(start, 5)).is_ascii_digit()))
}

/// Whether a fraction digit is at a place.
pub(crate) fn is_fraction_digit(text: &[u8], start: usize, end: usize) -> bool
    ensures { result ≡ is_fraction_digit text.now start end }
{
    if is_after_three_digits(text, start) && is_side(byte_at(text, end)) {
        return true;
    }
    byte_before(text, start).is_ascii_digit()
        && byte_before(text, less(start, 1)).is_ascii_digit()
        && ends_with(before(text, less(start, 2)), b"sn")
}

/// A place some bytes before, or the beginning.
pub(crate) fn less(at: usize, count: usize) -> usize
    ensures { result ≡ at - count }
{
    at.saturating_sub(count)
}

/// Whether a word for tens has that for a number from one to nine after it, if it needs one.
pub(crate) fn is_whole_numeral(seen: &[u8], after: &[u8]) -> bool
    ensures { result ≡ is_whole_numeral seen.now after.now }
{
    !has_tens_ends(seen) || is_in_one_to_nine(word_of(after))
}

/// The last byte before a place that isn't white space, or 0.
#[tactic(auto, using(crate::proofs::NamingFacts::white_before, crate::proofs::NamingFacts::solid_is))]
pub(crate) fn solid_before(text: &[u8], at: usize) -> u8
    requires { at ≤ length text.now }
    ensures { result ≡ solid_before text.now at }
{
    for count in 0..at {
        let byte = text[at - 1 - count];
        if !is_white(byte) {
            return byte;
        }
    }
    0
}

/// Whether a hyphen or a dash is between numbers, of which the second is no township.
pub(crate) fn is_between_numbers(text: &[u8], start: usize, end: usize, seen: &[u8]) -> bool
    requires order { start ≤ end }
    requires within { end ≤ length text.now }
    ensures { result ≡ is_between_numbers text.now start end seen.now }
{
    if !is_in_dash_marks(seen) {
        return false;
    }
    let after = without_white(after(text, end));
    solid_before(text, start).is_ascii_digit()
        && byte_at(after, 0).is_ascii_digit()
        && !is_township(after)
}

/// The text before a place, or all of it.
pub(crate) fn before(text: &[u8], at: usize) -> &[u8]
    ensures { result.now ≡ take at text.now }
{
    if at > text.len() {
        return text;
    }
    let (front, _) = text.split_at(at);
    front
}

/// The text after a place.
pub(crate) fn after(text: &[u8], at: usize) -> &[u8]
    requires { at ≤ length text.now }
    ensures { result.now ≡ drop at text.now }
{
    from(text, at)
}

/// Whether neither before a text nor after it is a letter.
pub(crate) fn is_whole_word(text: &[u8], start: usize, end: usize) -> bool
    ensures { result ≡ is_whole_word text.now start end }
{
    !byte_before(text, start).is_ascii_alphabetic() && !byte_at(text, end).is_ascii_alphabetic()
}
