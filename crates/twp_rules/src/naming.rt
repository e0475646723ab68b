//! Whether a text names land, and whether a number in it may be that of a section or a lot.
ghost use Rattle.std.specs.Prelude.{◌≡◌, ◌≤◌, ◌&&◌, [], ◌∷◌};
ghost use Rattle.std.specs.Prelude.{if◌then◌else◌, true, drop, length, not, slice_index};
ghost use Rattle.twp_rules.specs.Edges.{byte_before, is_one_of};
ghost use Rattle.twp_rules.specs.Naming.{are_corners_from, begins_number, begins_word};
ghost use Rattle.twp_rules.specs.Naming.{digits_of, goes_on, has_no_bare_number};
ghost use Rattle.twp_rules.specs.Naming.{has_no_land, is_explained_at, is_no_section};
ghost use Rattle.twp_rules.specs.Naming.{is_of_something_else, is_side, makes_half};
ghost use Rattle.twp_rules.specs.Naming.{mark_after_digits, name_after};
ghost use Rattle.twp_rules.specs.Naming.{names_land_at, names_no_land, number_names_township};
ghost use Rattle.twp_rules.specs.Naming.{word_names_land, word_of};
ghost use Rattle.twp_rules.specs.Words.{east_west, half_fronts, north_south};

use crate::figures::{from, without_white};
use crate::rows::begins_with_one;
use crate::same::{are_same, begins_with};
use crate::words::land::*;
use crate::words::numbers::*;
use crate::words::sides::*;

/// The texts `half_fronts` of the specification.
static HALF_FRONTS: [[u8; 8]; 7] = [
    *b"/2______",
    *b"/ 2_____",
    *b"1/2_____",
    *b"\xC2\xBD______",
    *b"half____",
    *b"one-half",
    *b"one half",
];

/// Whether a text names no land, and has no number that may be that of a section or a lot. Both are looked
/// for at once, where a word or a number begins.
#[tactic(auto, using(crate::proofs::NamingFacts::nothing_here, crate::proofs::NamingFacts::none_here, crate::proofs::NamingFacts::land_here, crate::proofs::NamingFacts::bare_here))]
pub(crate) fn names_no_land(seen: &[u8]) -> bool
    ensures { result ≡ names_no_land seen.now }
{
    let mut named: &[u8] = b"";
    for at in 0..seen.len() {
        if begins_nothing(seen, at) {
            continue;
        }
        if names_land_at(seen, at) {
            return false;
        }
        if !is_explained_at(seen, at, named) {
            return false;
        }
        named = named_after(seen, at, named);
    }
    true
}

/// Whether neither a word nor a number begins at a place.
pub(crate) fn begins_nothing(seen: &[u8], at: usize) -> bool
    ensures { result ≡ (not (begins_word seen.now at) && not (begins_number seen.now at)) }
{
    !begins_word(seen, at) && !begins_number(seen, at)
}

/// Whether no land is named in a text.
#[tactic(auto, using(crate::proofs::NamingFacts::next_names_none))]
pub(crate) fn has_no_land(seen: &[u8]) -> bool
    ensures { result ≡ has_no_land seen.now }
{
    for at in 0..seen.len() {
        if names_land_at(seen, at) {
            return false;
        }
    }
    true
}

/// Whether each number in a text is that of something other than a section or a lot.
#[tactic(auto, using(crate::proofs::NamingFacts::next_is_explained))]
pub(crate) fn has_no_bare_number(seen: &[u8]) -> bool
    ensures { result ≡ has_no_bare_number seen.now }
{
    let mut named: &[u8] = b"";
    for at in 0..seen.len() {
        if !is_explained_at(seen, at, named) {
            return false;
        }
        named = named_after(seen, at, named);
    }
    true
}

/// Whether a number at a place, if there is one, belongs to something other than a section or a
/// lot. The word before it is the one with which `named` begins.
pub(crate) fn is_explained_at(seen: &[u8], at: usize, named: &[u8]) -> bool
    requires { at ≤ length seen.now }
    ensures { result ≡ is_explained_at seen.now at (word_of named.now) (drop at seen.now) }
{
    !begins_number(seen, at) || is_of_something_else(seen, at, word_of(named))
}

/// The text from the last word on that may name a number: a number ends it.
pub(crate) fn named_after<'a>(seen: &'a [u8], at: usize, named: &'a [u8]) -> &'a [u8]
    requires { at ≤ length seen.now }
    ensures { word_of result.now ≡ name_after seen.now at (word_of named.now) (drop at seen.now) }
{
    if begins_word(seen, at) {
        return from(seen, at);
    }
    if begins_number(seen, at) {
        return b"";
    }
    named
}

/// Whether land is named at a place.
pub(crate) fn names_land_at(seen: &[u8], at: usize) -> bool
    requires { at ≤ length seen.now }
    ensures { result ≡ names_land_at seen.now at (drop at seen.now) }
{
    if begins_word(seen, at) {
        let rest = from(seen, at);
        let word = word_of(rest);
        return word_names_land(word, from(rest, word.len()));
    }
    if begins_number(seen, at) {
        let rest = from(seen, at);
        let digits = digits_of(rest);
        return number_names_township(digits, from(rest, digits.len()));
    }
    false
}

/// Whether a word, with what is after it, names land.
fn word_names_land(word: &[u8], after: &[u8]) -> bool
    ensures { result ≡ word_names_land word.now after.now }
{
    is_in_land_words(word)
        || (!are_same(word, b"") && are_corners(word))
        || (is_in_side_names(word) && makes_half(without_white(after)))
        || (is_in_number_letters(word)
            && byte_at(after, 0).is_ascii_digit()
            && digits_of(after).len() <= 4)
}

/// Whether digits, with what is after them, are the number of a township or a range.
fn number_names_township(digits: &[u8], after: &[u8]) -> bool
    ensures { result ≡ number_names_township digits.now after.now }
{
    digits.len() <= 4 && is_side(byte_at(after, 0)) && !byte_at(after, 1).is_ascii_alphanumeric()
}

/// Whether a byte is N, S, E, or W, in either case.
pub fn is_side(byte: u8) -> bool
    ensures { result ≡ is_side byte }
{
    is_north_south(byte) || is_east_west(byte)
}

/// Whether a word is corners alone.
pub(crate) fn are_corners(word: &[u8]) -> bool
    ensures { result ≡ are_corners_from true word.now }
{
    let mut is_first = true;
    for byte in word {
        if !is_of_corner(is_first, *byte) {
            return false;
        }
        is_first = !is_first;
    }
    is_first
}

/// Whether a letter may be the first of a corner, or the second.
fn is_of_corner(is_first: bool, byte: u8) -> bool
    ensures { result ≡ (if is_first then is_one_of (byte ∷ []) north_south else is_one_of (byte ∷ []) east_west) }
{
    if is_first {
        is_north_south(byte)
    } else {
        is_east_west(byte)
    }
}

/// Whether what follows a side makes a half of it.
pub(crate) fn makes_half(rest: &[u8]) -> bool
    ensures { result ≡ makes_half rest.now }
{
    begins_with_one(rest, 0x0002_8104, &HALF_FRONTS)
        || (begins_with(rest, b"2") && !byte_at(rest, 1).is_ascii_digit())
}

/// Whether a number is not that of a section or a lot: `name` is the word before it.
fn is_of_something_else(seen: &[u8], at: usize, name: &[u8]) -> bool
    requires { at ≤ length seen.now }
    ensures { result ≡ is_of_something_else seen.now at name.now (digits_of (drop at seen.now))
        (drop (length (digits_of (drop at seen.now))) (drop at seen.now)) }
{
    let rest = from(seen, at);
    let digits = digits_of(rest);
    let after = from(rest, digits.len());
    is_no_section(digits)
        || is_in_numbered_words(name)
        || is_in_marks_before_codes(byte_before(seen, at))
        || goes_on(name, after)
        || is_in_units(word_of(without_white(after)))
}

/// Whether digits are not the number of a section: 0, more than two digits, or more than 36.
fn is_no_section(digits: &[u8]) -> bool
    ensures { result ≡ is_no_section digits.now }
{
    if are_same(digits, b"0") || digits.len() >= 3 {
        return true;
    }
    digits.len() == 2
        && (byte_at(digits, 0) >= b'4'
            || (byte_at(digits, 0) == b'3' && byte_at(digits, 1) >= b'7'))
}

/// Whether what is after digits makes them a code, a date, or a figure.
fn goes_on(name: &[u8], after: &[u8]) -> bool
    ensures { result ≡ goes_on name.now after.now }
{
    let next = byte_at(after, 0);
    next.is_ascii_alphabetic()
        || is_in_code_marks(next)
        || (is_in_figure_marks(next) && byte_at(after, 1).is_ascii_digit())
        || (is_in_date_marks(next)
            && (!are_same(name, b"") || is_in_date_marks(mark_after_digits(rest_after(after)))))
}

/// The byte after the digits with which a text begins.
pub(crate) fn mark_after_digits(rest: &[u8]) -> u8
    ensures { result ≡ mark_after_digits rest.now }
{
    byte_at(rest, digits_of(rest).len())
}

/// A text without its first byte.
pub(crate) fn rest_after(text: &[u8]) -> &[u8]
    ensures { result.now ≡ drop 1 text.now }
{
    if text.is_empty() {
        return b"";
    }
    from(text, 1)
}

/// The letters with which a text begins.
pub fn word_of(seen: &[u8]) -> &[u8]
    ensures word { result.now ≡ word_of seen.now }
    ensures within { length result.now ≤ length seen.now }
{
    for index in 0..seen.len() {
        if !seen[index].is_ascii_alphabetic() {
            let (word, _) = seen.split_at(index);
            return word;
        }
    }
    seen
}

/// The digits with which a text begins.
pub fn digits_of(seen: &[u8]) -> &[u8]
    ensures digits { result.now ≡ digits_of seen.now }
    ensures within { length result.now ≤ length seen.now }
{
    for index in 0..seen.len() {
        if !seen[index].is_ascii_digit() {
            let (digits, _) = seen.split_at(index);
            return digits;
        }
    }
    seen
}

/// Whether a word begins at a place.
pub(crate) fn begins_word(seen: &[u8], at: usize) -> bool
    ensures { result ≡ begins_word seen.now at }
{
    byte_at(seen, at).is_ascii_alphabetic() && !byte_before(seen, at).is_ascii_alphabetic()
}

/// Whether a number begins at a place.
pub(crate) fn begins_number(seen: &[u8], at: usize) -> bool
    ensures { result ≡ begins_number seen.now at }
{
    byte_at(seen, at).is_ascii_digit() && !byte_before(seen, at).is_ascii_alphanumeric()
}

/// The byte at a place, or 0 at the end and after it.
pub fn byte_at(text: &[u8], at: usize) -> u8
    ensures { result ≡ slice_index text.now at }
{
    if at < text.len() { text[at] } else { 0 }
}

/// The byte before a place, or 0 at the beginning.
pub fn byte_before(text: &[u8], at: usize) -> u8
    ensures { result ≡ byte_before text.now at }
{
    if at == 0 { 0 } else { byte_at(text, at - 1) }
}
