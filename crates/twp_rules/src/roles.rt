//! What a text says of its numbers: whether one is that of a section, and whether it is whole.
ghost use Rattle.std.specs.Prelude.{◌≡◌, ◌≤◌, drop, length};
ghost use Rattle.twp_rules.specs.Edges.{byte_before};
ghost use Rattle.twp_rules.specs.Naming.{word_of};
ghost use Rattle.twp_rules.specs.Roles.{after_letter, begins_list, begins_whole, begins_with_tier, byte_before_spaces};
ghost use Rattle.twp_rules.specs.Roles.{ends_whole, is_before_number};
ghost use Rattle.twp_rules.specs.Roles.{goes_on_with_list, is_apart, is_before_land_mark, is_before_township, is_in_list};
ghost use Rattle.twp_rules.specs.Roles.{is_north_south_word, is_of_register, is_said_section, is_section_sign_at};
ghost use Rattle.twp_rules.specs.Roles.{without_location_marks, without_township_word};

use crate::context::{are_leading, before, is_fraction_digit, less, solid_before, without_spaces};
use crate::endings::beside::*;
use crate::figures::{from, is_white, without_white};
use crate::keeping::rest_of;
use crate::naming::{begins_word, byte_at, byte_before, digits_of, makes_half, word_of};
use crate::same::is_text;
use crate::words::land::*;
use crate::words::numbers::*;
use crate::words::sections::*;
use crate::words::sides::*;

/// Whether a text says that the number from one place up to another is that of a section.
pub(crate) fn is_said_section(text: &[u8], start: usize, end: usize) -> bool
    requires { start ≤ length text.now }
    ensures { result ≡ is_said_section text.now start end }
{
    let rest = rest_of(text, end);
    is_in_list(text, start)
        || is_before_township(rest)
        || is_of_register(text, start, end)
        || (is_apart(text, start) && is_before_land_mark(rest))
}

/// Whether no digit is before a number but zeros.
pub(crate) fn begins_whole(text: &[u8], at: usize) -> bool
    ensures { result ≡ begins_whole text.now at }
{
    if are_leading(text, at) {
        return true;
    }
    let (one, two, three) = (less(at, 1), less(at, 2), less(at, 3));
    byte_before(text, at) == b'0'
        && (are_leading(text, one)
            || (byte_before(text, one) == b'0'
                && (are_leading(text, two)
                    || (byte_before(text, two) == b'0' && are_leading(text, three)))))
}

/// Whether no digit is after a number but a fraction digit.
pub(crate) fn ends_whole(text: &[u8], at: usize) -> bool
    requires { at ≤ length text.now }
    ensures { result ≡ ends_whole text.now at }
{
    !byte_at(text, at).is_ascii_digit() || is_fraction_digit(text, at, at + 1)
}

/// Whether the last word before a place that isn't of numbers is one that begins a list of sections.
#[tactic(auto, using(crate::proofs::RoleFacts::word_begins, crate::proofs::RoleFacts::word_ends, crate::proofs::RoleFacts::word_goes_on, crate::proofs::RoleFacts::sign_begins, crate::proofs::RoleFacts::mark_is_passed))]
fn is_in_list(text: &[u8], start: usize) -> bool
    requires { start ≤ length text.now }
    ensures { result ≡ is_in_list text.now start }
{
    for count in 0..start {
        let at = start - 1 - count;
        if begins_word(text, at) {
            if begins_list_at(text, at) {
                return true;
            }
            if !goes_on_at(text, at) {
                return false;
            }
        } else if is_section_sign(text, at) {
            return true;
        }
    }
    false
}

/// Whether the word at a place begins a list of sections.
fn begins_list_at(text: &[u8], at: usize) -> bool
    requires { at ≤ length text.now }
    ensures { result ≡ begins_list (byte_before text.now at) (word_of (drop at text.now))
        (drop (length (word_of (drop at text.now))) (drop at text.now)) }
{
    let rest = from(text, at);
    let word = word_of(rest);
    begins_list(byte_before(text, at), word, from(rest, word.len()))
}

/// Whether the word at a place goes on with a list.
fn goes_on_at(text: &[u8], at: usize) -> bool
    requires { at ≤ length text.now }
    ensures { result ≡ goes_on_with_list (word_of (drop at text.now)) }
{
    goes_on_with_list(word_of(from(text, at)))
}

/// Whether a word goes on with a list of sections.
pub(crate) fn goes_on_with_list(word: &[u8]) -> bool
    ensures { result ≡ goes_on_with_list word.now }
{
    is_in_list_words(word) || is_in_number_words(word)
}

/// Whether the last byte of a section sign is at a place.
fn is_section_sign(text: &[u8], at: usize) -> bool
    ensures { result ≡ is_section_sign_at text.now at }
{
    byte_at(text, at) == 167 && byte_before(text, at) == 194
}

/// What is after the letter of a section, without a period or a colon, and white space.
fn after_letter(after: &[u8]) -> &[u8]
    ensures { result.now ≡ after_letter after.now }
{
    if is_in_letter_marks(byte_at(after, 0)) {
        return without_white(from(after, 1));
    }
    without_white(after)
}

/// Whether the number of a section is after its letter, and not what makes a half of it.
fn is_before_number(rest: &[u8]) -> bool
    ensures { result ≡ is_before_number rest.now }
{
    byte_at(rest, 0).is_ascii_digit() && !makes_half(rest)
}

/// Whether a word begins a list of sections.
fn begins_list(before: u8, word: &[u8], after: &[u8]) -> bool
    ensures { result ≡ begins_list before word.now after.now }
{
    is_in_section_names(word)
        || (is_text(word, b"s") && is_before_number(after_letter(after)))
        || (is_text(word, b"of") && byte_at(without_white(after), 0).is_ascii_digit())
        || (is_in_east_west(word) && before.is_ascii_digit())
}

/// A text without the white space and the marks of a location before it.
pub(crate) fn without_location_marks(text: &[u8]) -> &[u8]
    ensures { result.now ≡ without_location_marks text.now }
{
    for index in 0..text.len() {
        if !is_white(text[index]) && !is_in_location_marks(text[index]) {
            return from(text, index);
        }
    }
    from(text, text.len())
}

/// A text without the word with which it begins, if that is one before the number of a township.
fn without_township_word(rest: &[u8]) -> &[u8]
    ensures { result.now ≡ without_township_word rest.now }
{
    let word = word_of(rest);
    if is_in_township_words(word) {
        return without_location_marks(from(rest, word.len()));
    }
    rest
}

/// Whether a word is one for north or south.
pub(crate) fn is_north_south_word(word: &[u8]) -> bool
    ensures { result ≡ is_north_south_word word.now }
{
    is_in_north_words(word) || is_in_south_words(word)
}

/// Whether a text begins with the number of a township, and north or south.
fn begins_with_tier(rest: &[u8]) -> bool
    ensures { result ≡ begins_with_tier rest.now }
{
    let digits = digits_of(rest);
    digits.len() >= 1
        && digits.len() <= 4
        && is_north_south_word(word_of(without_location_marks(from(rest, digits.len()))))
}

/// Whether a township follows.
fn is_before_township(rest: &[u8]) -> bool
    ensures { result ≡ is_before_township rest.now }
{
    begins_with_tier(without_township_word(without_location_marks(rest)))
}

/// Whether a number is written as registers write a section.
fn is_of_register(text: &[u8], start: usize, end: usize) -> bool
    ensures { result ≡ is_of_register text.now start end }
{
    if byte_before(text, start) != b'0' {
        return false;
    }
    let one = byte_before(text, less(start, 1));
    if end >= 2 && end - 2 == start {
        return !one.is_ascii_digit();
    }
    one == b'0' && !byte_before(text, less(start, 2)).is_ascii_digit()
}

/// The last byte before a place that isn't a space, or 0.
#[tactic(auto, using(crate::proofs::RoleFacts::space_before, crate::proofs::RoleFacts::other_before))]
fn byte_before_spaces(text: &[u8], at: usize) -> u8
    requires { at ≤ length text.now }
    ensures { result ≡ byte_before_spaces text.now at }
{
    for count in 0..at {
        let byte = text[at - 1 - count];
        if byte != b' ' {
            return byte;
        }
    }
    0
}

/// Whether a number is apart from land before it.
pub(crate) fn is_apart(text: &[u8], at: usize) -> bool
    requires { at ≤ length text.now }
    ensures { result ≡ is_apart text.now at }
{
    let near = byte_before_spaces(text, at);
    let solid = solid_before(text, at);
    matches!(near, 0 | b'\t' | b'\n')
        || solid == 0
        || is_in_apart_marks(solid)
        || has_words_apart(before(text, at))
}

/// Whether a mark between a section and its land follows.
fn is_before_land_mark(rest: &[u8]) -> bool
    ensures { result ≡ is_before_land_mark rest.now }
{
    let next = without_spaces(rest);
    is_in_before_land_marks(byte_at(next, 0)) || has_dash_fronts(next)
}
