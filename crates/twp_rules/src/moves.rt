//! Whether what is left out where it is written elsewhere is written.
ghost use Rattle.std.specs.Prelude.{◌≡◌, ◌≤◌, length, map};
ghost use Rattle.twp_rules.specs.Changes.{AreChangesFrom, seen};
ghost use Rattle.twp_rules.specs.Moves.{are_written_from, copies_place, digits_alone, end_of_number, first_place, grown, is_digit_at, is_copied_by};
ghost use Rattle.twp_rules.specs.Moves.{is_named_last, is_number_at, is_same_number, is_written_at, is_written_by, keep_moved, named_after, named_by};
ghost use Rattle.twp_rules.specs.Moves.{named_with, nothing_named, number_at, role_named_by, side_by, value_from};
ghost use Rattle.std.specs.Prelude.{◌<◌, codes, drop, slice_range};
ghost use Rattle.twp_rules.specs.Edges.{begins_with_one};
ghost use Rattle.twp_rules.specs.Lists.{words};
ghost use Rattle.twp_rules.specs.steps.Moved.{are_copied_from, are_moved_copied, is_copied_at, moves};

use crate::change::{Change, between};
use crate::context::{before, is_fraction_digit, less};
use crate::keeping::{rest_of, side_after, without_zeros};
use crate::named::Named;
use crate::naming::{begins_word, byte_at, byte_before, digits_of, word_of};
use crate::role::NumberRole;
use crate::roles::is_north_south_word;
use crate::rule::Rule;
use crate::same::begins_with;
use crate::words::numbers::*;
use crate::words::sections::*;

/// Whether each number of the text that is moved is written elsewhere. In most texts, each is
/// copied, or nothing is moved, and then it doesn't matter what was named last.
#[tactic(auto, using(crate::proofs::ChangeFacts::next_moved, crate::proofs::ChangeFacts::not_written, crate::proofs::ChangeFacts::start_within, crate::proofs::ChangeFacts::end_within, crate::proofs::MoveFacts::all_are_copied))]
pub(crate) fn is_moved_text_written(text: &[u8], changes: &[Change<'_>]) -> bool
    requires { AreChangesFrom 0 text.now (map seen changes.now) }
    ensures { result ≡ keep_moved text.now (map seen changes.now) 0 nothing_named (map seen changes.now) }
{
    if are_moved_copied(text, changes) {
        return true;
    }
    let mut at = 0;
    let mut named = Named {
        next: NumberRole::Nothing,
        section: 0,
        tier: 0,
        tier_side: 0,
        range: 0,
        range_side: 0,
        before: 0,
    };
    for change in changes {
        let before = named_after(named, between(text, at, change.start));
        if !is_written_by(text, changes, before, change.start, change.end, change.rule) {
            return false;
        }
        named = named_after(before, change.written);
        at = change.end;
    }
    true
}

/// Whether each number of what is moved is copied.
#[tactic(auto, using(crate::proofs::ChangeFacts::order_of, crate::proofs::ChangeFacts::end_of))]
fn are_moved_copied(text: &[u8], changes: &[Change<'_>]) -> bool
    requires { AreChangesFrom 0 text.now (map seen changes.now) }
    ensures { result ≡ are_moved_copied text.now (map seen changes.now) (map seen changes.now) }
{
    for change in changes {
        if moves(change.rule) && !are_copied(text, changes, change.start, change.end) {
            return false;
        }
    }
    true
}

/// Whether each number from one place up to another is copied.
#[tactic(auto, using(crate::proofs::MoveFacts::next_is_copied, crate::proofs::MoveFacts::is_not_copied))]
fn are_copied(text: &[u8], changes: &[Change<'_>], start: usize, end: usize) -> bool
    requires order { start ≤ end }
    requires within { end ≤ length text.now }
    ensures { result ≡ are_copied_from text.now (map seen changes.now) start start (slice_range text.now start end) }
{
    let left_out = &text[start..end];
    for index in 0..left_out.len() {
        if !is_copied_at(text, changes, start, start + index) {
            return false;
        }
    }
    true
}

/// Whether the number at a place, if one begins there, is copied.
fn is_copied_at(text: &[u8], changes: &[Change<'_>], start: usize, at: usize) -> bool
    ensures { result ≡ is_copied_at text.now (map seen changes.now) start at }
{
    !is_number_at(text, start, at) || is_copied_by(changes, first_place(text, at))
}

/// Whether a rule leaves out what is written elsewhere.
fn moves(rule: Rule) -> bool
    ensures { result ≡ moves rule }
{
    matches!(rule, Rule::MovedSection | Rule::MovedHeading)
}

/// Whether what a change leaves out is written elsewhere, if its rule says so.
fn is_written_by(
    text: &[u8],
    changes: &[Change<'_>],
    it: Named,
    start: usize,
    end: usize,
    rule: Rule,
) -> bool
    requires order { start ≤ end }
    requires within { end ≤ length text.now }
    ensures { result ≡ is_written_by text.now (map seen changes.now) it start (slice_range text.now start end) rule }
{
    match rule {
        Rule::MovedSection => are_written(text, changes, NumberRole::Section, it, start, end),
        Rule::MovedHeading => are_written(text, changes, NumberRole::Tier, it, start, end),
        _ => true,
    }
}

/// Whether each number from one place up to another is written elsewhere.
#[tactic(auto, using(crate::proofs::MoveFacts::next_is_written, crate::proofs::MoveFacts::is_not_written))]
fn are_written(
    text: &[u8],
    changes: &[Change<'_>],
    role: NumberRole,
    it: Named,
    start: usize,
    end: usize,
) -> bool
    requires order { start ≤ end }
    requires within { end ≤ length text.now }
    ensures { result ≡ are_written_from text.now (map seen changes.now) role it start start (slice_range text.now start end) }
{
    let left_out = &text[start..end];
    for index in 0..left_out.len() {
        if !is_written_at(text, changes, role, it, start, start + index) {
            return false;
        }
    }
    true
}

/// Whether the number at a place, if one begins there, is written elsewhere.
fn is_written_at(
    text: &[u8],
    changes: &[Change<'_>],
    role: NumberRole,
    it: Named,
    start: usize,
    at: usize,
) -> bool
    requires { at < length text.now }
    ensures { result ≡ is_written_at text.now (map seen changes.now) role it start at }
{
    !is_number_at(text, start, at)
        || (byte_at(text, at).is_ascii_digit() && is_named_last(text, role, it, at))
        || is_copied_by(changes, first_place(text, at))
}

/// Whether a number begins at a place of what is left out, which begins at another.
#[inline(always)]
fn is_number_at(text: &[u8], start: usize, at: usize) -> bool
    ensures { result ≡ is_number_at text.now start at }
{
    is_digit_at(text, start, at)
        || (begins_word(text, at) && is_in_numeral_words(word_of(rest_of(text, at))))
}

/// Whether a digit at a place begins a number.
fn is_digit_at(text: &[u8], start: usize, at: usize) -> bool
    ensures { result ≡ is_digit_at text.now start at }
{
    byte_at(text, at).is_ascii_digit()
        && (!byte_before(text, at).is_ascii_digit() || at == start)
        && !is_in_word(rest_of(text, at))
}

/// Whether the digit with which a text begins is of a word for a section: that of a register, or
/// one with a damaged letter.
fn is_in_word(rest: &[u8]) -> bool
    ensures { result ≡ begins_with_one rest.now (words (codes "0sn 5ec 8ec")) }
{
    begins_with(rest, b"0sn") || begins_with(rest, b"5ec") || begins_with(rest, b"8ec")
}

/// The place of the first digit of a number that isn't 0, or of its first 0 if it has no other
/// digit, or of the word for it.
fn first_place(text: &[u8], at: usize) -> usize
    ensures { result ≡ first_place text.now at }
{
    let digits = without_zeros(rest_of(text, at));
    if byte_at(text, at).is_ascii_digit() && byte_at(digits, 0).is_ascii_digit() {
        return text.len().saturating_sub(digits.len());
    }
    at
}

/// Whether the number at a place is that of the section named last, or of the township or range
/// with its side.
fn is_named_last(text: &[u8], role: NumberRole, it: Named, at: usize) -> bool
    requires { at < length text.now }
    ensures { result ≡ is_named_last text.now role it at }
{
    match role {
        NumberRole::Section => value_of(number_at(text, at)) == it.section,
        NumberRole::Tier => {
            let value = value_of(number_at(text, at));
            let side = side_after(text, end_of_number(text, at));
            if is_north_south_word(side) {
                is_same_number(value, it.tier, side, it.tier_side)
            } else {
                is_same_number(value, it.range, side, it.range_side)
            }
        }
        _ => false,
    }
}

/// Whether a number and the first letter of its side are those that were named last.
fn is_same_number(value: u16, last: u16, side: &[u8], letter: u8) -> bool
    ensures { result ≡ is_same_number value last side.now letter }
{
    value == last && byte_at(side, 0).to_ascii_lowercase() == letter
}

/// The digits of the number at a place, without zeros before them and without a fraction digit.
fn number_at(text: &[u8], at: usize) -> &[u8]
    requires { at < length text.now }
    ensures { result.now ≡ number_at text.now at }
{
    digits_alone(text, at, digits_of(rest_of(text, at)))
}

/// Digits at a place without zeros before them and without a fraction digit.
fn digits_alone<'a>(text: &'a [u8], at: usize, digits: &'a [u8]) -> &'a [u8]
    requires place { at < length text.now }
    requires size { length digits.now ≤ length text.now }
    ensures { result.now ≡ digits_alone text.now at digits.now }
{
    let end = at + digits.len();
    if is_fraction_digit(text, less(end, 1), end) {
        return without_zeros(before(digits, less(digits.len(), 1)));
    }
    without_zeros(digits)
}

/// Where a number ends, also in parentheses.
fn end_of_number(text: &[u8], at: usize) -> usize
    requires { at < length text.now }
    ensures { result ≡ end_of_number text.now at }
{
    let end = at + digits_of(rest_of(text, at)).len();
    if byte_at(text, end) == b')' {
        return end + 1;
    }
    end
}

/// The number of digits.
fn value_of(digits: &[u8]) -> u16
    ensures { result ≡ value_from 0 digits.now }
{
    let mut value: u16 = 0;
    for digit in digits {
        value = grown(value, *digit);
    }
    value
}

/// A number with one more digit, of at most four.
fn grown(value: u16, digit: u8) -> u16
    ensures { result ≡ grown value digit }
{
    if value < 1_000 {
        return value * 10 + u16::from(digit.saturating_sub(b'0'));
    }
    value
}

/// Whether some change copies the byte at a place.
fn is_copied_by(changes: &[Change<'_>], at: usize) -> bool
    ensures { result ≡ is_copied_by (map seen changes.now) at }
{
    for change in changes {
        if copies_place(at, change.rule) {
            return true;
        }
    }
    false
}

/// Whether a rule copies the byte at a place.
fn copies_place(at: usize, rule: Rule) -> bool
    ensures { result ≡ copies_place at rule }
{
    match rule {
        Rule::Copied(from, to) => from <= at && at < to,
        _ => false,
    }
}

/// What is named after more bytes.
fn named_after(it: Named, bytes: &[u8]) -> Named
    ensures { result ≡ named_after it bytes.now }
{
    let mut named = it;
    for at in 0..bytes.len() {
        named = named_with(named, rest_of(bytes, at));
    }
    named
}

/// What is named after the first byte of a text.
fn named_with(it: Named, rest: &[u8]) -> Named
    ensures { result ≡ named_with it rest.now }
{
    let byte = byte_at(rest, 0);
    if byte.is_ascii_digit() {
        return Named {
            section: named_by(NumberRole::Section, it.next, it.section, it.before, byte),
            tier: named_by(NumberRole::Tier, it.next, it.tier, it.before, byte),
            range: named_by(NumberRole::Range, it.next, it.range, it.before, byte),
            before: byte,
            ..it
        };
    }
    if byte.is_ascii_alphabetic() && !it.before.is_ascii_alphabetic() {
        return Named {
            next: role_named_by(it.next, word_of(rest)),
            tier_side: side_by(NumberRole::Tier, it.next, it.tier_side, byte),
            range_side: side_by(NumberRole::Range, it.next, it.range_side, byte),
            before: byte,
            ..it
        };
    }
    Named { before: byte, ..it }
}

/// What a number is that follows a word.
fn role_named_by(next: NumberRole, word: &[u8]) -> NumberRole
    ensures { result ≡ role_named_by next word.now }
{
    if is_in_section_names(word) {
        return NumberRole::Section;
    }
    if is_in_tier_words(word) {
        return NumberRole::Tier;
    }
    if is_in_range_words(word) {
        return NumberRole::Range;
    }
    if is_in_list_words(word) {
        return next;
    }
    NumberRole::Nothing
}

/// The number that is named last after a digit, if it is of this role.
fn named_by(wanted: NumberRole, next: NumberRole, value: u16, before: u8, digit: u8) -> u16
    ensures { result ≡ named_by wanted next value before digit }
{
    let is_named = matches!(
        (wanted, next),
        (NumberRole::Section, NumberRole::Section)
            | (NumberRole::Tier, NumberRole::Tier)
            | (NumberRole::Range, NumberRole::Range)
    );
    if !is_named {
        return value;
    }
    if before.is_ascii_digit() {
        return grown(value, digit);
    }
    u16::from(digit.saturating_sub(b'0'))
}

/// The side that is named last after a word, if it is of this role.
fn side_by(wanted: NumberRole, next: NumberRole, side: u8, byte: u8) -> u8
    ensures { result ≡ side_by wanted next side byte }
{
    match (wanted, next) {
        (NumberRole::Tier, NumberRole::Tier) | (NumberRole::Range, NumberRole::Range) =>
            byte.to_ascii_lowercase(),
        _ => side,
    }
}
