//! Whether a rule allows a change.
ghost use Rattle.std.specs.Prelude.{◌≡◌, ◌≤◌, ◌||◌, length, slice_range};
ghost use Rattle.twp_rules.specs.Edges.{without_white};
ghost use Rattle.twp_rules.specs.Rules.{allows, are_digits, begins_exception, is_among, is_copied, is_no_exception};
ghost use Rattle.twp_rules.specs.Rules.{is_number, is_numeral, is_worn};
ghost use Rattle.twp_rules.specs.Tables.{halves, worn_halves, quarters, quarter_abbreviations, worn_quarters};
ghost use Rattle.twp_rules.specs.Tables.{little_words};
ghost use Rattle.twp_rules.specs.Tables.{marks, more_marks, more_little_words, joining_words};
ghost use Rattle.twp_rules.specs.Tables.{directions, worn_directions, section_words, worn_section_words};
ghost use Rattle.twp_rules.specs.Tables.{lot_words, worn_lot_words};

use crate::change::Change;
use crate::context::*;
use crate::endings::beside::*;
use crate::endings::parts::*;
use crate::figures::without_white;
use crate::left_out::may_be_left_out;
use crate::naming::{byte_at, byte_before};
use crate::rule::Rule;
use crate::same::{are_same, begins_with, ends_with, is_text};
use crate::steps::is_copied_step;
use crate::tables::headings::*;
use crate::tables::marks::*;
use crate::tables::parts::*;
use crate::tables::words::*;
use crate::words::limits::*;

/// Whether the rule of a change allows it.
pub(crate) fn is_allowed(text: &[u8], change: &Change<'_>) -> bool
    requires order { change.now.start ≤ change.now.end }
    requires within { change.now.end ≤ length text.now }
    ensures { result ≡ allows change.now.rule text.now change.now.start change.now.end
        (slice_range text.now change.now.start change.now.end) change.now.written.now }
{
    let (start, end) = (change.start, change.end);
    let (seen, written) = (&text[start..end], change.written);
    match change.rule {
        Rule::Half => {
            is_half_mark(seen, written)
                && (has_sides(before(text, start)) || has_worn_sides(before(text, start)))
        }
        Rule::Quarter => {
            is_quarter_mark(seen, written)
                && (has_corners(before(text, start)) || has_worn_corners(before(text, start)))
        }
        Rule::Direction => is_direction(seen, written) && is_whole_word(text, start, end),
        Rule::Numeral => is_numeral(seen, written) && is_whole_numeral(seen, after(text, end)),
        Rule::Copied(from, to) => are_same(seen, b"") && is_copied(text, from, to, written),
        Rule::CopiedStep(from, to) => {
            are_same(seen, b"") && is_copied_step(text, from, to, written)
        }
        Rule::Damage => {
            (is_in_damages(seen, written) && is_whole_word(text, start, end))
                || (is_in_damaged_corners(seen, written)
                    && byte_at(text, end).is_ascii_alphabetic())
        }
        Rule::Exception => {
            is_in_exceptions(seen, written)
                && is_whole_word(text, start, end)
                && begins_exception(before(text, start), seen, after(text, end))
        }
        Rule::Zeros => {
            is_in_zeros(seen, written)
                && byte_at(text, end).is_ascii_digit()
                && are_leading(text, start)
        }
        Rule::FractionDigit => {
            is_in_fraction_digits(seen, written) && is_fraction_digit(text, start, end)
        }
        Rule::Heading => is_in_headings(seen, written)
            || is_in_heading_words(seen, written)
            || is_in_heading_marks(seen, written),
        Rule::SectionWord => {
            is_section_word(seen, written)
                && (are_same(seen, b"") || are_same(seen, b",") || is_whole_word(text, start, end))
        }
        Rule::LotWord => {
            (is_lot_word(seen, written) && is_whole_word(text, start, end))
                || is_in_lot_marks(seen, written)
        }
        Rule::Through => is_in_dashes(seen, written),
        Rule::And => is_in_ampersands(seen, written),
        Rule::Comma => {
            is_in_commas(seen, written) && !is_between_numbers(text, start, end, seen)
        }
        Rule::Semicolon => {
            is_in_semicolons(seen, written) && !is_between_numbers(text, start, end, seen)
        }
        Rule::OnePart => is_in_joints(seen, written),
        Rule::Mark => is_mark(seen, written),
        Rule::Word => {
            is_little_word(seen, written)
                && is_whole_word(text, start, end)
                && is_no_exception(before(text, start), seen)
        }
        _ => are_same(written, b"") && may_be_left_out(change.rule, seen, after(text, end)),
    }
}

/// Whether what a rule reads, or copies, is what scanning or a slip of the pen left of what it writes.
pub fn is_worn(rule: Rule, seen: &[u8], written: &[u8]) -> bool
    ensures { result ≡ is_worn rule seen.now written.now }
{
    match rule {
        Rule::Half => is_in_worn_halves(without_white(seen), written),
        Rule::Quarter => is_in_worn_quarters(without_white(seen), written),
        Rule::Direction => is_in_worn_directions(seen, written),
        Rule::SectionWord => is_in_worn_section_words(seen, written),
        Rule::LotWord => is_in_worn_lot_words(seen, written),
        Rule::Copied(_, _) => is_in_damages(seen, written),
        Rule::Damage => true,
        _ => false,
    }
}

/// Whether a word begins an exception.
fn begins_exception(before: &[u8], seen: &[u8], after: &[u8]) -> bool
    ensures { result ≡ begins_exception before.now seen.now after.now }
{
    if is_text(seen, b"with") {
        return begins_with(without_white(after), b"the exception");
    }
    if is_text(seen, b"but") {
        return has_but_what(without_white(after)) || has_all_but(before);
    }
    !ends_with(before, b"or ")
}

/// Whether a word that is left out is no further word of an exception, or its first one is before it.
fn is_no_exception(before: &[u8], seen: &[u8]) -> bool
    ensures { result ≡ is_no_exception before.now seen.now }
{
    !is_in_further_exceptions(seen) || has_first_exceptions(before)
}

/// Whether a text is a half without a description's fraction, or what scanning leaves of it.
fn is_half_mark(seen: &[u8], written: &[u8]) -> bool
    ensures { result ≡ (is_among (without_white seen.now) written.now halves
        || is_among (without_white seen.now) written.now worn_halves) }
{
    let mark = without_white(seen);
    is_in_halves(mark, written) || is_in_worn_halves(mark, written)
}

/// The same for a quarter.
fn is_quarter_mark(seen: &[u8], written: &[u8]) -> bool
    ensures { result ≡ (is_among (without_white seen.now) written.now quarters
        || is_among (without_white seen.now) written.now quarter_abbreviations
        || is_among (without_white seen.now) written.now worn_quarters) }
{
    let mark = without_white(seen);
    is_in_quarters(mark, written)
        || is_in_quarter_abbreviations(mark, written)
        || is_in_worn_quarters(mark, written)
}

/// Whether a text is a word for a side or a corner, also with a slip, whose letters are written.
fn is_direction(seen: &[u8], written: &[u8]) -> bool
    ensures { result ≡ (is_among seen.now written.now directions
        || is_among seen.now written.now worn_directions) }
{
    is_in_directions(seen, written) || is_in_worn_directions(seen, written)
}

/// Whether a text is a word for sections, or lacks one, which is written.
fn is_section_word(seen: &[u8], written: &[u8]) -> bool
    ensures { result ≡ (is_among seen.now written.now section_words
        || is_among seen.now written.now worn_section_words) }
{
    is_in_section_words(seen, written) || is_in_worn_section_words(seen, written)
}

/// Whether a text is a word for lots.
fn is_lot_word(seen: &[u8], written: &[u8]) -> bool
    ensures { result ≡ (is_among seen.now written.now lot_words
        || is_among seen.now written.now worn_lot_words) }
{
    is_in_lot_words(seen, written) || is_in_worn_lot_words(seen, written)
}

/// Whether a text is a mark that means nothing.
fn is_mark(seen: &[u8], written: &[u8]) -> bool
    ensures { result ≡ (is_among seen.now written.now marks || is_among seen.now written.now more_marks) }
{
    is_in_marks(seen, written) || is_in_more_marks(seen, written)
}

/// Whether a text is a word that means nothing.
fn is_little_word(seen: &[u8], written: &[u8]) -> bool
    ensures { result ≡ (is_among seen.now written.now little_words || is_among seen.now written.now more_little_words
        || is_among seen.now written.now joining_words) }
{
    is_in_little_words(seen, written)
        || is_in_more_little_words(seen, written)
        || is_in_joining_words(seen, written)
}

/// Whether what is written is the number that a text has from one place up to another.
fn is_copied(text: &[u8], from: usize, to: usize, written: &[u8]) -> bool
    ensures { result ≡ is_copied text.now from to written.now }
{
    from <= to
        && to <= text.len()
        && is_number(&text[from..to], written)
        && is_whole_numeral(&text[from..to], after(text, to))
}

/// Whether what is written is the number that is seen, in digits.
fn is_number(seen: &[u8], written: &[u8]) -> bool
    ensures { result ≡ is_number seen.now written.now }
{
    (are_digits(seen) && are_same(written, seen))
        || is_numeral(seen, written)
        || is_in_damages(seen, written)
}

/// Whether what is written are the digits for a word.
fn is_numeral(seen: &[u8], written: &[u8]) -> bool
    ensures { result ≡ is_numeral seen.now written.now }
{
    is_in_numerals(seen, written) || is_in_more_numerals(seen, written)
}

/// Whether a text is a digit, or two.
fn are_digits(seen: &[u8]) -> bool
    ensures { result ≡ are_digits seen.now }
{
    (seen.len() == 1 && byte_at(seen, 0).is_ascii_digit())
        || (seen.len() == 2
            && byte_at(seen, 0).is_ascii_digit()
            && byte_at(seen, 1).is_ascii_digit())
}
