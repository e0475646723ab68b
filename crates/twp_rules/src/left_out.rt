//! What a rule leaves out: a moved section or township, a meridian, acreage, a label.
ghost use Rattle.std.specs.Prelude.{◌≡◌, ◌&&◌, ◌||◌, [], ◌∷◌, codes};
ghost use Rattle.twp_rules.specs.declared.saying.Saying.TheVariants.{Remark};
ghost use Rattle.twp_rules.specs.Edges.{ends_with_one, is_one_of, without_white};
ghost use Rattle.twp_rules.specs.Endings.{digits, meridian_letters};
ghost use Rattle.twp_rules.specs.Naming.{has_no_bare_number, has_no_land};
ghost use Rattle.twp_rules.specs.Rules.{is_acreage, is_meridian, is_moved_heading, is_moved_section, is_no_land_word};
ghost use Rattle.twp_rules.specs.Rules.{is_apart_from_digit, is_before_township, is_item_number, is_place_name, is_row_number};
ghost use Rattle.twp_rules.specs.Rules.{may_be_left_out};
ghost use Rattle.twp_rules.specs.Sayings.{has_no_limit};

use crate::context::{is_before_township, less, without_spaces};
use crate::endings::beside::*;
use crate::endings::labels::*;
use crate::endings::meridians::*;
use crate::endings::parts::*;
use crate::figures::{from, has_no_digit, is_figure, is_figure_of_acres, is_white, without_white};
use crate::moved::Moved;
use crate::moving::is_only_of;
use crate::naming::*;
use crate::rule::Rule;
use crate::same::{are_same, begins_with, ends_with, is_text};
use crate::saying::Saying;
use crate::sayings::{has_no_limit, has_only_columns, is_more_or_less, is_remark, is_said_of_land};
use crate::words::land::*;

/// Whether a rule allows to leave out a text, with what is after it.
pub(crate) fn may_be_left_out(rule: Rule, seen: &[u8], after: &[u8]) -> bool
    ensures { result ≡ may_be_left_out rule seen.now after.now }
{
    match rule {
        Rule::Repeated => has_parenthesis_ends(seen) || has_being_fronts(without_white(seen)),
        Rule::MovedSection => is_moved_section(seen),
        Rule::MovedHeading => is_moved_heading(seen, after),
        Rule::Meridian => is_meridian(seen, after),
        Rule::Acreage => is_acreage(seen),
        Rule::Label => {
            is_apart_from_digit(seen, after)
                && (is_remark(seen)
                    || is_said_of_land(seen)
                    || (has_no_digit(seen) && has_only_columns(seen))
                    || is_row_number(seen, after))
        }
        _ => false,
    }
}

/// Whether no letter ends a phrase before a digit.
fn is_apart_from_digit(seen: &[u8], after: &[u8]) -> bool
    ensures { result ≡ is_apart_from_digit seen.now after.now }
{
    let last = byte_at(seen, less(seen.len(), 1));
    !(last.is_ascii_alphabetic() && byte_at(after, 0).is_ascii_digit())
}

/// Whether a text is a section that is written elsewhere, or was named before.
fn is_moved_section(seen: &[u8]) -> bool
    ensures { result ≡ is_moved_section seen.now }
{
    (has_digits(seen)
        || has_section_ends(seen)
        || has_worn_section_ends(seen)
        || has_section_again(seen))
        && is_only_of(Moved::Section, seen)
}

/// Whether a text is a township and range that is written elsewhere, or was named before.
fn is_moved_heading(seen: &[u8], after: &[u8]) -> bool
    ensures { result ≡ is_moved_heading seen.now after.now }
{
    has_heading_ends(seen)
        && is_only_of(Moved::Heading, seen)
        && (!byte_at(after, 0).is_ascii_alphanumeric()
            || ends_with(seen, b".")
            || begins_with(after, b"0sn"))
}

/// Whether a word is one with which land doesn't begin.
fn is_no_land_word(word: &[u8]) -> bool
    ensures { result ≡ is_no_land_word word.now }
{
    !are_same(word, b"") && !is_in_first_words(word) && !are_corners(word)
}

/// Whether a text is the number of an item, before what isn't land.
fn is_item_number(number: &[u8], after: &[u8]) -> bool
    ensures { result ≡ is_item_number number.now after.now }
{
    byte_at(number, 0).is_ascii_digit()
        && is_item_mark(from(number, digits_of(number).len()))
        && is_white(byte_at(after, 0))
        && is_no_land_word(word_of(without_white(after)))
}

/// Whether this is the mark that ends the number of an item.
fn is_item_mark(mark: &[u8]) -> bool
    ensures { result ≡ is_one_of mark.now (codes "." ∷ codes ")" ∷ []) }
{
    is_text(mark, b".") || is_text(mark, b")")
}

/// Whether a text is the number of a row, in a cell of its own, or of an item.
fn is_row_number(seen: &[u8], after: &[u8]) -> bool
    ensures { result ≡ is_row_number seen.now after.now }
{
    let number = without_white(seen);
    let next = without_spaces(after);
    (are_same(digits_of(number), number)
        && is_in_cell_marks(byte_at(next, 0))
        && is_no_land_word(word_of(without_white(rest_after(next)))))
        || is_item_number(number, after)
}

/// Whether a text is a meridian, a state, or a county.
fn is_meridian(seen: &[u8], after: &[u8]) -> bool
    ensures { result ≡ is_meridian seen.now after.now }
{
    (has_meridian_ends(seen)
        || is_place_name(seen)
        || has_meridian_fronts(without_white(seen))
        || has_meridian_labels(without_white(seen)))
        && names_only_place(seen, after)
}

/// Whether a text names no land; limits none, unless it is the letters of a meridian; and has no
/// number that may be that of a section, unless it is a meridian's code before a township. Most
/// such texts are remarks.
#[tactic(auto, using(crate::proofs::SayingFacts::remark_names_place))]
fn names_only_place(seen: &[u8], after: &[u8]) -> bool
    ensures { result ≡ (has_no_land seen.now
        && (has_no_limit Remark seen.now || is_one_of (without_white seen.now) meridian_letters)
        && (has_no_bare_number seen.now
        || ends_with_one seen.now digits && is_before_township seen.now after.now)) }
{
    if is_remark(seen) {
        return true;
    }
    has_no_land(seen)
        && (has_no_limit(Saying::Remark, seen) || is_in_meridian_letters(without_white(seen)))
        && (has_no_bare_number(seen) || (has_digits(seen) && is_before_township(seen, after)))
}

/// Whether a text is stated acreage.
fn is_acreage(seen: &[u8]) -> bool
    ensures { result ≡ is_acreage seen.now }
{
    (has_acreage_ends(seen)
        || is_figure_of_acres(seen)
        || is_figure(seen)
        || has_acreage_fronts(without_white(seen)))
        && names_no_land(seen)
        && is_more_or_less(seen)
}

/// Whether a text ends with the name of a state, the letters for it, or a digit.
fn is_place_name(seen: &[u8]) -> bool
    ensures { result ≡ is_place_name seen.now }
{
    has_states(seen) || has_more_states(seen) || has_state_letters(seen) || has_digits(seen)
}
