//! What a phrase says that names no land, and whether a word in it limits land.
ghost use Rattle.std.specs.Prelude.{◌≡◌, ◌≤◌, ◌&&◌, ◌+◌, drop, length, take};
ghost use Rattle.twp_rules.specs.Edges.{ends_with_one};
ghost use Rattle.twp_rules.specs.Endings.{title_ends};
ghost use Rattle.twp_rules.specs.Naming.{word_of};
ghost use Rattle.twp_rules.specs.Sayings.{begins_whole_word, has_no_limit, has_only_columns_from, is_mentioned};
ghost use Rattle.twp_rules.specs.Sayings.{is_more_or_less, is_remark, is_said_of_interests, is_said_of_land, is_said_of_rights};
ghost use Rattle.twp_rules.specs.Sayings.{is_said_of_terms, limits_land, may_contain, mentions_from, says};
ghost use Rattle.twp_rules.specs.Sayings.{begins_code, is_of_title, is_possessive};

use crate::context::{before, less};
use crate::endings::labels::*;
use crate::figures::from;
use crate::naming::{
    begins_nothing, begins_word, byte_at, byte_before, digits_of, is_explained_at, named_after,
    names_land_at, names_no_land, rest_after, word_of,
};
use crate::same::is_text;
use crate::saying::Saying;
use crate::words::limits::*;
use crate::words::sections::*;
use crate::words::sides::*;

/// The fewest digits of a code after its letter and a hyphen.
const CODE_LEAST: usize = 5;

/// Whether a text is a remark. Land, numbers, and limits are looked for at once, where a word or a
/// number begins.
#[tactic(auto, using(crate::proofs::SayingFacts::nothing_begins, crate::proofs::SayingFacts::goes_on_here, crate::proofs::SayingFacts::land_begins, crate::proofs::SayingFacts::bare_begins, crate::proofs::SayingFacts::limit_begins))]
pub fn is_remark(seen: &[u8]) -> bool
    ensures { result ≡ is_remark seen.now }
{
    let mut named: &[u8] = b"";
    for at in 0..seen.len() {
        if begins_nothing(seen, at) {
            continue;
        }
        if names_land_at(seen, at) {
            return false;
        }
        if !is_explained_at(seen, at, named) {
            return false;
        }
        if limits_land_at(seen, at) {
            return false;
        }
        named = named_after(seen, at, named);
    }
    true
}

/// Whether a word that limits land begins at a place. Few words limit land, so whether it is a
/// whole word is asked last.
#[tactic(auto, using(crate::proofs::SayingFacts::second_fails, crate::proofs::SayingFacts::second_holds))]
fn limits_land_at(seen: &[u8], at: usize) -> bool
    requires { at ≤ length seen.now }
    ensures { result ≡ (begins_whole_word seen.now at && limits_land (word_of (drop at seen.now))) }
{
    limits_land(word_of(from(seen, at))) && begins_whole_word(seen, at)
}

/// Whether a text says something of land, without naming any.
pub(crate) fn is_said_of_land(seen: &[u8]) -> bool
    ensures { result ≡ is_said_of_land seen.now }
{
    is_said_of_rights(seen) || is_said_of_terms(seen) || is_said_of_interests(seen)
}

/// Whether a text says something of rights, records, or minerals that are kept back.
fn is_said_of_rights(seen: &[u8]) -> bool
    ensures { result ≡ is_said_of_rights seen.now }
{
    (has_rights(seen) && says(Saying::Right, seen))
        || (has_records(seen) && says(Saying::Record, seen))
        || (has_reservations(seen) && says(Saying::Reservation, seen))
}

/// Whether a text says something of terms or depths.
fn is_said_of_terms(seen: &[u8]) -> bool
    ensures { result ≡ is_said_of_terms seen.now }
{
    (has_terms(seen) && says(Saying::Term, seen))
        || ((has_depths(seen) || has_estates(seen)) && says(Saying::Depth, seen))
}

/// Whether a text says something of leases, parcels, interests, or properties.
fn is_said_of_interests(seen: &[u8]) -> bool
    ensures { result ≡ is_said_of_interests seen.now }
{
    (has_number_fronts(seen) && says(Saying::Code, seen))
        || (has_interest_fronts(seen) && says(Saying::Interest, seen))
        || (has_property_fronts(seen) && says(Saying::Property, seen))
}

/// Whether a text says something of a kind.
fn says(kind: Saying, seen: &[u8]) -> bool
    ensures { result ≡ says kind seen.now }
{
    names_no_land(seen) && has_no_limit(kind, seen) && mentions(kind, seen)
}

/// Whether a text says no more of acreage than that it is more or less.
pub(crate) fn is_more_or_less(seen: &[u8]) -> bool
    ensures { result ≡ is_more_or_less seen.now }
{
    has_no_limit(Saying::Remark, seen)
        || (has_no_limit(Saying::Acreage, seen) && has_less_ends(seen))
}

/// Whether no word limits land, but for those that a phrase of a kind may contain.
#[tactic(auto, using(crate::proofs::SayingFacts::no_word_at, crate::proofs::SayingFacts::no_limit_at))]
pub(crate) fn has_no_limit(kind: Saying, seen: &[u8]) -> bool
    ensures { result ≡ has_no_limit kind seen.now }
{
    for at in 0..seen.len() {
        if begins_whole_word(seen, at) {
            let word = word_of(from(seen, at));
            if limits_land(word) && !may_contain(kind, word) {
                return false;
            }
        }
    }
    true
}

/// Whether a text mentions what a phrase of a kind has to.
fn mentions(kind: Saying, seen: &[u8]) -> bool
    ensures { result ≡ mentions_from kind seen.now 0 seen.now }
{
    for at in 0..seen.len() {
        if begins_word(seen, at) && is_mentioned(kind, word_of(from(seen, at))) {
            return true;
        }
    }
    false
}

/// Whether every word of a text is the name of a column.
pub(crate) fn has_only_columns(seen: &[u8]) -> bool
    ensures { result ≡ has_only_columns_from seen.now 0 seen.now }
{
    for at in 0..seen.len() {
        if begins_word(seen, at) && !is_in_column_words(word_of(from(seen, at))) {
            return false;
        }
    }
    true
}

/// Whether a phrase of a kind has to mention this word, or may be of any.
fn is_mentioned(kind: Saying, word: &[u8]) -> bool
    ensures { result ≡ is_mentioned kind word.now }
{
    match kind {
        Saying::Reservation => is_in_mineral_words(word),
        Saying::Depth => is_in_depth_words(word),
        _ => true,
    }
}

/// Whether a phrase of a kind may contain a word that limits land.
fn may_contain(kind: Saying, word: &[u8]) -> bool
    ensures { result ≡ may_contain kind word.now }
{
    match kind {
        Saying::Right => {
            is_in_share_words(word)
                || is_in_side_words(word)
                || is_in_bound_words(word)
                || is_in_measure_words(word)
        }
        Saying::Record => is_in_record_limits(word),
        Saying::Reservation => is_in_share_words(word) || is_in_reserving_words(word),
        Saying::Term | Saying::Depth => is_in_depth_limits(word),
        Saying::Interest => is_in_share_words(word) || is_in_claim_words(word),
        Saying::Property => is_in_lease_limits(word),
        Saying::Code => is_in_side_names(word),
        Saying::Acreage => is_in_acreage_limits(word),
        Saying::Remark => false,
    }
}

/// Whether a word takes land away, or tells where it ends.
fn limits_land(word: &[u8]) -> bool
    ensures { result ≡ limits_land word.now }
{
    is_in_share_words(word)
        || is_in_side_words(word)
        || is_in_taking_words(word)
        || is_in_more_taking_words(word)
        || is_in_portion_words(word)
        || is_in_bound_words(word)
        || is_in_measure_words(word)
}

/// Whether a word begins at a place, after neither a letter nor a digit, isn't the S of a
/// possessive, and is of no title in which it limits no land.
fn begins_whole_word(seen: &[u8], at: usize) -> bool
    requires { at ≤ length seen.now }
    ensures { result ≡ begins_whole_word seen.now at }
{
    byte_at(seen, at).is_ascii_alphabetic()
        && !byte_before(seen, at).is_ascii_alphanumeric()
        && !(is_possessive(seen, at) || is_of_title(seen, at))
}

/// Whether a text begins with the letter of a code: a hyphen and five digits or more are after it,
/// as in `E-700123`.
fn begins_code(rest: &[u8]) -> bool
    ensures { result ≡ begins_code rest.now }
{
    byte_at(rest, 1) == b'-' && digits_of(rest_after(rest_after(rest))).len() >= CODE_LEAST
}

/// Whether the word at a place begins a title in which no word limits land, or ends one, as in
/// `H.E.` for a homestead entry; or it is the letter of a code.
fn is_of_title(seen: &[u8], at: usize) -> bool
    requires { at ≤ length seen.now }
    ensures { result ≡ is_of_title seen.now at }
{
    let rest = from(seen, at);
    has_title_fronts(rest) || begins_code(rest) || ends_title(seen, at)
}

/// Whether the word at a place ends a title.
fn ends_title(seen: &[u8], at: usize) -> bool
    requires { at ≤ length seen.now }
    ensures { result ≡ ends_with_one (take (at + length (word_of (drop at seen.now))) seen.now) title_ends }
{
    has_title_ends(before(seen, at + word_of(from(seen, at)).len()))
}

/// Whether the S of a possessive is at a place, as in `Lessor's`.
fn is_possessive(seen: &[u8], at: usize) -> bool
    requires { at ≤ length seen.now }
    ensures { result ≡ is_possessive seen.now at }
{
    byte_before(seen, at) == 39
        && byte_before(seen, less(at, 1)).is_ascii_alphabetic()
        && is_text(word_of(from(seen, at)), b"s")
}
