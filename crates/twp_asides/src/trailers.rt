//! What is said after land, and isn't land: `limited to the Lance formation`, `recorded in Book 3`, `HBP`.

use crate::limits::is_size_or_acreage;
use crate::marks::{is_metes_and_bounds, is_of_well};
use crate::pieces::{Pieces, plus};
use twp_grammar::Kind;
use twp_words::{
    alters_land, begins_exception, begins_terms, is_beyond_depths, is_beyond_terms, is_boundary,
    is_conveyance, is_land_by_name, is_of_appurtenance, is_of_depth, is_of_estate, is_of_survey,
    is_of_town, is_partial, is_same, is_site, is_word_for_depths, limits_land, names_parcel,
};

/// The most pieces of depths in parentheses.
const DEPTHS_MOST: usize = 24;

/// The most pieces of an exception.
const EXCEPTION_MOST: usize = 12;

/// What is said after land.
#[derive(Clone, Copy, PartialEq, Eq)]
enum Trailer {
    /// Terms, interests, and records, which end at a semicolon, or with the line.
    Terms,
    /// Depths, of which some word must be a word for depths: what follows could be other land at other
    /// depths.
    Depths,
    /// Rights, which may name ways and waters.
    Rights,
    /// What is reserved: minerals, or the like.
    Reserved,
    /// What is granted with the land: improvements, or the like.
    Granted,
    /// The survey of the land.
    Survey,
    /// The land office in whose district the land is.
    Office,
}

/// Where what is said after land ends: at the end of the text, or where terms end, if it has no land.
pub fn end_of_trailer(pieces: &Pieces<'_>, index: usize) -> Option<usize> {
    let trailer = trailer_at(pieces, index)?;
    let mut has_word = false;
    for place in index..pieces.len() {
        let is_apart = matches!(pieces.kind(place), Kind::Semicolon)
            || (place > index && pieces.has_break_before(place) && pieces.has_before(place, b'\n'));
        let is_before_heading = matches!(pieces.kind(place), Kind::Comma)
            && (pieces.begins_tier(plus(place, 1))
                || matches!(pieces.kind(plus(place, 1)), Kind::Sec));
        if (is_apart || is_before_heading) && trailer == Trailer::Terms {
            return Some(place);
        }
        let is_after_survey = trailer == Trailer::Survey
            && has_word
            && matches!(pieces.kind(place), Kind::Comma | Kind::Semicolon);
        if is_after_survey {
            return Some(place);
        }
        has_word = has_word || is_word_of(pieces, trailer, place);
        if is_beyond_trailer(pieces, trailer, place) {
            return None;
        }
    }
    if has_word { Some(pieces.len()) } else { None }
}

/// Where depths end in parentheses, as in `(surface to the base of the Niobrara only)`: at what isn't of
/// depths.
pub(crate) fn end_of_depths(pieces: &Pieces<'_>, index: usize) -> Option<usize> {
    if trailer_at(pieces, index) != Some(Trailer::Depths) {
        return None;
    }
    let mut has_word = false;
    for place in index..plus(index, DEPTHS_MOST) {
        if pieces.is(place, b")") || is_beyond_trailer(pieces, Trailer::Depths, place) {
            return if has_word { Some(place) } else { None };
        }
        has_word = has_word || is_word_of(pieces, Trailer::Depths, place);
    }
    None
}

/// Whether the word at an index is one of which what is said after land has some: otherwise it may be of
/// other land.
fn is_word_of(pieces: &Pieces<'_>, trailer: Trailer, index: usize) -> bool {
    let word = pieces.lower(index);
    match trailer {
        Trailer::Depths => is_of_depth(word),
        Trailer::Reserved => is_of_estate(word),
        Trailer::Granted => is_of_appurtenance(word),
        Trailer::Survey => {
            is_same(word, b"official") || is_same(word, b"government") || is_same(word, b"govt")
        }
        Trailer::Terms | Trailer::Rights | Trailer::Office => true,
    }
}

/// Whether the piece at an index isn't of what is said after land: it may be of land, or change which is
/// meant.
fn is_beyond_trailer(pieces: &Pieces<'_>, trailer: Trailer, index: usize) -> bool {
    let word = pieces.lower(index);
    let is_limit = match trailer {
        Trailer::Rights | Trailer::Granted => may_be_land_beside_rights(pieces, index),
        Trailer::Reserved => may_be_land_beside_rights(pieces, index) || is_site(word),
        Trailer::Office => pieces.may_be_land(index),
        Trailer::Survey => !is_of_survey(word),
        _ => pieces.may_be_land(index) || is_boundary(word),
    };
    // `$2.00/acre` is a price.
    let is_parcel = names_parcel(word) && !pieces.follows(index, b"/");
    let is_well = trailer == Trailer::Terms && is_of_well(pieces, index);
    let is_earlier = trailer == Trailer::Terms
        && is_same(word, b"conveyed")
        && (pieces.follows(index, b"heretofore") || pieces.follows(index, b"previously"));
    let is_part = trailer != Trailer::Office
        && (is_parcel
            || (is_partial(word) && !is_earlier)
            || (pieces.may_be_section(index) && !is_well));
    let is_beyond = match trailer {
        Trailer::Terms => {
            is_beyond_terms(word)
                || limits_land(word)
                || is_size_or_acreage(pieces, index)
                || is_metes_and_bounds(pieces, index)
                || (pieces.is(index, b"&") && begins_terms(pieces.lower(plus(index, 1))))
        }
        Trailer::Depths => limits_land(word) || is_site(word) || is_beyond_depths(word),
        Trailer::Rights => {
            (is_conveyance(word) && !is_reserved_in_patent(pieces, index))
                || (is_same(word, b"boundary") && pieces.is(plus(index, 1), b"line"))
        }
        Trailer::Granted => is_land_by_name(word),
        _ => false,
    };
    is_limit || is_part || is_beyond || is_of_town(word) || alters_land(word)
}

/// Whether the patent at an index is one in which rights are reserved, as in `reserved in U. S. Patent`.
fn is_reserved_in_patent(pieces: &Pieces<'_>, index: usize) -> bool {
    let has_words = |count: usize| {
        pieces.is_back(index, count, b"in") && pieces.is_back(index, plus(count, 1), b"reserved")
    };
    pieces.is(index, b"patent") && (has_words(1) || has_words(2) || has_words(5) || has_words(6))
}

/// What is said at an index.
fn trailer_at(pieces: &Pieces<'_>, index: usize) -> Option<Trailer> {
    if is_habendum(pieces, index) {
        return Some(Trailer::Terms);
    }
    if !matches!(pieces.kind(index), Kind::Other | Kind::All) {
        return None;
    }
    let word = pieces.lower(index);
    if let Some(trailer) = trailer_of(word) {
        return Some(trailer);
    }
    if let Some(trailer) = trailer_with_next(pieces, word, plus(index, 1)) {
        return Some(trailer);
    }
    if begins_terms(word) && !may_be_block(pieces, word, index) {
        return Some(Trailer::Terms);
    }
    None
}

/// Whether `to have and to hold` is at an index.
fn is_habendum(pieces: &Pieces<'_>, index: usize) -> bool {
    pieces.is(index, b"to")
        && pieces.is(plus(index, 1), b"have")
        && pieces.is(plus(index, 2), b"and")
        && pieces.is(plus(index, 3), b"to")
        && pieces.is(plus(index, 4), b"hold")
}

/// The trailer that a word begins, whatever follows it.
fn trailer_of(word: &[u8]) -> Option<Trailer> {
    if is_same(word, b"subject") || is_same(word, b"subj") {
        return Some(Trailer::Rights);
    }
    if is_same(word, b"reserving") {
        return Some(Trailer::Reserved);
    }
    if is_same(word, b"according") {
        return Some(Trailer::Survey);
    }
    if is_word_for_depths(word) {
        return Some(Trailer::Depths);
    }
    None
}

/// The trailer that a word begins with what follows it at an index.
fn trailer_with_next(pieces: &Pieces<'_>, word: &[u8], next: usize) -> Option<Trailer> {
    if (is_same(word, b"in") && pieces.is(next, b"the")) && pieces.is(plus(next, 1), b"district") {
        return Some(Trailer::Office);
    }
    if is_reservation(pieces, word, next) {
        return Some(Trailer::Reserved);
    }
    let is_granted = (is_same(word, b"together") && pieces.is(next, b"with"))
        || (is_same(word, b"with")
            && (pieces.is(next, b"all")
                || (pieces.is(next, b"the") && !pieces.is(plus(next, 1), b"exception"))));
    if is_granted {
        return Some(Trailer::Granted);
    }
    if are_depths(pieces, word, next) {
        return Some(Trailer::Depths);
    }
    let is_shown = is_same(word, b"as")
        && pieces.is(next, b"shown")
        && is_soon(pieces, next, b"official");
    let is_filed = is_same(word, b"has") && pieces.is(next, b"filed");
    let is_earlier = (is_same(word, b"heretofore") || is_same(word, b"previously"))
        && pieces.is(next, b"conveyed")
        && is_after_exception(pieces, next);
    let is_priced = is_earlier
        || (is_same(word, b"appraised") && pieces.is(next, b"at"))
        || (is_same(word, b"sold") && pieces.is(next, b"for"));
    let is_end = is_same(word, b"only")
        && (next >= pieces.len() || matches!(pieces.kind(next), Kind::Stop | Kind::Semicolon));
    if is_shown || is_end || is_filed || is_priced {
        return Some(Trailer::Terms);
    }
    None
}

/// Whether a word for an exception is among the pieces before an index, in its sentence.
fn is_after_exception(pieces: &Pieces<'_>, index: usize) -> bool {
    for count in 1..EXCEPTION_MOST {
        match pieces.lower_back(index, count) {
            Some(b";") | None => return false,
            Some(word) if begins_exception(word) => return true,
            Some(_) => {}
        }
    }
    false
}

/// Whether a word begins what is reserved, with what follows it at an index.
fn is_reservation(pieces: &Pieces<'_>, word: &[u8], next: usize) -> bool {
    if is_same(word, b"excepting") {
        return pieces.is(next, b"and") && pieces.is(plus(next, 1), b"reserving");
    }
    is_same(word, b"grantor") && reserves(pieces, next)
}

/// Whether a word begins depths with what follows it at an index.
fn are_depths(pieces: &Pieces<'_>, word: &[u8], next: usize) -> bool {
    if is_same(word, b"as") {
        return pieces.is(next, b"to");
    }
    if is_same(word, b"all") {
        return pieces.is(next, b"depths");
    }
    if is_same(word, b"only") {
        return pieces.is(next, b"as") || pieces.is(next, b"insofar");
    }
    (is_same(word, b"from") || is_same(word, b"down"))
        && (pieces.is(next, b"the") || pieces.is(next, b"to") || pieces.is(next, b"surface"))
}

/// Whether the word at an index may be of a block: it is a book without a page.
fn may_be_block(pieces: &Pieces<'_>, word: &[u8], index: usize) -> bool {
    (is_same(word, b"bk") || is_same(word, b"book"))
        && !(is_soon(pieces, index, b"pg")
            || is_soon(pieces, index, b"p")
            || is_soon(pieces, index, b"page")
            || is_soon(pieces, index, b"/"))
}

/// Whether a word is among the next pieces after an index.
fn is_soon(pieces: &Pieces<'_>, index: usize, word: &[u8]) -> bool {
    for place in plus(index, 1)..plus(index, 8) {
        if pieces.is(place, word) {
            return true;
        }
    }
    false
}

/// Whether depths begin at an index.
pub fn begins_depths(pieces: &Pieces<'_>, index: usize) -> bool {
    trailer_at(pieces, index) == Some(Trailer::Depths)
}

/// Whether the grantor before an index reserves something, as in `Grantor herein excepting and reserving`.
fn reserves(pieces: &Pieces<'_>, index: usize) -> bool {
    for place in index..plus(index, 5) {
        if pieces.is(place, b"reserving") || pieces.is(place, b"reserves") {
            return true;
        }
    }
    false
}

/// Whether the piece at an index may be of land where rights are named: sides alone, and shares, are not.
fn may_be_land_beside_rights(pieces: &Pieces<'_>, index: usize) -> bool {
    let next = plus(index, 1);
    match pieces.kind(index) {
        Kind::Half | Kind::Quarter => {
            matches!(
                index.checked_sub(1),
                Some(before) if pieces.is_north_south(before) || pieces.is_east_west(before)
            )
        }
        Kind::Other if pieces.is(index, b"half") || pieces.is(index, b"quarter") => {
            !(pieces.is_back(index, 2, b"undivided")
                || pieces.is_back(index, 3, b"undivided")
                || pieces.is_back(index, 4, b"undivided"))
        }
        Kind::Other if pieces.is_north_south(index) || pieces.is_east_west(index) => {
            matches!(
                pieces.kind(next),
                Kind::Half | Kind::Quarter | Kind::Number(_)
            ) || pieces.begins_step(next)
        }
        Kind::All => false,
        Kind::NorthSouth(_) if pieces.is_of_united_states(index) => false,
        Kind::Other if pieces.is(index, b"land") || pieces.is(index, b"lands") => {
            if pieces.follows(index, b"any")
                || pieces.follows(index, b"other")
                || pieces.follows(index, b"railroad")
            {
                return true;
            }
            pieces.follows(index, b"the")
                && !(pieces.is_back(index, 2, b"in")
                    || pieces.is_back(index, 2, b"of")
                    || pieces.is_back(index, 2, b"under"))
        }
        Kind::Other if pieces.is(index, b"excepting") => !pieces.is(plus(next, 1), b"reserving"),
        _ => pieces.may_be_land(index),
    }
}
