//! What is looked at in a remark: names of wells, tracts, and persons, words that are known, and titles of
//! other land.

use crate::limits::is_exempt;
use crate::pieces::{Pieces, plus};
use twp_grammar::Kind;
use twp_words::{is_acres, is_company, is_doubtful_title, is_feature, is_known, is_month, is_same};

/// Whether the piece at an index is known to say nothing of which land is meant, as a date, a share, or an
/// agency.
pub(crate) fn is_known_at(pieces: &Pieces<'_>, index: usize) -> bool {
    is_known(pieces.lower(index))
        || pieces.begins_title(index)
        || is_middle_initial(pieces, index)
        || is_date_with_month(pieces, index)
        || pieces.is(index, b">")
        || pieces.is(index, b"$")
        || is_exempt(pieces, index)
        || pieces.is_date(index)
        || pieces.is_percentage(index)
        || pieces.is_share(index)
        || (matches!(pieces.kind(index), Kind::BadNumber) && !pieces.is_joined(index))
}

/// Whether a label before land that ends at an index is of a place in it, or of land that isn't meant.
pub(crate) fn is_title_of_other(pieces: &Pieces<'_>, index: usize) -> bool {
    let word = pieces.lower(index);
    (is_same(word, b"name") && pieces.follows(index, b"well"))
        || (is_feature(word) && !pieces.follows(index, b"public"))
        || is_doubtful_title(word)
        || (is_same(word, b"sale") && pieces.follows(index, b"timber"))
}

/// Whether the name of a well follows at an index, as in `Well: Kestrel 1-15H`, and its text is
/// about interests in a unit, and not about the place of the well.
pub(crate) fn is_well_of_unit(pieces: &Pieces<'_>, index: usize) -> bool {
    let is_named = pieces.is(plus(index, 1), b":")
        && (pieces.is(index, b"well")
            || (pieces.is(index, b"name") && pieces.follows(index, b"well")));
    is_named && is_about_unit(pieces)
}

/// Whether a text is about interests in a unit.
fn is_about_unit(pieces: &Pieces<'_>) -> bool {
    for place in 0..pieces.len() {
        let is_interest = pieces.is(place, b"unit")
            || pieces.is(place, b"doi")
            || pieces.is(place, b"nri")
            || pieces.is(place, b"decimal")
            || pieces.is(place, b"orri")
            || pieces.is(place, b"interest");
        if is_interest {
            return true;
        }
    }
    false
}

/// Whether the number at an index is of the name of a well, which may have the numbers of two sections, as
/// `Hatch 14-1`, and another with letters for a horizontal well, as `Kestrel 22-27 2HX`.
pub(crate) fn is_of_well(pieces: &Pieces<'_>, index: usize) -> bool {
    let next = plus(index, 1);
    let is_pair = (matches!(pieces.kind_before(index), Some(Kind::Other))
        || pieces.follows(index, b"#"))
        && pieces.is_dash(next)
        && pieces.is_joined(next)
        && pieces.is_joined(plus(index, 2));
    let is_horizontal = pieces.is_joined(next)
        && (pieces.is(next, b"h") || pieces.is(next, b"hx") || pieces.is(next, b"hz"));
    is_pair || is_horizontal
}

/// Whether a tract begins a line, in the cells after which is its land.
pub(crate) fn begins_tract(pieces: &Pieces<'_>, index: usize) -> bool {
    let next = plus(pieces.after_no(plus(index, 1)), 1);
    (pieces.is(index, b"tract") || pieces.is(index, b"parcel"))
        && pieces.has_before(index, b'\n')
        && pieces.has_before(next, b'\t')
        && next < pieces.len()
}

/// Whether the initial of a name is at an index, as in `H. J. Stoddard`: a letter that is no side, and a
/// period.
pub(crate) fn is_initial(pieces: &Pieces<'_>, index: usize) -> bool {
    let next = plus(index, 1);
    matches!(pieces.kind(index), Kind::Other) && pieces.is(next, b".") && pieces.is_joined(next)
}

/// Whether the initial between two names of a person is at an index, as in `John Q. Hamer`.
fn is_middle_initial(pieces: &Pieces<'_>, index: usize) -> bool {
    let is_after_name = matches!(index.checked_sub(1), Some(first) if is_name(pieces, first));
    is_initial(pieces, index)
        && pieces.size(index) == 1
        && is_after_name
        && is_name(pieces, plus(index, 2))
}

/// Whether a word with a capital, and more letters that are none, is at an index.
fn is_name(pieces: &Pieces<'_>, index: usize) -> bool {
    matches!(pieces.kind(index), Kind::Other)
        && matches!(pieces.bytes(index), [b'A'..=b'Z', b'a'..=b'z', ..])
}

/// Whether a date with the name of its month is at an index, as `Apr 3 1908`.
fn is_date_with_month(pieces: &Pieces<'_>, index: usize) -> bool {
    let day = plus(
        index,
        if pieces.is(plus(index, 1), b".") {
            2
        } else {
            1
        },
    );
    let year = plus(day, if pieces.is(plus(day, 1), b",") { 2 } else { 1 });
    is_month(pieces.lower(index)) && pieces.number(day).is_some() && pieces.has_digits(year, 4)
}

/// Whether `homesite` alone is after acreage at the end of its cell, as in `5.00 AC HOMESITE`: the acreage is
/// compared.
pub(crate) fn is_homesite_of_acreage(pieces: &Pieces<'_>, index: usize) -> bool {
    pieces.is(index, b"homesite")
        && matches!(pieces.lower_back(index, 1), Some(word) if is_acres(word))
        && pieces.begins_column(plus(index, 1))
}

impl<'a> Pieces<'a> {
    /// Whether the name of a company ends so many pieces before an index.
    pub fn is_company_back(&self, index: usize, count: usize) -> bool {
        match self.lower_back(index, count) {
            Some(word) => is_company(word),
            None => false,
        }
    }
}

/// What nobody has in land after `no`.
pub(crate) fn has_no_title(word: &[u8]) -> bool {
    is_same(word, b"interest") || is_same(word, b"title")
}

/// Whether `M&B` is at an index.
pub(crate) fn is_metes_and_bounds(pieces: &Pieces<'_>, index: usize) -> bool {
    pieces.is(index, b"m") && pieces.is(plus(index, 1), b"&") && pieces.is(plus(index, 2), b"b")
}
