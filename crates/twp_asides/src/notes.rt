//! What is said after land, with a mark before it, as in `; IMP $12,400`; names of companies; and
//! where what is said before land ends at a mark.

use crate::pieces::{Pieces, plus};
use crate::remarks::Position;
use twp_grammar::Kind;
use twp_words::{is_company, is_same, is_state};

/// The most pieces that are searched for a word: so the time for a text grows no faster than the text.
pub(crate) const PIECES_SEARCHED: usize = 1_000;

/// The most words of the name of a company.
const COMPANY_MOST: usize = 4;

/// Whether the piece at an index is the first of a cell after a tab or a bar, in a text without
/// lots, which may be those of a town.
pub(crate) fn is_in_cell(pieces: &Pieces<'_>, index: usize) -> bool {
    (pieces.has_before(index, b'\t') || pieces.follows(index, b"|")) && !has_lots(pieces)
}

/// Whether a word for lots is in a text, or may be, since the text has more pieces than are looked at.
fn has_lots(pieces: &Pieces<'_>) -> bool {
    for index in 0..PIECES_SEARCHED {
        if index >= pieces.len() {
            return false;
        }
        if matches!(pieces.kind(index), Kind::Lot) || pieces.is(index, b"l") {
            return true;
        }
    }
    true
}

/// Whether a dash with white space on both sides is at a place, after something that is said of land.
pub(crate) fn is_dash_after_note(pieces: &Pieces<'_>, place: usize, position: Position) -> bool {
    position == Position::AfterLand && is_after_spaced_dash(pieces, plus(place, 1))
}

/// Whether a comma is at an index, and `the` and a part after it, as in `Order No. 448, the W/2`.
pub(crate) fn is_before_the_land(pieces: &Pieces<'_>, index: usize) -> bool {
    let next = plus(index, 1);
    matches!(pieces.kind(index), Kind::Comma)
        && ((matches!(pieces.kind(next), Kind::The) && pieces.begins_part(next))
            || pieces.end_of_words_before(next).is_some())
}

/// Whether the number of a section is at an index, and its township after it, as in `GRAZING LAND 11 2N 3W`.
pub(crate) fn is_before_section_and_tier(pieces: &Pieces<'_>, index: usize) -> bool {
    pieces.may_be_section(index)
        && pieces.number(index).is_some()
        && !pieces.is_joined(index)
        && pieces.begins_tier(plus(index, 1))
        && !pieces.is_joined(plus(index, 1))
}

/// Whether something may be said of the land before an index: after a semicolon, a dash, or a comma.
pub(crate) fn may_begin_note(pieces: &Pieces<'_>, index: usize) -> bool {
    pieces.follows(index, b";")
        || is_after_spaced_dash(pieces, index)
        || (pieces.follows(index, b",") && !pieces.is_joined(index))
}

/// Whether the piece at an index is of a figure that is no section: a sum, a decimal, or a long number.
pub(crate) fn is_of_long_figure(pieces: &Pieces<'_>, index: usize) -> bool {
    let is_number = matches!(pieces.kind(index), Kind::Number(_) | Kind::BadNumber);
    is_number && (pieces.size(index) >= 4 || pieces.is_figure_with_decimals(index))
}

/// Whether a dash with white space on both sides is before an index.
pub(crate) fn is_after_spaced_dash(pieces: &Pieces<'_>, index: usize) -> bool {
    match index.checked_sub(1) {
        Some(dash) => {
            pieces.is_dash(dash) && !pieces.is_joined(dash) && !pieces.is_joined(index)
        }
        None => false,
    }
}

/// Whether the word at an index is of the name of a company, as in `Baker Ranch LLC`.
pub(crate) fn is_of_company_name(pieces: &Pieces<'_>, index: usize) -> bool {
    for place in plus(index, 1)..plus(index, COMPANY_MOST) {
        let is_word = matches!(pieces.kind(place), Kind::Other | Kind::And)
            || pieces.is(place, b"&")
            || pieces.is(place, b",");
        if !is_word || pieces.begins_line(place) {
            return false;
        }
        if ends_name(pieces.lower(place)) {
            return true;
        }
    }
    false
}

/// Whether a word ends the name of a company, an office, or a map.
fn ends_name(word: &[u8]) -> bool {
    (is_company(word) && !is_same(word, b"trust"))
        || is_same(word, b"district")
        || is_same(word, b"office")
        || is_same(word, b"association")
        || is_same(word, b"assn")
        || is_same(word, b"quad")
        || is_same(word, b"quadrangle")
}

/// Whether `O&G` is at an index.
pub(crate) fn begins_oil_and_gas(pieces: &Pieces<'_>, index: usize) -> bool {
    pieces.is(index, b"o") && pieces.is(plus(index, 1), b"&") && pieces.is(plus(index, 2), b"g")
}

/// Whether the address of land is at an index, as in `Commonly known as: 1290 Robinson Rd`.
pub(crate) fn begins_address(pieces: &Pieces<'_>, index: usize) -> bool {
    pieces.is(index, b"commonly")
        && pieces.is(plus(index, 1), b"known")
        && pieces.is(plus(index, 2), b"as")
        && pieces.is(plus(index, 3), b":")
}

/// Whether the letters of a state are at an index, and a township of a register after them, as in
/// `ID080020N0030W`.
pub(crate) fn begins_code_of_state(pieces: &Pieces<'_>, index: usize) -> bool {
    let next = plus(index, 1);
    is_state(pieces.lower(index)) && pieces.is_joined(next) && pieces.begins_register(next)
}

/// Whether a number that may be that of a section, and a hyphen with more digits after it, are at
/// an index, as in `File: 11-204`: with the word before them, they are the number of a file.
pub(crate) fn is_before_file_number(pieces: &Pieces<'_>, index: usize) -> bool {
    let dash = plus(index, 1);
    let last = plus(index, 2);
    pieces.number(index).is_some()
        && pieces.is_dash(dash)
        && pieces.is_joined(dash)
        && pieces.is_joined(last)
        && pieces.number(last).is_some()
        && pieces.size(last) >= 3
        && !pieces.is_joined(plus(last, 1))
}
