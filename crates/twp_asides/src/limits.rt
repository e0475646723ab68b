//! What no remark contains, since it may name land, or limit it.

use crate::marks::{has_no_title, is_homesite_of_acreage, is_metes_and_bounds};
use crate::notes::is_of_company_name;
use crate::pieces::{Pieces, plus};
use twp_grammar::Kind;
use twp_words::{
    alters_land, has_side, is_beyond_label, is_glued, is_instrument, is_month, is_numeral,
    is_of_label, is_of_record, is_partial, is_round_acreage, limits_land, may_be_corners,
};

/// The number of a township's last section.
const SECTIONS: u16 = 36;

/// Whether the piece at an index is in no remark.
pub(crate) fn is_beyond_remark(pieces: &Pieces<'_>, index: usize) -> bool {
    (pieces.may_be_land(index) && !pieces.is_share(index) && !pieces.begins_all_of_property(index))
        || pieces.is_day_of_month(index)
        || (is_of_calendar(pieces, index) && pieces.has_column_of_lots())
        || pieces.is_township_word(index)
        || pieces.is(index, b"?")
        || (pieces.is(index, b"sale") && pieces.follows(index, b"timber"))
        || (pieces.is(index, b"'") && matches!(pieces.kind_before(index), Some(Kind::Number(_))))
        || (may_be_corners(pieces.lower(index))
            && !(pieces.is(index, b"sell") || pieces.is(index, b"need")))
        || (alters_land(pieces.lower(index))
            && !is_homesite_of_acreage(pieces, index)
            && !is_of_instrument(pieces, index))
        || is_glued(pieces.bytes(index))
        || pieces.is_like_section(index)
        || is_metes_and_bounds(pieces, index)
        || (pieces.is(index, b"no") && has_no_title(pieces.lower(plus(index, 1))))
        || (pieces.is(index, b"/")
            && (pieces.is(plus(index, 1), b"2") || pieces.is(plus(index, 1), b"4"))
            && !matches!(index.checked_sub(1), Some(before) if pieces.is_date(before)))
        || (pieces.is(index, b"tract") && pieces.number(plus(index, 1)).unwrap_or(0) > SECTIONS)
        || ((is_partial(pieces.lower(index)) || is_beyond_label(pieces.lower(index)))
            && !is_of_instrument(pieces, index)
            && !pieces.is_percentage(plus(index, 1))
            && !is_of_company_name(pieces, index)
            && !is_of_formula(pieces, index))
}

/// Whether a date, or a month, is at an index.
fn is_of_calendar(pieces: &Pieces<'_>, index: usize) -> bool {
    pieces.is_date(index) || is_month(pieces.lower(index))
}

/// Whether the piece at an index may say, after land, which part of it is meant: a word for that, a side, a
/// number, the acreage that land is called by, or a size, as in `300 x 300`.
pub(crate) fn limits_land_at(pieces: &Pieces<'_>, index: usize) -> bool {
    let word = pieces.lower(index);
    let next = plus(index, 1);
    let is_rest = pieces.is(index, b"net")
        && (pieces.is(next, b"of") || pieces.number(next).is_some());
    limits_land(word)
        || is_rest
        || (pieces.is(index, b"sale") && pieces.is(next, b"to"))
        || has_side(word)
        || (is_numeral(word) && adds_section(pieces, plus(index, 1)))
        || is_size_or_acreage(pieces, index)
}

/// Whether the piece at an index is of a size, as in `300 x 300`, or the acreage that land is called by, as
/// in `the Smith 80`.
pub(crate) fn is_size_or_acreage(pieces: &Pieces<'_>, index: usize) -> bool {
    let next = plus(index, 1);
    let is_size = (pieces.is(index, b"x") || pieces.is(index, b"by"))
        && pieces.number(next).is_some();
    if is_size || !is_round_acreage(pieces.number(index).unwrap_or(0)) {
        return is_size;
    }
    let is_record = matches!(
        pieces.lower_back(index, 1),
        Some(label) if is_of_label(label) || is_instrument(label) || is_of_record(label)
    );
    let is_use = pieces.is(next, b"aums")
        || pieces.is(next, b"aum")
        || pieces.is(next, b"nma")
        || pieces.is(next, b"nra");
    !is_record
        && !is_use
        && (!pieces.is_joined(index) || pieces.follows(index, b"("))
        && (!pieces.is_joined(next) || pieces.is(next, b")"))
}

/// Whether a word at an index adds the section of the number before it, as in `Ten also`.
fn adds_section(pieces: &Pieces<'_>, index: usize) -> bool {
    pieces.is(index, b"as")
        || pieces.is(index, b"also")
        || pieces.is(index, b"entire")
        || pieces.is(index, b"too")
        || pieces.is(index, b"all")
}

/// Whether `Row` and a number fill a cell, as in `Row 14 | T2N-R3W | Sec 33: NENE`: it is no right of way.
pub(crate) fn is_row_of_table(pieces: &Pieces<'_>, index: usize) -> bool {
    let number = plus(index, 1);
    pieces.is(index, b"row")
        && pieces.begins_line(index)
        && pieces.number(number).is_some()
        && !pieces.is_joined(number)
        && pieces.begins_column(plus(number, 1))
}

/// Whether the right of way is the type of a case, as in `Case Type 281001: ROW-ROADS`.
pub(crate) fn is_type_of_case(pieces: &Pieces<'_>, index: usize) -> bool {
    let dash = plus(index, 1);
    pieces.is(index, b"row")
        && pieces.is(dash, b"-")
        && pieces.is_joined(dash)
        && pieces.follows(index, b":")
        && (pieces.is_back(index, 3, b"type") || pieces.is_back(index, 4, b"type"))
}

/// Whether the word at an index is of `made a part of`, `by and between`, `only insofar`,
/// `Fee minerals:`, `Proposed Reinstatement of Terminated Oil and Gas Lease`, `Row 14`, or
/// `Case Type 281001: ROW-ROADS`, which limit no land.
fn is_of_instrument(pieces: &Pieces<'_>, index: usize) -> bool {
    let is_part = pieces.is(index, b"part")
        && pieces.follows(index, b"a")
        && pieces.is_back(index, 2, b"made");
    let next = plus(index, 1);
    let is_between = pieces.is(index, b"between")
        && pieces.follows(index, b"and")
        && pieces.is_back(index, 2, b"by");
    let is_only = pieces.is(index, b"only")
        && (pieces.is(next, b"insofar") || pieces.follows(index, b"int"));
    let is_estate = pieces.is(index, b"minerals") && pieces.is(next, b":");
    let is_proposed = pieces.is(index, b"proposed") && pieces.is(next, b"reinstatement");
    let is_terminated = pieces.is(index, b"terminated")
        && pieces.follows(index, b"of")
        && pieces.is_back(index, 2, b"reinstatement");
    let is_release = pieces.is(index, b"release")
        && (pieces.follows(index, b"remise")
            || (pieces.follows(index, b",") && pieces.is_back(index, 2, b"remise")));
    let is_base = pieces.is(index, b"base") && pieces.is(next, b"property");
    let is_in_land = pieces.is(next, b"in")
        || pieces.is(next, b"under")
        || pieces.is(next, b"underlying");
    let is_of_minerals = (pieces.is(index, b"minerals") && is_in_land)
        || (pieces.is(index, b"unleased")
            && (pieces.is(next, b"minerals") || pieces.is(next, b"interest")));
    let is_tax = pieces.is(index, b"tax")
        && (pieces.is(next, b"deed")
            || pieces.is(next, b"code")
            || pieces.is(next, b"roll")
            || pieces.is(next, b"district")
            || pieces.is(next, b"id")
            || pieces.is(next, b"acct")
            || pieces.is(next, b"account")
            || pieces.is(next, b"year")
            || pieces.is(next, b"sale")
            || pieces.is(next, b"cert")
            || pieces.is(next, b"certificate"));
    let is_row = is_row_of_table(pieces, index)
        || is_type_of_case(pieces, index)
        || matches!(index.checked_sub(2), Some(row) if is_type_of_case(pieces, row));
    is_part
        || is_between
        || is_exempt(pieces, index)
        || is_only
        || is_estate
        || is_proposed
        || is_terminated
        || is_base
        || is_release
        || is_tax
        || is_of_minerals
        || is_row
}

/// Whether `exempt` ends its column, as in `AG EXEMPT`: the land pays no tax.
pub(crate) fn is_exempt(pieces: &Pieces<'_>, index: usize) -> bool {
    let next = plus(index, 1);
    pieces.is(index, b"exempt") && (pieces.is(next, b")") || pieces.begins_column(next))
}

/// Whether the word at an index is of `IT IS FURTHER ORDERED`, or the value of a column, as in
/// `SURVTYPTXT=Original`.
fn is_of_formula(pieces: &Pieces<'_>, index: usize) -> bool {
    (pieces.is(index, b"further") && pieces.is(plus(index, 1), b"ordered"))
        || (pieces.is(index, b"original") && pieces.follows(index, b"="))
}
