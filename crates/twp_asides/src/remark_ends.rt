//! What a remark before land may end with: the number of a record, who conveys land, a sentence;
//! and the questions after land.

use crate::leads::is_sure_part;
use crate::pieces::{Pieces, plus};
use twp_grammar::Kind;
use twp_words::{is_same, points_into};

/// The most pieces between who conveys land and the land, as in `conveys to Wm. Harker the SW1/4`.
const CONVEYANCE_MOST: usize = 8;

/// Whether the number of a record is before an index, and land after it, as in
/// `WD BK 14 PG 22 INST 36115 E2NE`.
pub(crate) fn is_after_record(pieces: &Pieces<'_>, index: usize) -> bool {
    let Some(number) = index.checked_sub(1) else {
        return false;
    };
    let is_number = matches!(pieces.kind(number), Kind::Number(_) | Kind::BadNumber)
        && !pieces.is_joined(index);
    let is_record = pieces.follows(number, b"pg")
        || pieces.follows(number, b"page")
        || pieces.follows(number, b"inst")
        || pieces.follows(number, b"#")
        || (pieces.follows(number, b"no") && pieces.size(number) >= 4)
        || matches!(number.checked_sub(2), Some(book) if is_book_and_page(pieces, book));
    is_number && is_record && pieces.begins_place(index)
}

/// Whether a book and a page of three digits are at an index, as `31/406`.
fn is_book_and_page(pieces: &Pieces<'_>, index: usize) -> bool {
    let slash = plus(index, 1);
    let page = plus(slash, 1);
    pieces.number(index).is_some()
        && pieces.is(slash, b"/")
        && pieces.is_joined(slash)
        && pieces.has_digits(page, 3)
        && pieces.is_joined(page)
}

/// Whether `the` is at an index, and an aliquot part after it, after who conveys land, or has it, as in
/// `Grantor conveys to Grantee the SW1/4`.
pub(crate) fn is_after_conveyance(pieces: &Pieces<'_>, index: usize) -> bool {
    if !matches!(pieces.kind(index), Kind::The) || !pieces.begins_part(index) {
        return false;
    }
    let is_described = pieces.follows(index, b"as") && pieces.is_back(index, 2, b"described");
    if is_described {
        return true;
    }
    for count in 1..CONVEYANCE_MOST {
        let Some(word) = pieces.lower_back(index, count) else {
            return false;
        };
        if is_verb_of_conveyance(word) {
            return true;
        }
        let is_grantee = count > 1 && is_same(word, b"to");
        if points_into(word) && !is_grantee {
            return false;
        }
    }
    false
}

/// Whether a word says that somebody conveys land, or has it.
fn is_verb_of_conveyance(word: &[u8]) -> bool {
    is_same(word, b"convey")
        || is_same(word, b"conveys")
        || is_same(word, b"conveyed")
        || is_same(word, b"grants")
        || is_same(word, b"quitclaim")
        || is_same(word, b"quitclaims")
        || is_same(word, b"owns")
        || is_same(word, b"own")
        || is_same(word, b"need")
}

/// Whether the period of a sentence is at an index, and a section or a township after it.
pub(crate) fn is_end_of_sentence(pieces: &Pieces<'_>, index: usize) -> bool {
    let next = plus(index, 1);
    pieces.is(index, b".")
        && pieces.is_joined(index)
        && !pieces.is_joined(next)
        && (matches!(pieces.kind(next), Kind::Sec)
            || pieces.begins_tier(next)
            || is_sure_part(pieces, next)
            || matches!(pieces.kind(next), Kind::Lot)
            || (matches!(pieces.kind(next), Kind::The) && pieces.begins_part(next))
            || begins_named_value(pieces, next))
}

/// Whether the name of a value, and a colon, begin at an index after a sentence, as in `Bk 30 Pg
/// 11. Grantor: Ole Berg`.
pub(crate) fn begins_named_value(pieces: &Pieces<'_>, index: usize) -> bool {
    let is_after_word = matches!(pieces.lower_back(index, 2), Some([_, _, ..]));
    pieces.follows(index, b".")
        && is_after_word
        && !pieces.is_joined(index)
        && matches!(pieces.kind(index), Kind::Other)
        && pieces.begins_with_letter(index)
        && pieces.is(plus(index, 1), b":")
}

/// Whether a question or a request after land begins at an index, as in `Do we have a lease on this?`
pub(crate) fn begins_question(pieces: &Pieces<'_>, index: usize) -> bool {
    pieces.is(index, b"do")
        || pieces.is(index, b"does")
        || pieces.is(index, b"can")
        || pieces.is(index, b"could")
        || pieces.is(index, b"please")
        || pieces.is(index, b"let")
        || pieces.is(index, b"call")
        || pieces.is(index, b"sorry")
}

/// Whether the mark of a question that begins at an index ends its line at a later place.
pub(crate) fn is_end_of_question(pieces: &Pieces<'_>, index: usize, place: usize) -> bool {
    pieces.is(place, b"?") && begins_question(pieces, index) && pieces.begins_column(plus(place, 1))
}
