//! What the columns of a hint's row say of a refused sign, of the signs beside it, and of what is expected.

use twp_diagnose::{Surroundings, TokenAt};
use twp_grammar::{Expected, Kind, Tokens};

/// The most letters of quarters that are taken for shorthand.
const SHORTHAND_MOST: usize = 20;

/// The most signs before the refused one that a row looks at.
const BEFORE_MOST: usize = 4;

/// Whether the signs before the refused one fit some columns, separated by `;`.
pub(crate) fn fit_before(columns: &str, sight: &Surroundings<'_>) -> bool {
    match columns.rsplit_once(';') {
        Some((others, last)) => fits(last, sight.before) && fit_farther(others, sight.ahead),
        None => fits(columns, sight.before),
    }
}

/// Whether the last signs of a text but one fit some columns.
fn fit_farther(columns: &str, ahead: &[u8]) -> bool {
    let mut last: [&[u8]; BEFORE_MOST] = [b""; BEFORE_MOST];
    for token in Tokens::new(ahead) {
        last = [token.text, last[0], last[1], last[2]];
    }
    let mut index: usize = 1;
    for column in columns.rsplit(';') {
        let bytes = last.get(index).copied().unwrap_or(b"");
        if !fits(column, apart(bytes)) {
            return false;
        }
        index = index.saturating_add(1);
    }
    true
}

/// A sign that is not beside the refused one.
fn apart(bytes: &[u8]) -> TokenAt<'_> {
    TokenAt {
        bytes,
        is_joined: false,
    }
}

/// Whether the signs after the refused one fit some columns, separated by `;`.
pub(crate) fn fit_after(columns: &str, sight: &Surroundings<'_>) -> bool {
    if columns.is_empty() {
        return true;
    }
    let mut index: usize = 0;
    for column in columns.split(';') {
        if !fits(column, sight.after(index)) {
            return false;
        }
        index = index.saturating_add(1);
    }
    true
}

/// Whether a sign is one of those that a column lists, separated by spaces: texts, in any letters, and
/// names in angle brackets. An empty column fits every sign.
pub(crate) fn fits(column: &str, sign: TokenAt<'_>) -> bool {
    if column.is_empty() {
        return true;
    }
    for name in column.split(' ') {
        let is_listed = match name.strip_prefix('+') {
            Some(name) => sign.is_joined && is_of(name, sign.bytes),
            None => is_of(name, sign.bytes),
        };
        if is_listed {
            return true;
        }
    }
    false
}

/// Whether a sign is this text, or has this name.
fn is_of(name: &str, bytes: &[u8]) -> bool {
    if name.starts_with('<') {
        is_named(name, bytes)
    } else {
        is_text(name, bytes)
    }
}

/// Whether a sign is this text, in any letters.
fn is_text(text: &str, bytes: &[u8]) -> bool {
    text.len() == bytes.len() && bytes.eq_ignore_ascii_case(text.as_bytes())
}

/// Whether a sign has this name.
fn is_named(name: &str, bytes: &[u8]) -> bool {
    let kind = kind_of(bytes);
    match name {
        "<nothing>" => bytes.is_empty(),
        "<any>" => !bytes.is_empty(),
        "<semicolon>" => matches!(bytes, [b';']),
        "<number>" => matches!(kind, Kind::Number(_)),
        "<above-2>" => matches!(kind, Kind::Number(number) if number > 2),
        "<section>" => matches!(kind, Kind::Sec),
        "<lot>" => matches!(kind, Kind::Lot),
        "<side>" => matches!(kind, Kind::NorthSouth(_) | Kind::EastWest(_)),
        "<north-south>" => matches!(kind, Kind::NorthSouth(_)),
        "<corner>" => matches!(kind, Kind::Corner(_)),
        "<quarters>" => are_quarters(bytes),
        "<land>" => is_land(kind) || are_quarters(bytes),
        "<word>" => matches!(bytes.first(), Some(byte) if byte.is_ascii_alphabetic()),
        "<byte-A0>" => matches!(bytes, [0xA0]),
        "<byte-BC>" => matches!(bytes, [0xBC]),
        "<byte-BD>" => matches!(bytes, [0xBD]),
        "<byte-FE>" => matches!(bytes, [0xFE]),
        "<byte-FF>" => matches!(bytes, [0xFF]),
        _ => is_among(texts_of(name), bytes),
    }
}

/// What a sign is.
fn kind_of(bytes: &[u8]) -> Kind {
    match Tokens::new(bytes).next() {
        Some(token) => token.kind,
        None => Kind::Other,
    }
}

/// Whether a sign of this kind begins a part of a section.
fn is_land(kind: Kind) -> bool {
    matches!(
        kind,
        Kind::Lot | Kind::NorthSouth(_) | Kind::EastWest(_) | Kind::Corner(_)
    )
}

/// Whether these are the letters of two quarters or more, without anything between them, as `SWNE`.
fn are_quarters(bytes: &[u8]) -> bool {
    if bytes.len() < 4 || bytes.len() > SHORTHAND_MOST || bytes.len() % 2 != 0 {
        return false;
    }
    for corner in bytes.chunks(2) {
        if !is_among("NE NW SW SE", corner) {
            return false;
        }
    }
    true
}

/// Whether a sign is one of these texts, separated by spaces, in any letters.
fn is_among(texts: &str, bytes: &[u8]) -> bool {
    for text in texts.split(' ') {
        if is_text(text, bytes) && !bytes.is_empty() {
            return true;
        }
    }
    false
}

/// The texts that have a name.
fn texts_of(name: &str) -> &'static str {
    match name {
        "<side-word>" => "north south east west",
        "<corner-word>" => "northeast northwest southwest southeast",
        "<half>" => "1/2 ½",
        "<quarter>" => "1/4 ¼ quarter quarters qtr",
        "<acres>" => "ac acre acres",
        "<except>" => "less except excepting excluding",
        "<slash>" => "/ \u{2044} \u{2215} \\",
        "<dash>" => "- \u{2010} \u{2011} \u{2012} \u{2013} \u{2014} \u{2212}",
        "<meridian>" => "BM PM NMPM MDM mer meridian principal",
        "<state>" => STATES,
        "<number-word>" => NUMBER_WORDS,
        _ => "",
    }
}

/// The names of states of one word, their abbreviations, and the letters for them, that have public land.
const STATES: &str =
    "Alabama Alaska Arizona Arkansas California Colorado Florida Idaho Illinois Indiana Iowa Kansas \
    Louisiana Michigan Minnesota Mississippi Missouri Montana Nebraska Nevada Ohio Oklahoma Oregon Utah \
    Washington Wisconsin Wyoming Ala Ariz Ark Calif Colo Fla Kan Kans Mich Minn Mont Nebr Nev Okla Oreg Wis \
    Wyo AK AR AZ CA CO FL IA ID KS MN MT ND NM NV OK OR SD UT WA WY";

/// The words for numbers.
const NUMBER_WORDS: &str =
    "one two three four five six seven eight nine ten eleven twelve thirteen fourteen fifteen sixteen \
    seventeen eighteen nineteen twenty thirty";

/// The refusal of a character that is not allowed in a description.
const BAD_BYTE: u8 = 42;

/// Whether one of some names, separated by spaces, is that of what is expected at the refused sign;
/// `character` is that of a character that is not allowed in a description.
pub(crate) fn is_expected(names: &str, sight: &Surroundings<'_>) -> bool {
    let here = match sight.expected {
        Some(expected) => names_of(expected),
        None if sight.number == BAD_BYTE => "character",
        None => "",
    };
    for name in here.split(' ') {
        for wanted in names.split(' ') {
            if name == wanted {
                return true;
            }
        }
    }
    false
}

/// The names of what is expected, separated by spaces.
fn names_of(expected: Expected) -> &'static str {
    match expected {
        Expected::Beginning => "beginning",
        Expected::TownshipSide => "north-south",
        Expected::Range => "range",
        Expected::RangeSide => "east-west",
        Expected::Sections => "heading-end",
        Expected::TownshipNumber
        | Expected::RangeNumber
        | Expected::SectionNumber
        | Expected::LastSection
        | Expected::SectionOrAll
        | Expected::LotNumber
        | Expected::LastLot => "number",
        Expected::InclusiveSectionOrAll => "number inclusive",
        Expected::PartsOrSections => "part section-end",
        Expected::PartOrSection | Expected::LotOrPart => "part number",
        Expected::InclusiveLotOrPart => "part number inclusive",
        Expected::Part => "part",
        Expected::InclusiveOrMoreSections | Expected::InclusiveOrMoreLots =>
            "section-end inclusive",
        Expected::MoreSections | Expected::GroupEnd | Expected::MoreLots | Expected::MoreParts =>
            "section-end",
        Expected::MoreStepsOrParts => "steps section-end",
        Expected::All => "all",
        Expected::Half => "half",
        Expected::Quarter => "quarter",
        Expected::Step => "step",
        Expected::Nothing => "end",
    }
}
