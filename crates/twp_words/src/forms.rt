//! Words by their form: what they begin or end with, whatever else they are; and letters that scanning makes
//! of digits.

use crate::parties::{begins_exception, says_partial};
use crate::same::is_same;

/// Words for a part of the land, for other land, or for a correction: no remark has them.
pub fn is_partial(word: &[u8]) -> bool {
    (may_be_like_one(word)
        && (is_side_with_more(word) || is_like_exception(word) || is_like_section(word)))
        || says_partial(word)
}

/// Whether a word begins as a side, an exception, or a section does.
fn may_be_like_one(word: &[u8]) -> bool {
    matches!(word, [b'e' | b'n' | b's' | b'w' | b'x', ..])
}

/// Whether a word is made of that for a side, as `northerly`, `eastern`, or `Southhalf`.
fn is_side_with_more(word: &[u8]) -> bool {
    word.len() > 5
        && (word.starts_with(b"north")
            || word.starts_with(b"south")
            || word.starts_with(b"easter")
            || word.starts_with(b"wester")
            || word.starts_with(b"easth")
            || word.starts_with(b"westh"))
}

/// Whether a word is like one for an exception, with a slip, or as no list has it.
fn is_like_exception(word: &[u8]) -> bool {
    let is_front = word.starts_with(b"exc")
        || word.starts_with(b"exep")
        || word.starts_with(b"exemp")
        || word.starts_with(b"exlu")
        || word.starts_with(b"expt")
        || word.starts_with(b"xc");
    is_front && !begins_exception(word) && !word.starts_with(b"exchang")
}

/// Whether a word is like `section`, with a slip.
fn is_like_section(word: &[u8]) -> bool {
    word.len() <= 8
        && word.starts_with(b"s")
        && word.ends_with(b"tion")
        && !is_same(word, b"station")
}

/// Whether a word has the name of a side, or of a half or a quarter, in it, as `soeast`, or `whalf`.
pub fn has_side(word: &[u8]) -> bool {
    for start in 0..word.len() {
        let rest = &word[start..];
        if matches!(rest, [b'e' | b'h' | b'n' | b'q' | b's' | b'w', ..]) && begins_side(rest) {
            return true;
        }
    }
    false
}

/// Whether a text begins with the name of a side, or of a half or a quarter.
fn begins_side(text: &[u8]) -> bool {
    text.starts_with(b"north")
        || text.starts_with(b"south")
        || text.starts_with(b"east")
        || text.starts_with(b"west")
        || text.starts_with(b"half")
        || text.starts_with(b"hlf")
        || text.starts_with(b"qtr")
        || text.starts_with(b"quarter")
}

/// Whether a word may be corners with a slip.
pub fn may_be_corners(word: &[u8]) -> bool {
    match word {
        [b'n' | b's', b'e' | b'w'] => true,
        [b'n' | b's', b'e' | b'w', third, ..] => {
            matches!(*third, b'n' | b's' | b'q' | b'h' | b'0'..=b'9') || word.len() == 4
        }
        _ => false,
    }
}

/// Whether a word is a corner and a letter that scanning makes of a `1`, as in `NEl/4`, but not `Nev`, for
/// Nevada.
pub fn is_damaged_corner(bytes: &[u8]) -> bool {
    match bytes {
        [b'N', b'e', b'v'] => false,
        [
            b'N' | b'n' | b'S' | b's',
            b'E' | b'e' | b'W' | b'w',
            b'l' | b'I' | b'i' | b'V' | b'v' | b'Y' | b'y',
        ] => true,
        [b'N' | b'S', b'E' | b'W', b'A'] => true,
        _ => false,
    }
}

/// Whether a word is the side of a range, and the letters for a meridian after it, as in `R3WBM`.
pub fn is_side_and_meridian(bytes: &[u8]) -> bool {
    matches!(bytes, [b'W' | b'E', b'B', b'M'])
}

/// Whether a word is a side and a letter that scanning makes of a `1`, before a slash, as in `Wl/2`, or of
/// `1/`, as in `WY2` or `WV2`.
pub fn is_damaged_half(bytes: &[u8], rest: Option<&[u8]>) -> bool {
    match bytes {
        [b'N' | b'S' | b'E' | b'W', b'l' | b'I' | b'i'] => matches!(rest, Some([b'/', ..])),
        [b'N' | b'S' | b'E' | b'W', b'Y' | b'V' | b'y' | b'v'] => matches!(rest, Some([b'2', ..])),
        _ => false,
    }
}
