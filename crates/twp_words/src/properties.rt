// Made by tools/words.py from words.tsv and classes.tsv. To change a word, change its row there.
//! Words for a property, as in `all that certain real property being`.

use crate::same::is_among;

/// The words of `all that certain real property being`.
pub fn is_of_property(word: &[u8]) -> bool {
    match word.len() {
        1 => is_among(word, 0x4003000_04003000, ", - :"),
        2 => is_among(word, 0x20cc040_00108206, "as by in is of or to"),
        3 => is_among(word, 0x101030_00900002, "all and are the wit"),
        4 => is_among(word, 0x189030_00143200, "into land more real that this"),
        5 => is_among(
            word,
            0x1800a0_00111004,
            "being lands lease lying piece those tract",
        ),
        6 => is_among(word, 0x101020_00050020, "estate parcel report"),
        7 => is_among(
            word,
            0x2084030_00089048,
            "certain covered follows legally located opinion situate",
        ),
        8 => is_among(
            word,
            0x2080010_00090202,
            "affected included premises property situated",
        ),
        9 => is_among(word, 0x90_00040050, "described following remaining"),
        10 => is_among(word, 0x10_00080000, "segregated"),
        12 => is_among(word, 0x2000000_00010000, "particularly"),
        _ => false,
    }
}

/// The words with which `all that certain real property being` may begin.
pub fn begins_property(word: &[u8]) -> bool {
    match word.len() {
        3 => is_among(word, 0x1020_00100002, "all the"),
        4 => is_among(word, 0x101000_00140000, "real that"),
        5 => is_among(word, 0x80020_00101000, "lands those"),
        8 => is_among(word, 0x2000000_00010000, "property"),
        _ => false,
    }
}

/// The words for land in it.
pub fn names_property(word: &[u8]) -> bool {
    match word.len() {
        4 => is_among(word, 0x10_00001000, "land"),
        5 => is_among(word, 0x80000_00001000, "lands"),
        6 => is_among(word, 0x20_00000020, "estate"),
        8 => is_among(word, 0x2080000_00010000, "premises property"),
        _ => false,
    }
}

/// Words with which no remark before land ends, since they say where in the land something is.
pub fn points_into(word: &[u8]) -> bool {
    match word.len() {
        2 => is_among(word, 0xc040_00108200, "in of on to"),
        4 => is_among(word, 0xa000_00000240, "from into"),
        _ => false,
    }
}
