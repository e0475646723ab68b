// Made by tools/words.py from words.tsv and classes.tsv. To change a word, change its row there.
//! Words of acreage and of numbers.

use crate::same::{is_among, value_among};

/// Words for the unit of acreage.
pub fn is_acres(word: &[u8]) -> bool {
    match word.len() {
        2 => is_among(word, 0x8_00000002, "ac"),
        3 => is_among(word, 0x80000_00000002, "acs"),
        4 => is_among(word, 0x20_00000002, "acre"),
        5 => is_among(word, 0x80000_00000002, "acres"),
        _ => false,
    }
}

/// Words that say that acreage follows.
pub fn is_acreage_lead(word: &[u8]) -> bool {
    match word.len() {
        2 => is_among(word, 0x40000_00000080, "gr"),
        3 => is_among(word, 0x100000_00104020, "est net tot"),
        5 => is_among(word, 0x181080_00100086, "about being gross total"),
        6 => is_among(word, 0x1000000_00000002, "approx"),
        7 => is_among(word, 0x4020_00000088, "contain gisacre"),
        8 => is_among(word, 0x80080_00100088, "contains gisacres totaling"),
        9 => is_among(word, 0x30_00000022, "aggregate estimated"),
        10 => is_among(word, 0x80_00000008, "comprising containing"),
        11 => is_among(word, 0x80_00000002, "aggregating"),
        13 => is_among(word, 0x2000000_00000002, "approximately"),
        _ => false,
    }
}

/// Other words before acreage.
pub fn is_area_word(word: &[u8]) -> bool {
    match word.len() {
        1 => is_among(word, 0x2_00000002, "a"),
        2 => is_among(word, 0x4040_00008200, "in of"),
        3 => is_among(word, 0x81030_00100082, "all and gis the"),
        4 => is_among(word, 0x10002a_0020000a, "area calc case unit"),
        5 => is_among(word, 0x181020_00001002, "about areas lands lease legal"),
        6 => is_among(word, 0x1010_00011010, "deeded leased parcel"),
        7 => is_among(word, 0x1000_00002000, "mineral"),
        8 => is_among(word, 0x10_00000002, "assessed"),
        9 => is_among(word, 0x10_00000010, "described"),
        13 => is_among(word, 0x2000000_00000002, "approximately"),
        _ => false,
    }
}

/// Words after acreage that make it that of a part, or of a unit, as in `40 acres out of`.
pub fn joins_acreage(word: &[u8]) -> bool {
    match word.len() {
        2 => is_among(word, 0x4000_00008000, "on"),
        3 => is_among(word, 0x100040_00008000, "off out"),
        4 => is_among(word, 0x100000_00200000, "unit"),
        5 => is_among(word, 0x80_00001000, "lying"),
        7 => is_among(word, 0x40d0_00181000, "located spacing therein thereof"),
        8 => is_among(word, 0x90_00080010, "drilling situated"),
        _ => false,
    }
}

/// Words for a number that a section may have.
pub fn is_numeral(word: &[u8]) -> bool {
    match word.len() {
        3 => is_among(word, 0x100c020_00188000, "one six ten two"),
        4 => is_among(word, 0x40020_00004040, "five four nine"),
        5 => is_among(
            word,
            0x2104020_00180060,
            "eight fifty forty seven sixty three",
        ),
        6 => is_among(
            word,
            0x2004020_00104020,
            "eighty eleven ninety thirty twelve twenty",
        ),
        7 => is_among(word, 0x2004000_00080040, "fifteen seventy sixteen"),
        8 => is_among(word, 0x4000_00104060, "eighteen fourteen nineteen thirteen"),
        9 => is_among(word, 0x4000_00080000, "seventeen"),
        _ => false,
    }
}

/// The words of a number.
pub fn is_of_count(word: &[u8]) -> bool {
    match word.len() {
        1 => is_among(word, 0x2000_00002000, "-"),
        3 => is_among(word, 0x100c030_00188002, "and one six ten two"),
        4 => is_among(word, 0x40020_00004040, "five four nine"),
        5 => is_among(
            word,
            0x2104020_00180060,
            "eight fifty forty seven sixty three",
        ),
        6 => is_among(
            word,
            0x2004020_00104020,
            "eighty eleven ninety thirty twelve twenty",
        ),
        7 => is_among(word, 0x2004010_00080140, "fifteen hundred seventy sixteen"),
        8 => is_among(
            word,
            0x4010_00104060,
            "eighteen fourteen nineteen thirteen thousand",
        ),
        9 => is_among(word, 0x4000_00080000, "seventeen"),
        _ => false,
    }
}

/// The value of a word for a number up to ninety.
pub fn value_of_count(word: &[u8]) -> Option<u64> {
    match word.len() {
        3 => value_among(word, 0x100c020_00188000, "one six ten two", &[1, 6, 10, 2]),
        4 => value_among(word, 0x40020_00004040, "five four nine", &[5, 4, 9]),
        5 => value_among(
            word,
            0x2104020_00180060,
            "eight fifty forty seven sixty three",
            &[8, 50, 40, 7, 60, 3],
        ),
        6 => value_among(
            word,
            0x2004020_00104020,
            "eighty eleven ninety thirty twelve twenty",
            &[80, 11, 90, 30, 12, 20],
        ),
        7 => value_among(
            word,
            0x2004000_00080040,
            "fifteen seventy sixteen",
            &[15, 70, 16],
        ),
        8 => value_among(
            word,
            0x4000_00104060,
            "eighteen fourteen nineteen thirteen",
            &[18, 14, 19, 13],
        ),
        9 => value_among(word, 0x4000_00080000, "seventeen", &[17]),
        _ => None,
    }
}
