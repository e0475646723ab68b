//! What land before a half or a quarter ends with, and what sections and townships end with.
ghost use Rattle.std.specs.Prelude.{◌≡◌};
ghost use Rattle.twp_rules.specs.Edges.{ends_with_one};
ghost use Rattle.twp_rules.specs.Endings.{corners, digits, heading_ends, section_again, section_ends, sides};
ghost use Rattle.twp_rules.specs.Endings.{worn_corners, worn_section_ends, worn_sides};

use crate::rows::ends_with_one;
use crate::same::ends_with;

/// Whether a text ends with one of the texts `sides` of the specification.
pub(crate) fn has_sides(seen: &[u8]) -> bool
    ensures { result ≡ ends_with_one seen.now sides }
{
    ends_with(seen, b"n")
        || ends_with(seen, b"s")
        || ends_with(seen, b"e")
        || ends_with(seen, b"w")
        || ends_with(seen, b"n.")
        || ends_with(seen, b"s.")
        || ends_with(seen, b"e.")
        || ends_with(seen, b"w.")
        || ends_with(seen, b"north")
        || ends_with(seen, b"south")
        || ends_with(seen, b"east")
        || ends_with(seen, b"west")
        || ends_with(seen, b"no.")
        || ends_with(seen, b"so.")
}

/// Whether a text ends with one of the texts `corners` of the specification.
pub(crate) fn has_corners(seen: &[u8]) -> bool
    ensures { result ≡ ends_with_one seen.now corners }
{
    ends_with(seen, b"ne")
        || ends_with(seen, b"nw")
        || ends_with(seen, b"se")
        || ends_with(seen, b"sw")
        || ends_with(seen, b"e.")
        || ends_with(seen, b"w.")
        || ends_with(seen, b"east")
        || ends_with(seen, b"west")
        || ends_with(seen, b" e")
        || ends_with(seen, b" w")
}

/// The texts `worn_sides` of the specification.
static WORN_SIDES: [[u8; 6]; 15] = [
    *b"_nortb", *b"_soutb", *b"nortli", *b"soutli", *b"_norlh", *b"_soulh", *b"__eaet", *b"__eaat",
    *b"__eust", *b"__weat", *b"__weet", *b"_sonth", *b"_uorth", *b"_nortn", *b"_soutn",
];

/// Whether a text ends with one of them.
pub(crate) fn has_worn_sides(seen: &[u8]) -> bool
    ensures { result ≡ ends_with_one seen.now worn_sides }
{
    ends_with_one(seen, 0x0010_4304, &WORN_SIDES)
}

/// The texts `worn_corners` of the specification.
static WORN_CORNERS: [[u8; 4]; 15] = [
    *b"cast", *b"easl", *b"easr", *b"easf", *b"eust", *b"eaat", *b"eaet", *b"wcst", *b"wesl",
    *b"wesr", *b"wesf", *b"vest", *b"weat", *b"wect", *b"wert",
];

/// Whether a text ends with one of them.
pub(crate) fn has_worn_corners(seen: &[u8]) -> bool
    ensures { result ≡ ends_with_one seen.now worn_corners }
{
    ends_with_one(seen, 0x0014_1040, &WORN_CORNERS)
}

/// The texts `digits` of the specification.
static DIGITS: [[u8; 1]; 10] = [
    *b"0", *b"1", *b"2", *b"3", *b"4", *b"5", *b"6", *b"7", *b"8", *b"9",
];

/// Whether a text ends with one of them.
pub(crate) fn has_digits(seen: &[u8]) -> bool
    ensures { result ≡ ends_with_one seen.now digits }
{
    ends_with_one(seen, 0x03ff_0000, &DIGITS)
}

/// The texts `section_ends` of the specification.
static SECTION_ENDS: [[u8; 6]; 15] = [
    *b"_____)", *b"___one", *b"___two", *b"_three", *b"__four", *b"__five", *b"___six", *b"_seven",
    *b"_eight", *b"__nine", *b"___ten", *b"eleven", *b"twelve", *b"__teen", *b"____ty",
];

/// Whether a text ends with one of them.
pub(crate) fn has_section_ends(seen: &[u8]) -> bool
    ensures { result ≡ ends_with_one seen.now section_ends }
{
    ends_with_one(seen, 0x0314_c220, &SECTION_ENDS)
}

/// The texts `worn_section_ends` of the specification.
static WORN_SECTION_ENDS: [[u8; 3]; 19] = [
    *b"_1l", *b"_1i", *b"_1o", *b"_2l", *b"_2i", *b"_2o", *b"_3l", *b"_3i", *b"_3o", *b" ll",
    *b" li", *b" il", *b" lo", *b" io", *b".ll", *b".li", *b".il", *b".lo", *b".io",
];

/// Whether a text ends with one of them.
pub(crate) fn has_worn_section_ends(seen: &[u8]) -> bool
    ensures { result ≡ ends_with_one seen.now worn_section_ends }
{
    ends_with_one(seen, 0x0000_9200, &WORN_SECTION_ENDS)
}

/// The texts `section_again` of the specification.
static SECTION_AGAIN: [[u8; 7]; 3] = [*b"section", *b"____sec", *b"___sec."];

/// Whether a text ends with one of them.
pub(crate) fn has_section_again(seen: &[u8]) -> bool
    ensures { result ≡ ends_with_one seen.now section_again }
{
    ends_with_one(seen, 0x0000_4008, &SECTION_AGAIN)
}

/// The texts `heading_ends` of the specification.
static HEADING_ENDS: [[u8; 8]; 10] = [
    *b"_______e",
    *b"_______w",
    *b"______e.",
    *b"______w.",
    *b"____east",
    *b"____west",
    *b"______e)",
    *b"______w)",
    *b"township",
    *b"___range",
];

/// Whether a text ends with one of them.
pub(crate) fn has_heading_ends(seen: &[u8]) -> bool
    ensures { result ≡ ends_with_one seen.now heading_ends }
{
    ends_with_one(seen, 0x0091_4220, &HEADING_ENDS)
}
