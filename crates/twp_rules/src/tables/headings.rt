//! The tables of the rules for townships, ranges, sections, and lots, and for their numbers.
ghost use Rattle.std.specs.Prelude.{◌≡◌};
ghost use Rattle.twp_rules.specs.Rules.{is_among};
ghost use Rattle.twp_rules.specs.Tables.{fraction_digits, heading_marks, heading_words, headings, lot_marks};
ghost use Rattle.twp_rules.specs.Tables.{lot_words, more_numerals, numerals, section_words};
ghost use Rattle.twp_rules.specs.Tables.{worn_lot_words, worn_section_words, zeros};

use crate::rows::is_among;
use crate::same::is_entry;

/// Whether this is a row of the table `headings` of the specification: what it looks at, and what it writes.
pub(crate) fn is_in_headings(seen: &[u8], written: &[u8]) -> bool
    ensures { result ≡ is_among seen.now written.now headings }
{
    is_entry(seen, b"", written, b"T. ")
        || is_entry(seen, b"", written, b" R. ")
        || is_entry(seen, b"", written, b"R. ")
        || is_entry(seen, b"", written, b" ")
        || is_entry(seen, b"", written, b" N., R. ")
        || is_entry(seen, b"", written, b" S., R. ")
        || is_entry(seen, b"", written, b" E., ")
        || is_entry(seen, b"", written, b" W., ")
}

/// The table `heading_words` of the specification.
static HEADING_WORDS: [[u8; 14]; 32] = [
    *b"township=T.___",
    *b"twp=T.________",
    *b"tp=T._________",
    *b"twsp=T._______",
    *b"range=R.______",
    *b"rng=R.________",
    *b"rge=R.________",
    *b"rg=R._________",
    *b"in=___________",
    *b"of=___________",
    *b"0sn=, sec. ___",
    *b"a=____________",
    *b"numbered=_____",
    *b"aliquot part:=",
    *b"aliquot part=_",
    *b"twn=T.________",
    *b"no.=__________",
    *b"townsbip=T.___",
    *b"townsliip=T.__",
    *b"towuship=T.___",
    *b"townahip=T.___",
    *b"townshlp=T.___",
    *b"townehip=T.___",
    *b"tewnship=T.___",
    *b"twonship=T.___",
    *b"twnship=T.____",
    *b"rauge=R.______",
    *b"rangc=R.______",
    *b"ronge=R.______",
    *b"situated=_____",
    *b"situate=______",
    *b"located=______",
];

/// Whether this is a row of it: what it looks at, and what it writes.
pub(crate) fn is_in_heading_words(seen: &[u8], written: &[u8]) -> bool
    ensures { result ≡ is_among seen.now written.now heading_words }
{
    is_among(
        seen,
        written,
        0x001d_d202,
        0x20a9_d2e2,
        0x20b9_e2a8,
        &HEADING_WORDS,
    )
}

/// The table `heading_marks` of the specification.
static HEADING_MARKS: [[u8; 3]; 7] = [
    *b".=_", *b",=_", *b":=_", *b"-= ", *b"/= ", *b"|= ", *b";= ",
];

/// Whether this is a row of it: what it looks at, and what it writes.
pub(crate) fn is_in_heading_marks(seen: &[u8], written: &[u8]) -> bool
    ensures { result ≡ is_among seen.now written.now heading_marks }
{
    is_among(
        seen,
        written,
        0x1c00_f000,
        0x2000_0000,
        0x2000_0000,
        &HEADING_MARKS,
    )
}

/// Whether this is a row of the table `section_words` of the specification: what it looks at, and
/// what it writes.
pub(crate) fn is_in_section_words(seen: &[u8], written: &[u8]) -> bool
    ensures { result ≡ is_among seen.now written.now section_words }
{
    is_entry(seen, b"", written, b"sec. ")
        || is_entry(seen, b"", written, b"secs. ")
        || is_entry(seen, b"s", written, b"sec. ")
        || is_entry(seen, b"sect", written, b"sec")
        || is_entry(seen, b"sect", written, b"secs")
        || is_entry(seen, b"sects", written, b"secs")
        || is_entry(seen, b"sec", written, b"secs")
        || is_entry(seen, b"section", written, b"secs")
        || is_entry(seen, b",", written, b".")
        || is_entry(seen, b"\xC2\xA7", written, b"sec")
        || is_entry(seen, b"\xC2\xA7", written, b"secs")
}

/// The table `worn_section_words` of the specification.
static WORN_SECTION_WORDS: [[u8; 13]; 19] = [
    *b"scc=sec______",
    *b"sce=sec______",
    *b"seo=sec______",
    *b"see=sec______",
    *b"secton=sec___",
    *b"sectlon=sec__",
    *b"sectoin=sec__",
    *b"seciton=sec__",
    *b"sectiou=sec__",
    *b"seclion=sec__",
    *b"seotion=sec__",
    *b"sectior=sec__",
    *b"sec-\ntion=sec",
    *b"scction=sec__",
    *b"seetion=sec__",
    *b"secfion=sec__",
    *b"sectian=sec__",
    *b"sectien=sec__",
    *b"soction=sec__",
];

/// Whether this is a row of it: what it looks at, and what it writes.
pub(crate) fn is_in_worn_section_words(seen: &[u8], written: &[u8]) -> bool
    ensures { result ≡ is_among seen.now written.now worn_section_words }
{
    is_among(
        seen,
        written,
        0x0008_0000,
        0x0000_8028,
        0x0000_8028,
        &WORN_SECTION_WORDS,
    )
}

/// The table `lot_words` of the specification.
static LOT_WORDS: [[u8; 11]; 15] = [
    *b"l=lot _____",
    *b"lt=lot ____",
    *b"lts=lots __",
    *b"government=",
    *b"govt=______",
    *b"gov=_______",
    *b"t=_________",
    *b"u=_________",
    *b"s=_________",
    *b"the=_______",
    *b"numbered=__",
    *b"no=________",
    *b"nos=_______",
    *b"gl=lot ____",
    *b"trct=______",
];

/// Whether this is a row of it: what it looks at, and what it writes.
pub(crate) fn is_in_lot_words(seen: &[u8], written: &[u8]) -> bool
    ensures { result ≡ is_among seen.now written.now lot_words }
{
    is_among(
        seen,
        written,
        0x0038_5080,
        0x2034_9100,
        0x2048_2028,
        &LOT_WORDS,
    )
}

/// The table `worn_lot_words` of the specification.
static WORN_LOT_WORDS: [[u8; 9]; 2] = [*b"iot=lot__", *b"iots=lots"];

/// Whether this is a row of it: what it looks at, and what it writes.
pub(crate) fn is_in_worn_lot_words(seen: &[u8], written: &[u8]) -> bool
    ensures { result ≡ is_among seen.now written.now worn_lot_words }
{
    is_among(
        seen,
        written,
        0x0000_0200,
        0x0000_8000,
        0x0010_0000,
        &WORN_LOT_WORDS,
    )
}

/// The table `lot_marks` of the specification.
static LOT_MARKS: [[u8; 4]; 5] = [*b"'=__", *b"\xE2\x80\x99=", *b".=__", *b"#=__", *b":=__"];

/// Whether this is a row of it: what it looks at, and what it writes.
pub(crate) fn is_in_lot_marks(seen: &[u8], written: &[u8]) -> bool
    ensures { result ≡ is_among seen.now written.now lot_marks }
{
    is_among(
        seen,
        written,
        0x0400_408c,
        0x2000_0001,
        0x2200_0000,
        &LOT_MARKS,
    )
}

/// The table `numerals` of the specification.
static NUMERALS: [[u8; 9]; 12] = [
    *b"one=1____",
    *b"two=2____",
    *b"three=3__",
    *b"four=4___",
    *b"five=5___",
    *b"six=6____",
    *b"seven=7__",
    *b"eight=8__",
    *b"nine=9___",
    *b"ten=10___",
    *b"eleven=11",
    *b"twelve=12",
];

/// Whether this is a row of it: what it looks at, and what it writes.
pub(crate) fn is_in_numerals(seen: &[u8], written: &[u8]) -> bool
    ensures { result ≡ is_among seen.now written.now numerals }
{
    is_among(
        seen,
        written,
        0x0018_c060,
        0x0080_d320,
        0x0164_c0a0,
        &NUMERALS,
    )
}

/// The table `more_numerals` of the specification.
static MORE_NUMERALS: [[u8; 12]; 13] = [
    *b"thirteen=13_",
    *b"fourteen=14_",
    *b"fifteen=15__",
    *b"sixteen=16__",
    *b"seventeen=17",
    *b"eighteen=18_",
    *b"nineteen=19_",
    *b"twenty=20___",
    *b"thirty=30___",
    *b"twenty-=2___",
    *b"thirty-=3___",
    *b"twenty =2___",
    *b"thirty =3___",
];

/// Whether this is a row of it: what it looks at, and what it writes.
pub(crate) fn is_in_more_numerals(seen: &[u8], written: &[u8]) -> bool
    ensures { result ≡ is_among seen.now written.now more_numerals }
{
    is_among(
        seen,
        written,
        0x0018_4060,
        0x0080_8320,
        0x0160_42e0,
        &MORE_NUMERALS,
    )
}

/// The table `zeros` of the specification.
static ZEROS: [[u8; 4]; 3] = [*b"0=__", *b"00=_", *b"000="];

/// Whether this is a row of it: what it looks at, and what it writes.
pub(crate) fn is_in_zeros(seen: &[u8], written: &[u8]) -> bool
    ensures { result ≡ is_among seen.now written.now zeros }
{
    is_among(seen, written, 0x0001_0000, 0x2001_0000, 0x2001_0000, &ZEROS)
}

/// The table `fraction_digits` of the specification.
static FRACTION_DIGITS: [[u8; 2]; 1] = [*b"0="];

/// Whether this is a row of it: what it looks at, and what it writes.
pub(crate) fn is_in_fraction_digits(seen: &[u8], written: &[u8]) -> bool
    ensures { result ≡ is_among seen.now written.now fraction_digits }
{
    is_among(
        seen,
        written,
        0x0001_0000,
        0x2000_0000,
        0x2000_0000,
        &FRACTION_DIGITS,
    )
}
