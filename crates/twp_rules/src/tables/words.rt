//! The tables of the rules for words of exceptions, and for words that mean nothing.
ghost use Rattle.std.specs.Prelude.{◌≡◌};
ghost use Rattle.twp_rules.specs.Rules.{is_among};
ghost use Rattle.twp_rules.specs.Tables.{exceptions, joining_words, little_words, more_little_words};

use crate::rows::is_among;

/// The table `exceptions` of the specification.
static EXCEPTIONS: [[u8; 18]; 15] = [
    *b"less= except _____",
    *b"except= except ___",
    *b"excepting= except ",
    *b"excluding= except ",
    *b"save= except _____",
    *b"exc= except ______",
    *b"exclusive= except ",
    *b"l&e= except ______",
    *b"minus= except ____",
    *b"but= except ______",
    *b"with= except _____",
    *b"ex= except _______",
    *b"ls= except _______",
    *b"excl= except _____",
    *b"l/e= except ______",
];

/// Whether this is a row of it: what it looks at, and what it writes.
pub(crate) fn is_in_exceptions(seen: &[u8], written: &[u8]) -> bool
    ensures { result ≡ is_among seen.now written.now exceptions }
{
    is_among(
        seen,
        written,
        0x0088_3024,
        0x0128_8262,
        0x2058_4028,
        &EXCEPTIONS,
    )
}

/// The table `little_words` of the specification.
static LITTLE_WORDS: [[u8; 12]; 11] = [
    *b"the=________",
    *b"of=_________",
    *b"in=_________",
    *b"and=________",
    *b"said=_______",
    *b"all=________",
    *b"entire=_____",
    *b"section=____",
    *b"entire=all__",
    *b"whole=all___",
    *b"entirety=all",
];

/// Whether this is a row of it: what it looks at, and what it writes.
pub(crate) fn is_in_little_words(seen: &[u8], written: &[u8]) -> bool
    ensures { result ≡ is_among seen.now written.now little_words }
{
    is_among(
        seen,
        written,
        0x0098_8222,
        0x0000_5162,
        0x2010_9238,
        &LITTLE_WORDS,
    )
}

/// The table `more_little_words` of the specification.
static MORE_LITTLE_WORDS: [[u8; 11]; 24] = [
    *b"public=____",
    *b"domain=____",
    *b"federal=___",
    *b"land=______",
    *b"lands=_____",
    *b"fractional=",
    *b"thereof=___",
    *b"except=____",
    *b"excepting=_",
    *b"for=_______",
    *b"therefrom=_",
    *b"&=_________",
    *b"fr.=_______",
    *b"frl=_______",
    *b"frl.=______",
    *b"frac.=_____",
    *b"fract=_____",
    *b"fract.=____",
    *b"fractl=____",
    *b"fractl.=___",
    *b"tbe=_______",
    *b"tlie=______",
    *b"tne=_______",
    *b"tho=_______",
];

/// Whether this is a row of it: what it looks at, and what it writes.
pub(crate) fn is_in_more_little_words(seen: &[u8], written: &[u8]) -> bool
    ensures { result ≡ is_among seen.now written.now more_little_words }
{
    is_among(
        seen,
        written,
        0x0011_1070,
        0x2124_d126,
        0x2004_f23e,
        &MORE_LITTLE_WORDS,
    )
}

/// The table `joining_words` of the specification.
static JOINING_WORDS: [[u8; 14]; 11] = [
    *b"also=_________",
    *b"together=_____",
    *b"with=_________",
    *b"not=__________",
    *b"exception=____",
    *b"inclusive=____",
    *b"incl=_________",
    *b"both=_________",
    *b"numbered=_____",
    *b"no.=__________",
    *b"everything=all",
];

/// Whether this is a row of it: what it looks at, and what it writes.
pub(crate) fn is_in_joining_words(seen: &[u8], written: &[u8]) -> bool
    ensures { result ≡ is_among seen.now written.now joining_words }
{
    is_among(
        seen,
        written,
        0x0090_4226,
        0x0160_d200,
        0x0018_60a8,
        &JOINING_WORDS,
    )
}
