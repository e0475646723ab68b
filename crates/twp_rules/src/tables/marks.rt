//! The tables of the rules for marks, and for white space within a part.
ghost use Rattle.std.specs.Prelude.{◌≡◌};
ghost use Rattle.twp_rules.specs.Rules.{is_among};
ghost use Rattle.twp_rules.specs.Tables.{ampersands, commas, dashes, joints, marks, more_marks, semicolons};

use crate::rows::is_among;
use crate::same::is_entry;

/// Whether this is a row of the table `commas` of the specification: what it looks at, and what it writes.
pub(crate) fn is_in_commas(seen: &[u8], written: &[u8]) -> bool
    ensures { result ≡ is_among seen.now written.now commas }
{
    is_entry(seen, b"", written, b", ")
        || is_entry(seen, b"", written, b",")
        || is_entry(seen, b";", written, b",")
        || is_entry(seen, b":", written, b",")
        || is_entry(seen, b".", written, b",")
        || is_entry(seen, b"&", written, b",")
        || is_entry(seen, b"-", written, b",")
        || is_entry(seen, b"\xE2\x80\x93", written, b",")
        || is_entry(seen, b"\xE2\x80\x94", written, b",")
        || is_entry(seen, b"|", written, b",")
        || is_entry(seen, b"+", written, b",")
        || is_entry(seen, b"plus", written, b",")
}

/// The table `semicolons` of the specification.
static SEMICOLONS: [[u8; 3]; 10] = [
    *b"=; ", *b"=;_", *b",=;", *b".=;", *b"&=;", *b"-=;", *b":=;", *b"|=;", *b"+=;", *b"/=;",
];

/// Whether this is a row of it: what it looks at, and what it writes.
pub(crate) fn is_in_semicolons(seen: &[u8], written: &[u8]) -> bool
    ensures { result ≡ is_among seen.now written.now semicolons }
{
    is_among(
        seen,
        written,
        0x3400_f840,
        0x2000_0000,
        0x2000_0000,
        &SEMICOLONS,
    )
}

/// The table `dashes` of the specification.
static DASHES: [[u8; 10]; 3] = [
    *b"-= thru __",
    *b"\xE2\x80\x93= thru ",
    *b"\xE2\x80\x94= thru ",
];

/// Whether this is a row of it: what it looks at, and what it writes.
pub(crate) fn is_in_dashes(seen: &[u8], written: &[u8]) -> bool
    ensures { result ≡ is_among seen.now written.now dashes }
{
    is_among(
        seen,
        written,
        0x0000_2004,
        0x2000_0001,
        0x2018_0000,
        &DASHES,
    )
}

/// The table `ampersands` of the specification.
static AMPERSANDS: [[u8; 7]; 2] = [*b"&= and ", *b"&=and__"];

/// Whether this is a row of it: what it looks at, and what it writes.
pub(crate) fn is_in_ampersands(seen: &[u8], written: &[u8]) -> bool
    ensures { result ≡ is_among seen.now written.now ampersands }
{
    is_among(
        seen,
        written,
        0x0000_0040,
        0x2000_0000,
        0x2000_0000,
        &AMPERSANDS,
    )
}

/// Whether this is a row of the table `marks` of the specification: what it looks at, and what it writes.
pub(crate) fn is_in_marks(seen: &[u8], written: &[u8]) -> bool
    ensures { result ≡ is_among seen.now written.now marks }
{
    is_entry(seen, b",", written, b"")
        || is_entry(seen, b";", written, b"")
        || is_entry(seen, b":", written, b"")
        || is_entry(seen, b".", written, b"")
        || is_entry(seen, b"-", written, b"")
        || is_entry(seen, b"\xE2\x80\x93", written, b"")
        || is_entry(seen, b"\xE2\x80\x94", written, b"")
        || is_entry(seen, b"&", written, b"")
        || is_entry(seen, b"\"", written, b"")
        || is_entry(seen, b"\xE2\x80\x9C", written, b"")
        || is_entry(seen, b"\xE2\x80\x9D", written, b"")
        || is_entry(seen, b"\\", written, b"")
        || is_entry(seen, b"#", written, b"")
        || is_entry(seen, b"=", written, b"")
        || is_entry(seen, b"{", written, b"")
        || is_entry(seen, b"}", written, b"")
}

/// The table `more_marks` of the specification.
static MORE_MARKS: [[u8; 4]; 7] = [
    *b"(=__",
    *b")=__",
    *b"|=__",
    *b"+=__",
    *b"/=__",
    *b"*=__",
    *b"\xE2\x80\xA2=",
];

/// Whether this is a row of it: what it looks at, and what it writes.
pub(crate) fn is_in_more_marks(seen: &[u8], written: &[u8]) -> bool
    ensures { result ≡ is_among seen.now written.now more_marks }
{
    is_among(
        seen,
        written,
        0x1000_8f04,
        0x2000_0001,
        0x2000_0004,
        &MORE_MARKS,
    )
}

/// Whether this is a row of the table `joints` of the specification: what it looks at, and what it writes.
pub(crate) fn is_in_joints(seen: &[u8], written: &[u8]) -> bool
    ensures { result ≡ is_among seen.now written.now joints }
{
    is_entry(seen, b" ", written, b"")
        || is_entry(seen, b"\t", written, b"")
        || is_entry(seen, b"\n", written, b"")
        || is_entry(seen, b"\r", written, b"")
        || is_entry(seen, b".", written, b"")
        || is_entry(seen, b"-", written, b"")
}
