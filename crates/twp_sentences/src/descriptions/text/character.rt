//! Characters and bytes that are not allowed in a description.

use bstr::decode_utf8;
use std::alloc::AllocError;
use twp_excerpt::write_escaped;

/// A character by its code, and what it is called.
struct NamedCharacter {
    code: char,
    name: &'static str,
}

/// The names of characters that occur in copied descriptions.
static NAMES: &[NamedCharacter] = &[
    NamedCharacter {
        code: '\u{A0}',
        name: "no-break space",
    },
    NamedCharacter {
        code: '\u{A7}',
        name: "section sign",
    },
    NamedCharacter {
        code: '\u{AD}',
        name: "soft hyphen",
    },
    NamedCharacter {
        code: '\u{B0}',
        name: "degree sign",
    },
    NamedCharacter {
        code: '\u{BE}',
        name: "three quarters",
    },
    NamedCharacter {
        code: '\u{2007}',
        name: "figure space",
    },
    NamedCharacter {
        code: '\u{2009}',
        name: "thin space",
    },
    NamedCharacter {
        code: '\u{200B}',
        name: "zero width space",
    },
    NamedCharacter {
        code: '\u{2010}',
        name: "hyphen",
    },
    NamedCharacter {
        code: '\u{2011}',
        name: "non-breaking hyphen",
    },
    NamedCharacter {
        code: '\u{2012}',
        name: "figure dash",
    },
    NamedCharacter {
        code: '\u{2013}',
        name: "en dash",
    },
    NamedCharacter {
        code: '\u{2014}',
        name: "em dash",
    },
    NamedCharacter {
        code: '\u{2018}',
        name: "left single quotation mark",
    },
    NamedCharacter {
        code: '\u{2019}',
        name: "right single quotation mark",
    },
    NamedCharacter {
        code: '\u{201A}',
        name: "low single quotation mark",
    },
    NamedCharacter {
        code: '\u{201C}',
        name: "left quotation mark",
    },
    NamedCharacter {
        code: '\u{201D}',
        name: "right quotation mark",
    },
    NamedCharacter {
        code: '\u{201E}',
        name: "low quotation mark",
    },
    NamedCharacter {
        code: '\u{2026}',
        name: "ellipsis",
    },
    NamedCharacter {
        code: '\u{202F}',
        name: "narrow no-break space",
    },
    NamedCharacter {
        code: '\u{2044}',
        name: "fraction slash",
    },
    NamedCharacter {
        code: '\u{2153}',
        name: "one third",
    },
    NamedCharacter {
        code: '\u{2154}',
        name: "two thirds",
    },
    NamedCharacter {
        code: '\u{2212}',
        name: "minus sign",
    },
    NamedCharacter {
        code: '\u{2215}',
        name: "division slash",
    },
    NamedCharacter {
        code: '\u{3000}',
        name: "ideographic space",
    },
    NamedCharacter {
        code: '\u{FEFF}',
        name: "byte order mark",
    },
    NamedCharacter {
        code: '\u{FFFD}',
        name: "replacement character",
    },
];

/// Appends that a character, or a byte that is none, is not allowed in a description.
pub(crate) fn write_not_allowed(bytes: &[u8], out: &mut String) -> Result<(), AllocError> {
    if let b"/" = bytes {
        return out.push_str("`/` is allowed only in 1/2 and 1/4");
    }
    write_name(bytes, out)?;
    out.push_str(" is not allowed in a description")
}

/// Appends a mark of ASCII as it is, any other character by its code, and a byte by its number.
fn write_name(bytes: &[u8], out: &mut String) -> Result<(), AllocError> {
    match bytes {
        [byte] if byte.is_ascii_graphic() && *byte != b'`' => {
            out.push_str("`")?;
            write_escaped(bytes, out)?;
            out.push_str("`")
        }
        [byte] => write!(out, "byte 0x{:02X}", *byte),
        _ => match decode_utf8(bytes) {
            (Some(character), _) => write_character(character, out),
            (None, _) => out.push_str("this text"),
        },
    }
}

/// Appends the code of a character and what it is called.
fn write_character(character: char, out: &mut String) -> Result<(), AllocError> {
    write!(out, "U+{:04X}", u32::from(character))?;
    for named in NAMES {
        if named.code == character {
            return write!(out, " ({})", named.name);
        }
    }
    Ok(())
}
