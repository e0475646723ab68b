//! What is quoted of a file.
ghost use Rattle.std.specs.Prelude.{◌≡◌, ◌≤◌, ◌++◌, length, encode_utf8_all, string_bytes, OnOk};
ghost use Rattle.twp_excerpt.specs.Signs.{escaped};
ghost use Rattle.twp_diagnose.specs.Quotes.{QUOTED_MOST, quoted};

use std::alloc::AllocError;
use twp_excerpt::write_escaped;

/// The most bytes that are quoted of a field.
const QUOTED: usize = 36;

/// Appends a field between marks, safe to show and cut short, or that it is empty.
pub fn write_quoted(text: &[u8], out: &mut String) -> Result<(), AllocError>
    ensures { 1 ≤ length text.now → length text.now ≤ QUOTED_MOST
        → OnOk result (string_bytes out.new ≡ string_bytes out.old ++ quoted text.now) }
{
    if text.is_empty() {
        return out.push_str("an empty field");
    }
    out.push_str("`")?;
    write_front(text, out)?;
    out.push_str("`")
}

/// Appends a text, safe to show, or as much of it as is quoted, and dots.
fn write_front(text: &[u8], out: &mut String) -> Result<(), AllocError>
    ensures { length text.now ≤ QUOTED_MOST → OnOk result
        (string_bytes out.new ≡ string_bytes out.old ++ encode_utf8_all (escaped text.now)) }
{
    if text.len() <= QUOTED {
        return write_escaped(text, out);
    }
    write_escaped(text.get(..front(text)).unwrap_or(b""), out)?;
    out.push_str("..")
}

/// How many bytes of a long text are quoted: no character of it is cut in two.
fn front(text: &[u8]) -> usize {
    let mut front = QUOTED;
    for at in QUOTED - 3..=QUOTED {
        if !matches!(text.get(at), Some(0x80..=0xBF)) {
            front = at;
        }
    }
    front
}
