//! Figures of acreage, texts without digits, and white space before a text.
ghost use Rattle.std.specs.Prelude.{◌≡◌, ◌≤◌, drop, length};
ghost use Rattle.twp_grammar.specs.Tokens.{is_white};
ghost use Rattle.twp_rules.specs.Rules.{has_no_digit, is_figure, is_figure_of_acres, is_of_figure};
ghost use Rattle.twp_rules.specs.Edges.{without_white};

use crate::same::ends_with;

/// Whether a text has only digits, commas, points, and white space.
pub(crate) fn is_figure(seen: &[u8]) -> bool
    ensures { result ≡ is_figure seen.now }
{
    for byte in seen {
        if !is_of_figure(*byte) {
            return false;
        }
    }
    true
}

/// Whether a text is a figure, and the letter for acres.
pub(crate) fn is_figure_of_acres(seen: &[u8]) -> bool
    ensures { result ≡ is_figure_of_acres seen.now }
{
    if ends_with(seen, b"a") {
        let (figure, _) = seen.split_at(seen.len() - 1);
        return is_figure(figure);
    }
    if ends_with(seen, b"a.") {
        let (figure, _) = seen.split_at(seen.len() - 2);
        return is_figure(figure);
    }
    false
}

/// Whether a byte is a digit, a comma, a point, or white space.
fn is_of_figure(byte: u8) -> bool
    ensures { result ≡ is_of_figure byte }
{
    byte.is_ascii_digit() || byte == b',' || byte == b'.' || byte == b' ' || byte == b'\t'
}

/// Whether a text has no digit.
pub(crate) fn has_no_digit(seen: &[u8]) -> bool
    ensures { result ≡ has_no_digit seen.now }
{
    for byte in seen {
        if byte.is_ascii_digit() {
            return false;
        }
    }
    true
}

/// The text without the white space before it.
pub(crate) fn without_white(seen: &[u8]) -> &[u8]
    ensures { result.now ≡ without_white seen.now }
{
    for index in 0..seen.len() {
        if !is_white(seen[index]) {
            return from(seen, index);
        }
    }
    from(seen, seen.len())
}

/// Whether a byte is white space.
pub(crate) fn is_white(byte: u8) -> bool
    ensures { result ≡ is_white byte }
{
    byte == b' ' || byte == b'\t' || byte == b'\n' || byte == b'\r'
}

/// The bytes of a text from a place on.
pub(crate) fn from(seen: &[u8], at: usize) -> &[u8]
    requires { at ≤ length seen.now }
    ensures { result.now ≡ drop at seen.now }
{
    let (_, rest) = seen.split_at(at);
    rest
}
