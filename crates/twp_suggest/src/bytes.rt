//! Bytes of a text, at any place and from one up to another.
ghost use Rattle.std.specs.Prelude.{◌≡◌, ◌≤◌, drop, length, slice_index, slice_range, take};
ghost use Rattle.twp_grammar.specs.Tokens.{is_white};
ghost use Rattle.twp_rules.specs.Edges.{without_white};

/// The byte at a place, or 0 if there is none.
pub(crate) fn byte_at(text: &[u8], at: usize) -> u8
    ensures { result ≡ slice_index text.now at }
{
    if at < text.len() { text[at] } else { 0 }
}

/// The bytes of a text from a place on, if there are any.
pub(crate) fn after(text: &[u8], at: usize) -> &[u8]
    ensures { result.now ≡ drop at text.now }
{
    if at > text.len() {
        return b"";
    }
    let (_, rest) = text.split_at(at);
    rest
}

/// The bytes of a text before a place, or all of them.
pub(crate) fn front(text: &[u8], at: usize) -> &[u8]
    ensures { result.now ≡ take at text.now }
{
    if at > text.len() {
        return text;
    }
    let (front, _) = text.split_at(at);
    front
}

/// The bytes of a text from one place up to another, if there are any.
pub(crate) fn between(text: &[u8], start: usize, end: usize) -> &[u8]
    ensures { result.now ≡ slice_range text.now start end }
{
    front(after(text, start), end.saturating_sub(start))
}

/// A text without the white space before it.
pub(crate) fn without_white(text: &[u8]) -> &[u8]
    ensures rest { result.now ≡ without_white text.now }
    ensures within { length result.now ≤ length text.now }
{
    for index in 0..text.len() {
        if !is_white(text[index]) {
            return after(text, index);
        }
    }
    after(text, text.len())
}

/// Whether a byte is white space.
pub(crate) fn is_white(byte: u8) -> bool
    ensures { result ≡ is_white byte }
{
    byte == b' ' || byte == b'\t' || byte == b'\n' || byte == b'\r'
}
