//! Another way to read a place of a text, and the text that is read so.
ghost use Rattle.std.specs.Prelude.{◌≡◌, ◌++◌, IfOk, IfSome, drop, slice_range, take};
ghost use Rattle.twp_suggest.specs.Ways.{text_by, text_with};

use std::alloc::{AllocError, Global};

/// Another way to read a place of the text that changes make.
#[derive(Clone, Copy, PartialEq, Eq)]
pub enum Way {
    /// With a comma at a place: one part is two.
    Apart(usize),
    /// Without the bytes from one place up to another: two parts are one, or some steps are of one
    /// part alone.
    LeftOut(usize, usize),
    /// With the bytes from one place up to another again, at a first place: some steps are of two parts.
    Again(usize, usize, usize),
}

/// A text in which a place is read in its other way. None if it has no such place.
pub(crate) fn text_by(alloc: Global, made: &[u8], way: Way) -> Result<Option<Vec<u8>>, AllocError>
    ensures { IfOk result (λ it. IfSome it (λ text. text.items ≡ text_by made.now way)) }
{
    match way {
        Way::Apart(at) => text_with(alloc, made, at, b", ", at),
        Way::LeftOut(from, to) => text_with(alloc, made, from, b"", to),
        Way::Again(at, first, end) => {
            let Some(copied) = between(made, first, end) else {
                return Ok(None);
            };
            text_with(alloc, made, at, copied, at)
        }
    }
}

/// A text with something else written instead of its bytes from one place up to another.
fn text_with(
    alloc: Global,
    made: &[u8],
    from: usize,
    written: &[u8],
    to: usize,
) -> Result<Option<Vec<u8>>, AllocError>
    ensures { IfOk result (λ it. IfSome it (λ text.
        text.items ≡ text_with made.now from written.now to)) }
{
    if from > made.len() || to > made.len() {
        return Ok(None);
    }
    let (before, _) = made.split_at(from);
    let (_, after) = made.split_at(to);
    let mut text = Vec::with_capacity(alloc, made.len())?;
    text.extend_from_slice(before)?;
    text.extend_from_slice(written)?;
    text.extend_from_slice(after)?;
    Ok(Some(text))
}

/// The bytes of a text from one place up to another. None if it has no such places.
pub(crate) fn between(text: &[u8], from: usize, to: usize) -> Option<&[u8]>
    ensures { IfSome result (λ bytes. bytes.now ≡ slice_range text.now from to) }
{
    if from > to || to > text.len() {
        return None;
    }
    Some(&text[from..to])
}
