//! A note, piece by piece.
use crate::note::spelled::{write_numbers, write_part, write_steps};
use std::alloc::{AllocError, Global};

/// A piece of a note.
#[derive(Clone, Copy)]
pub(crate) enum NotePiece<'a> {
    /// These words.
    Words(&'a str),
    /// A number.
    Number(u16),
    /// The numbers of a list, as they are usually written.
    Numbers(&'a [u8]),
    /// The steps of a part, as they are usually written.
    Steps(&'a [u8]),
    /// The same, with `of`.
    Part(&'a [u8]),
    /// The steps of several texts.
    Row(&'a [&'a [u8]]),
}

/// Appends pieces of a note.
pub(crate) fn say(pieces: &[NotePiece<'_>], out: &mut String) -> Result<(), AllocError> {
    for piece in pieces {
        match *piece {
            NotePiece::Words(words) => out.push_str(words)?,
            NotePiece::Number(number) => write!(out, "{number}")?,
            NotePiece::Numbers(list) => write_numbers(list, out)?,
            NotePiece::Steps(part) => write_steps(part, out)?,
            NotePiece::Part(part) => write_part(part, out)?,
            NotePiece::Row(parts) => write_row(parts, out)?,
        }
    }
    Ok(())
}

/// Pieces of a note as a text.
pub(crate) fn text_of(alloc: Global, pieces: &[NotePiece<'_>]) -> Result<String, AllocError> {
    let mut text = String::new(alloc);
    say(pieces, &mut text)?;
    Ok(text)
}

/// Appends the steps of some texts in turn.
fn write_row(parts: &[&[u8]], out: &mut String) -> Result<(), AllocError> {
    for part in parts {
        write_steps(part, out)?;
    }
    Ok(())
}
