//! Field notes that make a plat: each half mile is 40 chains, except for the second ones of closing lines.
ghost use Rattle.std.specs.Prelude.{◌≡◌, ◌<◌, ◌≤◌, IfOk};
ghost use Rattle.twp_plat.specs.Closing.{CLOSING_MOST};
ghost use Rattle.twp_plat.specs.PlatNotes.{AreNotesFor, IsTextFor, returned_with};

use crate::plat::{Plat, QUARTER_MILE};
use std::alloc::{AllocError, Global};
use twp_grid::LINES;
use twp_measure::{Length, digit};
use twp_notes::{Notes, Returned};

/// A half mile, in thousandths of a chain.
const HALF_MILE: u32 = 2 * QUARTER_MILE;

/// The text of notes that make a plat.
pub fn notes_text(alloc: Global, plat: &Plat) -> Result<Vec<u8>, AllocError>
    ensures { IfOk result (λ text. IsTextFor plat.now text.items) }
{
    let notes = notes_of(plat);
    let mut text = Vec::new(alloc);
    notes.write(&mut text)?;
    Ok(text)
}

/// Notes that make a plat.
fn notes_of(plat: &Plat) -> Notes
    ensures { AreNotesFor plat.now result }
{
    let quarters = plat.closing_quarters();
    let mut lines = [Returned::default(); LINES];
    for index in 0..LINES {
        lines[index] = returned_for(quarters[index]);
    }
    Notes::new(plat.township(), lines)
}

/// The distances to return for a line with this closing quarter.
fn returned_for(closing_quarter: u32) -> Returned
    requires { closing_quarter ≤ CLOSING_MOST }
    ensures { result ≡ returned_with closing_quarter }
{
    let corner = HALF_MILE + QUARTER_MILE + closing_quarter;
    Returned {
        quarter: length_of(HALF_MILE),
        corner: length_of(corner),
    }
}

/// The length of this many thousandths of a chain, which is read from a text, since nothing else
/// makes a length.
fn length_of(thousandths: u32) -> Length
    requires { thousandths < 100000 }
    ensures { result ≡ thousandths }
{
    let text = [
        digit(thousandths / 10_000),
        digit(thousandths / 1_000),
        b'.',
        digit(thousandths / 100),
        digit(thousandths / 10),
        digit(thousandths),
    ];
    Length::read(&text).unwrap()
}
