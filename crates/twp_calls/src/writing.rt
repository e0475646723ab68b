//! Field notes that make a plat.
ghost use Rattle.std.specs.Prelude.{◌≡◌, ◌≢◌};
ghost use Rattle.twp_calls.specs.Answers.{ACCEPTED};
ghost use Rattle.twp_calls.specs.WrittenNotes.{IsWriteNotesCall};

use crate::answer::TownshipAnswer;
use crate::plat::TownshipPlat;
use crate::text::put;
use crate::verdict::{ACCEPTED, NO_MEMORY, NO_PLAT};
use std::alloc::Global;
use twp_plat::notes_text;

/// Field notes that make a plat: each half mile is 40 chains, except for the second ones of closing
/// lines.
pub fn township_write_notes(alloc: Global, plat: &TownshipPlat, text: &mut [u8]) -> TownshipAnswer
    ensures answer { IsWriteNotesCall plat.now text.old text.new result }
    ensures kept { result.verdict ≢ ACCEPTED → text.new ≡ text.old }
{
    let Some(plat) = plat.plat() else {
        return TownshipAnswer::bare(NO_PLAT);
    };
    match notes_text(alloc, &plat) {
        Ok(notes) => put(TownshipAnswer::bare(ACCEPTED), &notes, text),
        Err(_) => TownshipAnswer::bare(NO_MEMORY),
    }
}
