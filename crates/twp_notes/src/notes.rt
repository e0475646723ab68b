ghost use Rattle.std.specs.Prelude.{◌≡◌, ◌≢◌, ◌+◌, ◌↔◌, ℕ, List, Some, true, false};
ghost use Rattle.std.specs.Prelude.{OnOk, OnErr, IsErrOf};
ghost use Rattle.twp_grid.specs.Devices.{Tells, TakesAtMost};
ghost use Rattle.twp_notes.specs.FieldNotes.{FieldNotes, NOTES_MOST, returned_of};
ghost use Rattle.twp_notes.specs.NotesFaults.{AnswersNotes};
ghost use Rattle.twp_notes.specs.NotesTexts.{AppendsNotes};
ghost use Rattle.twp_grid.specs.Devices.{TakesFirst};

use crate::fault::{MOST_BYTES, NotesFault};
use crate::parsing::{Returned, parse};
use crate::reading::read_whole;
use crate::writing::write_notes;
use std::alloc::{AllocError, Global};
use std::marker::Model;
use twp_grid::{LINES, Line, Source, Township};

/// The field notes of a township: the distances returned for each of its 84 lines.
#[derive(Clone, Drop, PartialEq, Eq)]
pub struct Notes {
    township: Township,
    lines: [Returned; LINES],
}

impl Model for Notes {
    ghost use Rattle.std.specs.Prelude.{◌≡◌, length};
    ghost use Rattle.twp_grid.specs.Lines.{LINE_COUNT};
    ghost use Rattle.twp_notes.specs.FieldNotes.{FieldNotes};

    ghost Value = { FieldNotes };

    ghost view = { λ notes. record { township = notes.township; lines = notes.lines } };

    ghost invariant = { λ notes. length notes.lines ≡ LINE_COUNT };

    ghost inverse = { λ notes. record { township = notes.township; lines = notes.lines } };
}

impl Notes {
    /// Reads the notes from a source, to its end or to one byte more than notes can have, before it
    /// refuses them for any reason. The result is the first fault: too many bytes come first; next
    /// the fault of the first record that has one, with the smallest number if that record has
    /// several; and last the missing line with the smallest index. `Read` is the result exactly if
    /// the source failed in this call.
    pub fn read<R: Source>(alloc: Global, source: &mut R) -> Result<Notes, NotesFault>
        requires { R.has_failed source.old ≡ false }
        ensures failed { IsErrOf result NotesFault.Read ↔ (R.has_failed source.new ≡ true) }
        ensures most { TakesAtMost (R.remaining source.old)
            (R.remaining source.new) (NOTES_MOST + 1) }
        ensures exact { R.has_failed source.new ≡ false → result ≢ Err NotesFault.Memory
            → TakesFirst (R.remaining source.old) (R.remaining source.new) (NOTES_MOST + 1) }
        ensures answer { (bytes : List ℕ)
            × Tells (R.remaining source.old) bytes × AnswersNotes bytes result }
        ensures told { (bytes : List ℕ)
            → R.remaining source.old ≡ Some bytes → AnswersNotes bytes result }
    {
        match read_whole(alloc, source, MOST_BYTES as usize)? {
            Some(bytes) => parse(alloc, bytes.as_slice()),
            None => Err(NotesFault::TooLarge),
        }
    }

    /// The notes of a township, with the distances returned for each line, by index.
    pub fn new(township: Township, lines: [Returned; LINES]) -> Notes
        ensures { result ≡ record { township = township; lines = lines } }
    {
        Notes { township, lines }
    }

    /// Appends the text of the notes: the heading, the township, and the lines by ascending index,
    /// each with the section on its east or its north first (this project's order). If memory runs
    /// out, the vector is unchanged.
    pub fn write(&self, out: &mut Vec<u8>) -> Result<(), AllocError>
        ensures ok { OnOk result (AppendsNotes self.now out.old.items out.new.items) }
        ensures err { OnErr result (out.new.items ≡ out.old.items) }
    {
        let written = out.len();
        let outcome = write_notes(self, out);
        if outcome.is_err() {
            out.truncate(written);
        }
        outcome
    }

    /// The distances returned for a line.
    pub fn line(&self, line: Line) -> Returned
        ensures { result ≡ returned_of self.now line }
    {
        self.lines[usize::from(line.index())]
    }

    /// The township that the notes are of.
    pub fn township(&self) -> Township
        ensures { result ≡ self.now.township }
    {
        self.township
    }
}
