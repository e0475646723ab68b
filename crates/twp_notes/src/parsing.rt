ghost use Rattle.std.specs.Prelude.{◌≡◌, ◌≢◌, ◌+◌, ◌^◌, ◌≤◌, ◌<◌, ℕ, length, IfOk, IfErr, OnOk};
ghost use Rattle.std.specs.Prelude.{None, Some, IsSome, slice_set};
ghost use Rattle.csv.specs.Records.{fields_of};
ghost use Rattle.twp_notes.specs.Records.{records_left, IsBetweenRecords};
ghost use Rattle.twp_notes.specs.FieldNotes.{NOTES_MOST};
ghost use Rattle.twp_notes.specs.NotesFaults.{AnswersNotes};
ghost use Rattle.twp_notes.specs.steps.LineFaults.{IsNotTaken, IsLineRefusedAfter};
ghost use Rattle.twp_notes.specs.steps.Tables.{TakesDown, AreTaken, entry_of, AreEntries};
ghost use Rattle.twp_notes.specs.steps.Tables.{IsLeastMissing};
ghost use Rattle.std.specs.Bool.{OnTrue, OnFalse};

use crate::fault::NotesFault;
use crate::fields::{FIELDS, is_heading, line_of, returned_in, township_of};
use crate::notes::Notes;
use crate::reading::Records;
use csv::ByteRecord;
use std::alloc::Global;
use std::marker::Model;
use twp_grid::{LINES, Line};
use twp_measure::Length;

/// The number of the record after the heading and the township's record, which is the first record
/// of a line.
const FIRST_LINE: u32 = 3;

/// The notes in the bytes, which are no more than notes can have.
pub fn parse(alloc: Global, bytes: &[u8]) -> Result<Notes, NotesFault>
    requires { length bytes.now ≤ NOTES_MOST }
    ensures answer { AnswersNotes bytes.now result }
    ensures no_read { IfErr result (λ fault. fault ≢ NotesFault.Read) }
{
    // Borrowed where it is made, because moving it would copy its buffers.
    let records = &mut Records::new(alloc, bytes);
    let mut row = ByteRecord::new(alloc);
    if !records.read(&mut row)? {
        return Err(NotesFault::Empty);
    }
    if !is_heading(&row) {
        return Err(NotesFault::Heading);
    }
    if !records.read(&mut row)? {
        return Err(NotesFault::Township);
    }
    if row.len() != FIELDS {
        return Err(NotesFault::Columns(2));
    }
    let Some(township) = township_of(&row) else {
        return Err(NotesFault::Township);
    };
    let table = take_lines(records, &mut row)?;
    match table.complete() {
        Ok(lines) => Ok(Notes::new(township, lines)),
        Err(line) => Err(NotesFault::Missing(line)),
    }
}

/// Enters the remaining records, each of a line, into the table.
fn take_lines(records: &mut Records<'_>, row: &mut ByteRecord) -> Result<LineTable, NotesFault>
    requires reading { IsBetweenRecords records.old }
    requires few { length (records_left records.old) < 2 ^ 17 }
    ensures taken { IfOk result
        (AreTaken (records_left records.old) (length (records_left records.old))) }
    ensures fault { IfErr result (IsLineRefusedAfter (records_left records.old)) }
{
    let mut table = LineTable::new();
    let mut taken = 0;
    'records: while records.read(row)? {
        take_line(&mut table, row, taken + FIRST_LINE)?;
        taken += 1;
    }
    Ok(table)
}

/// Enters the record with this number into the table.
fn take_line(table: &mut LineTable, row: &ByteRecord, number: u32) -> Result<(), NotesFault>
    ensures taken { OnOk result (TakesDown (fields_of row.now) table.old table.new) }
    ensures fault { IfErr result (IsNotTaken (fields_of row.now) table.old number) }
{
    if row.len() != FIELDS {
        return Err(NotesFault::Columns(number));
    }
    let line = line_of(row, number)?;
    let Some(returned) = returned_in(row) else {
        return Err(NotesFault::Length(number));
    };
    if table.take_down(line, returned) {
        Ok(())
    } else {
        Err(NotesFault::Repeated(number))
    }
}

/// The distances returned by the records so far, by the indexes of their lines.
#[derive(Clone, Copy)]
pub struct LineTable {
    entries: [Option<Returned>; LINES],
}

impl Model for LineTable {
    ghost use Rattle.std.specs.Prelude.{List, Option, ◌≡◌, length};
    ghost use Rattle.twp_grid.specs.Lines.{LINE_COUNT};
    ghost use Rattle.twp_notes.specs.declared.parsing.Returned.{Returned};

    ghost Value = { List (Option Returned) };

    ghost view = { λ table. table.entries };

    ghost invariant = { λ table. length table.entries ≡ LINE_COUNT };

    ghost inverse = { λ entries. record { entries = entries } };
}

impl LineTable {
    /// A table without entries.
    pub fn new() -> LineTable
        ensures { (line : ℕ) → entry_of result line ≡ None }
    {
        LineTable {
            entries: [None; LINES],
        }
    }

    /// Enters the distances returned for a line, and returns whether the line had no entry before.
    /// An earlier entry stays.
    pub fn take_down(&mut self, line: Line, returned: Returned) -> bool
        ensures first { OnTrue result (entry_of self.old line ≡ None) }
        ensures taken { OnTrue result (self.new ≡ slice_set self.old line (Some returned)) }
        ensures again { OnFalse result (IsSome (entry_of self.old line)) }
        ensures kept { OnFalse result (self.new ≡ self.old) }
    {
        let index = usize::from(line.index());
        if self.entries[index].is_some() {
            return false;
        }
        self.entries[index] = Some(returned);
        true
    }

    /// The distances returned for all lines, or the smallest index of a line without any.
    pub fn complete(&self) -> Result<[Returned; LINES], u8>
        ensures lines { IfOk result (AreEntries self.now) }
        ensures missing { IfErr result (IsLeastMissing self.now) }
    {
        let mut lines = [Returned::default(); LINES];
        for index in 0..LINES as u8 {
            match self.entries[usize::from(index)] {
                Some(returned) => lines[usize::from(index)] = returned,
                None => return Err(index),
            }
        }
        Ok(lines)
    }
}

/// The distances that field notes return for a line: from its start to its quarter corner, and to
/// the section corner or closing at its end.
#[derive(Clone, Copy, Default, PartialEq, Eq)]
pub struct Returned {
    /// To the quarter corner.
    pub quarter: Length,
    /// To the section corner or the closing.
    pub corner: Length,
}
