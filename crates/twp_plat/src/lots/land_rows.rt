//! The records of a lot table with land, entered one after another.
ghost use Rattle.std.specs.Prelude.{◌≡◌, ◌+◌, ◌^◌, ◌<◌, ℕ, length, IfOk, IfErr, OnOk};
ghost use Rattle.twp_notes.specs.Records.{records_left, IsBetweenRecords};
ghost use Rattle.twp_plat.specs.steps.LandEntries.{AreUnmarked, AreNoEntries, AreLandEntered};
ghost use Rattle.twp_plat.specs.steps.LandEntries.{IsLandRefusedAfter};

use crate::lots::fault::LotsFault;
use crate::lots::land_entries::LotEntries;
use crate::lots::land_row::enter_row;
use csv::ByteRecord;
use std::alloc::Global;
use twp_land::LotMarks;
use twp_notes::Records;

/// The number of the record after the heading and the township's record.
const FIRST_ROW: u32 = 3;

/// Enters the remaining records, each of a lot or of land that is not there. Returns the number of
/// the last record.
pub(crate) fn enter_rows(
    alloc: Global,
    marks: &mut LotMarks,
    lots: &mut LotEntries,
    records: &mut Records<'_>,
    row: &mut ByteRecord,
) -> Result<u32, LotsFault>
    requires reading { IsBetweenRecords records.old }
    requires few { length (records_left records.old) < 2 ^ 17 }
    requires clear { AreUnmarked marks.old.sections }
    requires empty { AreNoEntries lots.old }
    ensures entered { OnOk result (AreLandEntered (records_left records.old)
        (length (records_left records.old)) marks.new.sections lots.new) }
    ensures last { IfOk result (λ last. last ≡ length (records_left records.old) + 2) }
    ensures fault { IfErr result (IsLandRefusedAfter (records_left records.old)) }
{
    let mut entered = 0;
    'records: while records.read(row)? {
        enter_row(alloc, marks, lots, row, entered + FIRST_ROW)?;
        entered += 1;
    }
    Ok(entered + FIRST_ROW - 1)
}
