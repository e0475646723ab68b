//! The lot table that records with land are.
ghost use Rattle.std.specs.Prelude.{◌≡◌, ◌^◌, ◌<◌, length, IfOk, IfErr};
ghost use Rattle.twp_notes.specs.Records.{records_left, IsBetweenRecords};
ghost use Rattle.twp_plat.specs.steps.LotReading.{AreLandLots, IsLandRefused};

use crate::lots::fault::LotsFault;
use crate::lots::land_entries::LotEntries;
use crate::lots::land_rows::enter_rows;
use crate::lots::land_unfilled::first_unfilled;
use crate::lots::plat_record::PlatRecord;
use crate::lots::returned::ReturnedLots;
use crate::lots::table::LotTable;
use csv::ByteRecord;
use std::alloc::Global;
use twp_land::{LotMarks, PlatLots, map_of_marks};
use twp_notes::Records;

/// The table of a plat with the lots in the records after the heading and the plat's record.
pub(crate) fn land_table(
    alloc: Global,
    plat: PlatRecord,
    records: &mut Records<'_>,
    row: &mut ByteRecord,
) -> Result<LotTable, LotsFault>
    requires reading { IsBetweenRecords records.old }
    requires few { length (records_left records.old) < 2 ^ 17 }
    ensures township { IfOk result (λ table. table.township ≡ plat.township) }
    ensures date { IfOk result (λ table. table.date ≡ plat.date) }
    ensures lots { IfOk result (λ table. AreLandLots (records_left records.old) table.lots) }
    ensures fault { IfErr result (IsLandRefused (records_left records.old)) }
{
    let mut marks = LotMarks::none();
    let mut lots = LotEntries::none();
    let last = enter_rows(alloc, &mut marks, &mut lots, records, row)?;
    if let Some(number) = first_unfilled(&marks, &lots) {
        return Err(LotsFault::Unfilled(number));
    }
    let Some(map) = map_of_marks(&marks) else {
        return Err(LotsFault::Divided(last));
    };
    Ok(LotTable {
        township: plat.township,
        date: plat.date,
        lots: ReturnedLots::of(&lots.figures, PlatLots::mapped(map)).unwrap(),
    })
}
