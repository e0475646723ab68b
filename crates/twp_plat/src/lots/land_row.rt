//! One record of a lot table with land.
ghost use Rattle.std.specs.Prelude.{◌≡◌, ◌≤◌, length, OnOk, IfErr};
ghost use Rattle.csv.specs.Records.{fields_of};
ghost use Rattle.twp_notes.specs.Records.{field};
ghost use Rattle.twp_plat.specs.LandRecords.{LAND_FIELDS, IsForLot};
ghost use Rattle.twp_plat.specs.steps.LandPaints.{IsLandPainted};
ghost use Rattle.twp_plat.specs.steps.LandEntries.{EntersLand, IsLandNotEntered, IsPartsFault};

use crate::lots::fault::LotsFault;
use crate::lots::land_entries::LotEntries;
use crate::lots::land_record::{LAND_FIELDS, NO_LAND, land_of};
use crate::lots::land_text::{LandFault, paint_land};
use crate::lots::record::hundredths_of;
use csv::ByteRecord;
use std::alloc::Global;
use twp_grid::Section;
use twp_land::LotMarks;
use twp_notes::field;

/// Enters the record with this number.
pub(crate) fn enter_row(
    alloc: Global,
    marks: &mut LotMarks,
    lots: &mut LotEntries,
    row: &ByteRecord,
    number: u32,
) -> Result<(), LotsFault>
    ensures entered { OnOk result (EntersLand (fields_of row.now) number
        marks.old.sections marks.new.sections lots.old lots.new) }
    ensures fault { IfErr result
        (IsLandNotEntered (fields_of row.now) number marks.old.sections lots.old) }
{
    if row.len() != LAND_FIELDS {
        return Err(LotsFault::Columns(number));
    }
    let Some(named) = land_of(row) else {
        return Err(LotsFault::NoLot(number));
    };
    if named.mark == NO_LAND {
        return enter_parts(alloc, marks, named.section, named.mark, row, number);
    }
    enter_lot(alloc, marks, lots, named.section, named.mark, row, number)
}

/// Enters the record of a lot with this number.
fn enter_lot(
    alloc: Global,
    marks: &mut LotMarks,
    lots: &mut LotEntries,
    section: Section,
    lot: u8,
    row: &ByteRecord,
    number: u32,
) -> Result<(), LotsFault>
    requires columns { length (fields_of row.now) ≡ LAND_FIELDS }
    requires lot { IsForLot (fields_of row.now) section lot }
    ensures entered { OnOk result (EntersLand (fields_of row.now) number
        marks.old.sections marks.new.sections lots.old lots.new) }
    ensures fault { IfErr result
        (IsLandNotEntered (fields_of row.now) number marks.old.sections lots.old) }
{
    let Some(hundredths) = hundredths_of(field(row, 2)) else {
        return Err(LotsFault::Acres(number));
    };
    if lots.figure(section, lot) != 0 {
        return Err(LotsFault::Repeated(number));
    }
    if let Err(fault) = enter_parts(alloc, marks, section, lot, row, number) {
        return Err(fault);
    }
    if lots.add(section, lot, hundredths, number) {
        Ok(())
    } else {
        Err(LotsFault::TooMany(number))
    }
}

/// Paints the parts of the record with this number.
fn enter_parts(
    alloc: Global,
    marks: &mut LotMarks,
    section: Section,
    mark: u8,
    row: &ByteRecord,
    number: u32,
) -> Result<(), LotsFault>
    requires columns { length (fields_of row.now) ≡ LAND_FIELDS }
    requires mark { 1 ≤ mark }
    ensures painted { OnOk result (IsLandPainted section (field (fields_of row.now) 3)
        mark marks.old.sections marks.new.sections) }
    ensures fault { IfErr result (IsPartsFault (field (fields_of row.now) 3) section number
        marks.old.sections) }
{
    match paint_land(alloc, marks, section, mark, field(row, 3)) {
        Ok(()) => Ok(()),
        Err(LandFault::NoParts) => Err(LotsFault::Land(number)),
        Err(LandFault::TooFine) => Err(LotsFault::TooFine(number)),
        Err(LandFault::Shared) => Err(LotsFault::Shared(number)),
        Err(LandFault::Memory) => Err(LotsFault::Memory),
    }
}
