ghost use Rattle.std.specs.Prelude.{◌≡◌, ◌≢◌, ◌+◌, ◌^◌, ◌≤◌, ◌<◌, ℕ, length, IfOk, IfErr, OnOk};
ghost use Rattle.csv.specs.Records.{fields_of};
ghost use Rattle.twp_notes.specs.Records.{records_left, IsBetweenRecords};
ghost use Rattle.twp_plat.specs.LotRecords.{LOTS_TEXT_MOST};
ghost use Rattle.twp_plat.specs.LotsFaults.{AnswersLots};
ghost use Rattle.twp_plat.specs.steps.LotEntries.{Enters, IsNotEntered, AreEntered};
ghost use Rattle.twp_plat.specs.steps.LotEntries.{IsLotRefusedAfter};

use crate::lots::fault::LotsFault;
use crate::lots::heading::{Heading, heading_of};
use crate::lots::land_parsing::land_table;
use crate::lots::plat_record::plat_of;
use crate::lots::record::{LOT_FIELDS, hundredths_of, lot_of};
use crate::lots::returned::{LOTS, ReturnedLots};
use crate::lots::table::{LotTable, lot_index};
use csv::ByteRecord;
use std::alloc::Global;
use twp_notes::{Records, field};

/// The number of the record after the heading and the township's record, which is the first record
/// of a lot.
const FIRST_LOT: u32 = 3;

/// The lot table in the bytes, which are no more than a lot table can have.
pub fn parse(alloc: Global, bytes: &[u8]) -> Result<LotTable, LotsFault>
    requires { length bytes.now ≤ LOTS_TEXT_MOST }
    ensures answer { AnswersLots bytes.now result }
    ensures no_read { IfErr result (λ fault. fault ≢ LotsFault.Read) }
{
    // Borrowed where it is made, because moving it would copy its buffers.
    let records = &mut Records::new(alloc, bytes);
    let mut row = ByteRecord::new(alloc);
    if !records.read(&mut row)? {
        return Err(LotsFault::Empty);
    }
    let Some(heading) = heading_of(&row) else {
        return Err(LotsFault::Heading);
    };
    if !records.read(&mut row)? {
        return Err(LotsFault::Township);
    }
    let plat = plat_of(&mut row)?;
    // The table is made where it is returned, because moving it would copy its lots.
    match heading {
        Heading::Standard => {
            let figures = enter_lots(records, &mut row)?;
            Ok(LotTable {
                township: plat.township,
                date: plat.date,
                lots: ReturnedLots::standard(&figures),
            })
        }
        Heading::Land => land_table(alloc, plat, records, &mut row),
    }
}

/// Enters the remaining records, each of a lot.
fn enter_lots(records: &mut Records<'_>, row: &mut ByteRecord) -> Result<[u32; LOTS], LotsFault>
    requires reading { IsBetweenRecords records.old }
    requires few { length (records_left records.old) < 2 ^ 17 }
    ensures entered { IfOk result
        (AreEntered (records_left records.old) (length (records_left records.old))) }
    ensures fault { IfErr result (IsLotRefusedAfter (records_left records.old)) }
{
    let mut figures = [0; LOTS];
    let mut entered = 0;
    'records: while records.read(row)? {
        enter_lot(&mut figures, row, entered + FIRST_LOT)?;
        entered += 1;
    }
    Ok(figures)
}

/// Enters the record with this number.
fn enter_lot(figures: &mut [u32; LOTS], row: &ByteRecord, number: u32) -> Result<(), LotsFault>
    ensures entered { OnOk result (Enters (fields_of row.now) figures.old figures.new) }
    ensures fault { IfErr result (IsNotEntered (fields_of row.now) figures.old number) }
{
    if row.len() != LOT_FIELDS {
        return Err(LotsFault::Columns(number));
    }
    let Some(lot) = lot_of(row) else {
        return Err(LotsFault::NoLot(number));
    };
    let Some(hundredths) = hundredths_of(field(row, 2)) else {
        return Err(LotsFault::Acres(number));
    };
    let index = lot_index(lot.section, lot.number).unwrap();
    if figures[index] != 0 {
        return Err(LotsFault::Repeated(number));
    }
    figures[index] = hundredths;
    Ok(())
}
