//! The record of a plat: its township, and the date of its approval.
ghost use Rattle.std.specs.Prelude.{◌≡◌, ◌⊎◌, ◌+◌, ◌↔◌, IsTrue, length, IfOk, IfErr};
ghost use Rattle.csv.specs.Records.{fields_of};
ghost use Rattle.twp_grid.specs.Finding.{Finds};
ghost use Rattle.twp_notes.specs.FieldNotes.{FIELDS};
ghost use Rattle.twp_plat.specs.LotRecords.{IsDateIn, IsPlatRecord};
ghost use Rattle.twp_plat.specs.steps.LotReading.{IsPlatFault};

use crate::lots::date::date_of;
use crate::lots::fault::LotsFault;
use csv::ByteRecord;
use twp_grid::Township;
use twp_notes::{FIELDS, field, township_of};

/// The number of fields of a township with a date.
const DATED_FIELDS: usize = FIELDS + 1;

/// The township of a plat, and the date of its approval.
#[derive(Clone, Copy)]
pub struct PlatRecord {
    pub(crate) township: Township,
    pub(crate) date: u32,
}

/// The plat whose record this is. The record has no meaning any more.
pub(crate) fn plat_of(row: &mut ByteRecord) -> Result<PlatRecord, LotsFault>
    ensures plat { IfOk result (λ plat. IsPlatRecord (fields_of row.old) plat.township plat.date) }
    ensures fault { IfErr result (IsPlatFault (fields_of row.old)) }
{
    if !has_plat_fields(row) {
        return Err(LotsFault::Columns(2));
    }
    let date = date_in(row);
    row.truncate(FIELDS);
    let Some(township) = township_of(row) else {
        return Err(LotsFault::Township);
    };
    let Some(date) = date else {
        return Err(LotsFault::Date);
    };
    Ok(PlatRecord { township, date })
}

/// Whether a record has the number of fields of a plat's.
fn has_plat_fields(row: &ByteRecord) -> bool
    ensures { IsTrue result
        ↔ ((length (fields_of row.now) ≡ FIELDS) ⊎ (length (fields_of row.now) ≡ FIELDS + 1)) }
{
    row.len() == FIELDS || row.len() == DATED_FIELDS
}

/// The date in the record of a plat: 0 if the record has none, and `None` if it is no date.
fn date_in(row: &ByteRecord) -> Option<u32>
    requires { (length (fields_of row.now) ≡ FIELDS) ⊎ (length (fields_of row.now) ≡ FIELDS + 1) }
    ensures { Finds result (IsDateIn (fields_of row.now)) }
{
    if row.len() == FIELDS {
        return Some(0);
    }
    date_of(field(row, FIELDS))
}
