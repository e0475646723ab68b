//! The fields of a lot table's records with land.
ghost use Rattle.std.specs.Prelude.{◌≡◌, ◌↔◌, length, IsTrue, MatchOption};
ghost use Rattle.csv.specs.Records.{fields_of};
ghost use Rattle.twp_plat.specs.LandRecords.{LAND_FIELDS, land_heading};
ghost use Rattle.twp_plat.specs.LandFaults.{IsForNothing};
ghost use Rattle.twp_plat.specs.steps.LandEntries.{IsForMark};

use csv::ByteRecord;
use twp_grid::Section;
use twp_notes::{field, is_exactly, section_of, short_number};

/// The number of fields in a record with land.
pub const LAND_FIELDS: usize = 4;

/// The mark of land that is not there.
pub(crate) const NO_LAND: u8 = 100;

/// What a record with land is for: a lot of a section, by its number, or land of the section that
/// is not there, by the mark of such land.
#[derive(Clone, Copy)]
pub(crate) struct MarkedLand {
    pub(crate) section: Section,
    pub(crate) mark: u8,
}

/// Whether the record is the heading of a lot table with land.
#[tactic(auto, using(crate::proofs::lots::RecordFacts::four_fields))]
pub fn is_land_heading(row: &ByteRecord) -> bool
    ensures { IsTrue result ↔ (fields_of row.now ≡ land_heading) }
{
    if row.len() != LAND_FIELDS || !is_exactly(field(row, 0), "section") {
        return false;
    }
    is_exactly(field(row, 1), "lot")
        && is_exactly(field(row, 2), "acres")
        && is_exactly(field(row, 3), "land")
}

/// What a record is for.
pub(crate) fn land_of(row: &ByteRecord) -> Option<MarkedLand>
    requires { length (fields_of row.now) ≡ LAND_FIELDS }
    ensures { MatchOption result (IsForNothing (fields_of row.now))
        (λ named. IsForMark (fields_of row.now) named.section named.mark) }
{
    let section = section_of(field(row, 0))?;
    let lot = field(row, 1);
    if lot.is_empty() && field(row, 2).is_empty() {
        return Some(MarkedLand {
            section,
            mark: NO_LAND,
        });
    }
    let number = short_number(lot)?;
    if number == 0 || number >= NO_LAND {
        return None;
    }
    Some(MarkedLand {
        section,
        mark: number,
    })
}
