//! The fields of a lot table's records.
ghost use Rattle.std.specs.Prelude.{◌≡◌, ◌↔◌, length, IsTrue, MatchOption};
ghost use Rattle.csv.specs.Records.{fields_of};
ghost use Rattle.twp_grid.specs.Finding.{Finds};
ghost use Rattle.twp_plat.specs.LotRecords.{LOT_FIELDS, lots_heading, IsAcresText, NamesLot};
ghost use Rattle.twp_plat.specs.LotsFaults.{NamesNoLot};

use csv::ByteRecord;
use twp_grid::{Section, lot_count};
use twp_measure::{is_numeral, numeral_value};
use twp_notes::{field, is_exactly, section_of, short_number};

/// The number of fields in the record of a lot.
pub const LOT_FIELDS: usize = 3;

/// The byte between whole acres and their decimals.
const POINT: u8 = b'.';

/// A lot of a section.
#[derive(Clone, Copy)]
pub(crate) struct NamedLot {
    pub(crate) section: Section,
    pub(crate) number: u8,
}

/// Whether the record is the heading of a lot table.
#[tactic(auto, using(crate::proofs::lots::RecordFacts::three_fields))]
pub fn is_heading(row: &ByteRecord) -> bool
    ensures { IsTrue result ↔ (fields_of row.now ≡ lots_heading) }
{
    if row.len() != LOT_FIELDS || !is_exactly(field(row, 0), "section") {
        return false;
    }
    is_exactly(field(row, 1), "lot") && is_exactly(field(row, 2), "acres")
}

/// The lot that a record names.
pub(crate) fn lot_of(row: &ByteRecord) -> Option<NamedLot>
    requires { length (fields_of row.now) ≡ LOT_FIELDS }
    ensures { MatchOption result (NamesNoLot (fields_of row.now))
        (λ lot. NamesLot (fields_of row.now) lot.section lot.number) }
{
    let section = section_of(field(row, 0))?;
    let number = short_number(field(row, 1))?;
    if number == 0 || number > lot_count(section) {
        return None;
    }
    Some(NamedLot { section, number })
}

/// The hundredths of an acre that a text spells.
pub(crate) fn hundredths_of(text: &[u8]) -> Option<u32>
    ensures { Finds result (IsAcresText text.now) }
{
    if text.len() < 4 || text.len() > 6 {
        return None;
    }
    let at = text.len() - 3;
    let whole = &text[..at];
    let decimals = &text[at + 1..];
    if text[at] != POINT || !is_numeral(whole) || !is_numeral(decimals) {
        return None;
    }
    let hundredths = 100 * numeral_value(whole) + numeral_value(decimals);
    if hundredths == 0 {
        return None;
    }
    Some(hundredths)
}
