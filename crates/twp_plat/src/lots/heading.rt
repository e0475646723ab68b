//! The heading of a lot table.
ghost use Rattle.std.specs.Prelude.{◌≡◌, ◌≢◌, MatchOption};
ghost use Rattle.csv.specs.Records.{fields_of};
ghost use Rattle.twp_plat.specs.LotRecords.{lots_heading};
ghost use Rattle.twp_plat.specs.LandRecords.{land_heading};
ghost use Rattle.twp_plat.specs.steps.LotReading.{heading_fields};

use crate::lots::land_record::is_land_heading;
use crate::lots::record::is_heading;
use csv::ByteRecord;

/// What the records of a lot table are for, by its heading.
#[derive(Clone, Copy)]
pub enum Heading {
    /// The standard lots.
    Standard,
    /// Lots with land, and land that is not there.
    Land,
}

/// The heading that a record is.
pub(crate) fn heading_of(row: &ByteRecord) -> Option<Heading>
    ensures { MatchOption result
        ((fields_of row.now ≢ lots_heading) × (fields_of row.now ≢ land_heading))
        (λ heading. fields_of row.now ≡ heading_fields heading) }
{
    if is_heading(row) {
        return Some(Heading::Standard);
    }
    if is_land_heading(row) {
        return Some(Heading::Land);
    }
    None
}
