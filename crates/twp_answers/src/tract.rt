//! The record of a tract.
ghost use Rattle.std.specs.Prelude.{◌≡◌, ◌↔◌, IsTrue, MatchOption};
ghost use Rattle.std.specs.List.{All};
ghost use Rattle.csv.specs.Records.{fields_of};
ghost use Rattle.twp_answers.specs.Tracts.{tracts_heading, name_in, description_in};
ghost use Rattle.twp_answers.specs.Tracts.{IsPrinted, IsTractName, IsTractRecord};

use csv::ByteRecord;
use twp_notes::{field, is_exactly};

/// The number of fields in each record.
const FIELDS: usize = 2;

/// The most bytes of a tract's name.
pub(crate) const NAME_MOST: usize = 64;

/// A tract's name, and the description of its land, which has not been read yet.
#[derive(Clone, Copy)]
pub(crate) struct TractRecord<'a> {
    pub(crate) name: &'a str,
    pub(crate) description: &'a [u8],
}

/// Whether the record is the heading of a list of tracts.
#[tactic(auto, using(crate::proofs::TractFacts::two_fields))]
pub fn is_heading(row: &ByteRecord) -> bool
    ensures { IsTrue result ↔ (fields_of row.now ≡ tracts_heading) }
{
    if row.len() != FIELDS || !is_exactly(field(row, 0), "name") {
        return false;
    }
    is_exactly(field(row, 1), "description")
}

/// The tract of a record, if the record is a tract's.
pub(crate) fn tract_of(row: &ByteRecord) -> Option<TractRecord<'_>>
    ensures { MatchOption result (¬ (IsTractRecord (fields_of row.now)))
        (λ tract. IsTractRecord (fields_of row.now)
        × (tract.name.now ≡ name_in (fields_of row.now))
        × (tract.description.now ≡ description_in (fields_of row.now))) }
{
    if row.len() != FIELDS {
        return None;
    }
    let Some(name) = name_of(field(row, 0)) else {
        return None;
    };
    Some(TractRecord {
        name,
        description: field(row, 1),
    })
}

/// The name with these bytes, if a tract can have it.
pub(crate) fn name_of(bytes: &[u8]) -> Option<&str>
    ensures { MatchOption result (¬ (IsTractName bytes.now))
        (λ name. IsTractName bytes.now × (name.now ≡ bytes.now)) }
{
    if bytes.is_empty() || bytes.len() > NAME_MOST || !are_printed(bytes) {
        return None;
    }
    match str::from_utf8(bytes) {
        Ok(name) => Some(name),
        Err(_) => unreachable!(),
    }
}

/// Whether each byte is printable ASCII.
fn are_printed(bytes: &[u8]) -> bool
    ensures { IsTrue result ↔ All IsPrinted bytes.now }
{
    bytes.iter().all(|byte| matches!(*byte, b' '..=b'~'))
}
