ghost use Rattle.twp_answers.specs.PlatReading.{IsPlatted};

use std::alloc::Global;
use twp_answers::{Stop, read_plat};
use twp_grid::Bytes;
use twp_plat::Plat;

/// The plat of field notes in memory.
pub(crate) fn plat_of_notes(alloc: Global, notes: &[u8]) -> Result<Plat, Stop>
    ensures { IsPlatted notes.now result }
{
    read_plat(alloc, &mut Bytes::new(notes))
}
