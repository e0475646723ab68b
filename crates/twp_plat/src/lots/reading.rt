ghost use Rattle.std.specs.Prelude.{◌≡◌, ◌≢◌, ◌+◌, ◌↔◌, ℕ, List, Some, true, false, IsErrOf};
ghost use Rattle.twp_grid.specs.Devices.{Tells, TakesAtMost};
ghost use Rattle.twp_grid.specs.Devices.{TakesFirst};
ghost use Rattle.twp_plat.specs.LotRecords.{LOTS_TEXT_MOST};
ghost use Rattle.twp_plat.specs.LotsFaults.{AnswersLots};

use crate::lots::fault::{LotsFault, MOST_BYTES};
use crate::lots::parsing::parse;
use crate::lots::table::LotTable;
use std::alloc::Global;
use twp_grid::Source;
use twp_notes::read_whole;

impl LotTable {
    /// Reads a lot table from a source, to its end or to one byte more than a table can have,
    /// before it refuses it for any reason. The result is the first fault: too many bytes come
    /// first, next the fault of the first record that has one, with the smallest number if that
    /// record has several, and then those of all records with land together, 100 and 101. `Read` is
    /// the result exactly if the source failed in this call.
    pub fn read<R: Source>(alloc: Global, source: &mut R) -> Result<LotTable, LotsFault>
        requires { R.has_failed source.old ≡ false }
        ensures failed { IsErrOf result LotsFault.Read ↔ (R.has_failed source.new ≡ true) }
        ensures most { TakesAtMost (R.remaining source.old)
            (R.remaining source.new) (LOTS_TEXT_MOST + 1) }
        ensures exact { R.has_failed source.new ≡ false → result ≢ Err LotsFault.Memory
            → TakesFirst (R.remaining source.old) (R.remaining source.new) (LOTS_TEXT_MOST + 1) }
        ensures answer { (bytes : List ℕ)
            × Tells (R.remaining source.old) bytes × AnswersLots bytes result }
        ensures told { (bytes : List ℕ)
            → R.remaining source.old ≡ Some bytes → AnswersLots bytes result }
    {
        match read_whole(alloc, source, MOST_BYTES as usize)? {
            Some(bytes) => parse(alloc, bytes.as_slice()),
            None => Err(LotsFault::TooLarge),
        }
    }
}
