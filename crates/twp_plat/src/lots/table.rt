ghost use Rattle.std.specs.Prelude.{◌≡◌, ◌<◌, IfSome};
ghost use Rattle.std.specs.Option.{SomeIff};
ghost use Rattle.twp_grid.specs.Winding.{IsSection};
ghost use Rattle.twp_plat.specs.LotTables.{LOT_COUNT, lots_before, lot_index, IsLotNumber};

use crate::lots::returned::{LOTS_BEFORE, ReturnedLots};
use twp_grid::{Section, Township, lot_count};

/// A lot table: the lots of the approved plat of a township, and the acreage that it returns for
/// them. Lots may be lacking.
#[derive(Clone, Drop)]
pub struct LotTable {
    /// The township.
    pub township: Township,
    /// The date of approval as a number: 10,000 times the year, 100 times the month, and the day. 0
    /// if it isn't known.
    pub date: u32,
    /// The lots, and the acreage of each.
    pub lots: ReturnedLots,
}

/// The index of a section's standard lot among all of them. `None` if there is no such lot.
pub(crate) fn lot_index(section: Section, lot: u8) -> Option<usize>
    ensures index { SomeIff result (IsLotNumber section lot) (lot_index section lot) }
    ensures below { IfSome result (λ index. index < LOT_COUNT) }
{
    if lot == 0 || lot > lot_count(section) {
        return None;
    }
    Some(usize::from(lots_before(section)) + usize::from(lot - 1))
}

/// How many standard lots the sections of lower numbers have.
fn lots_before(section: Section) -> u16
    ensures before { result ≡ lots_before section }
    ensures section { IsSection section }
{
    LOTS_BEFORE[usize::from(section.number() - 1)]
}
