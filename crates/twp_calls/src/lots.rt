//! Lot tables as plain data.
ghost use Rattle.std.specs.Prelude.{◌≡◌};
ghost use Rattle.twp_calls.specs.Answers.{bare};
ghost use Rattle.twp_calls.specs.GivenLots.{given_lots};
ghost use Rattle.twp_calls.specs.LotManyAnswers.{IsTableVerdict};
ghost use Rattle.twp_calls.specs.WhichPlats.{plat_of_lots};

use crate::designation::TownshipDesignation;
use crate::verdict::{ACCEPTED, NO_LOTS};
use crate::which_plat::WhichPlat;
use twp_plat::{LotTable, ReturnedLots};

/// The parts of a lot table. Any are valid if the township's are.
#[repr(C)]
#[derive(Clone, Drop)]
pub struct TownshipLots {
    /// The lots, and the acreage that is returned for each.
    pub lots: ReturnedLots,
    /// The date of approval as a number: 10,000 times the year, 100 times the month, and the day. 0
    /// if it isn't known.
    pub date: u32,
    /// The township that the table is for.
    pub township: TownshipDesignation,
}

impl TownshipLots {
    /// The parts of a lot table.
    pub(crate) fn of(table: LotTable) -> TownshipLots
        ensures { result ≡ given_lots table }
    {
        TownshipLots {
            township: TownshipDesignation::of(table.township),
            date: table.date,
            lots: table.lots,
        }
    }

    /// The verdict on the table.
    pub(crate) fn verdict(&self) -> u32
        ensures { IsTableVerdict self.now (bare result) }
    {
        match self.township.township() {
            Some(_) => ACCEPTED,
            None => NO_LOTS,
        }
    }

    /// The plat that the table is of.
    pub(crate) fn plat(&self) -> WhichPlat
        ensures { result ≡ plat_of_lots self.now }
    {
        let own_lots = if self.lots.plat.mapped == 0 { 0 } else { 1 };
        WhichPlat {
            date: self.date,
            own_lots,
        }
    }
}
