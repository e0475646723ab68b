//! Plats as plain data.
ghost use Rattle.std.specs.Prelude.{◌≡◌, MatchOption, Some, None};
ghost use Rattle.twp_calls.specs.GivenPlats.{IsGivenPlat, IsNoGivenPlat, given_of};
ghost use Rattle.twp_calls.specs.GivenPlats.{designation_in};

use crate::designation::TownshipDesignation;
use twp_grid::LINES;
use twp_plat::Plat;

/// The parts of a plat, whether they are one's or not.
#[repr(C)]
#[derive(Clone, Copy)]
pub struct TownshipPlat {
    /// The last quarter mile of each section line, by the line's index, in thousandths of a chain.
    pub closing_quarters: [u32; LINES],
    /// The township's number, 1 to 99.
    pub number: u8,
    /// 0 for north of the base line, 1 for south of it.
    pub north_south: u8,
    /// The range's number, 1 to 99.
    pub range: u8,
    /// 0 for east of the principal meridian, 1 for west of it.
    pub east_west: u8,
}

impl TownshipPlat {
    /// The parts of a plat.
    pub(crate) fn of(plat: &Plat) -> TownshipPlat
        ensures { result ≡ given_of plat.now }
    {
        let township = TownshipDesignation::of(plat.township());
        TownshipPlat {
            closing_quarters: *plat.closing_quarters(),
            number: township.number,
            north_south: township.north_south,
            range: township.range,
            east_west: township.east_west,
        }
    }

    /// The plat with these parts, where there is one.
    pub(crate) fn plat(&self) -> Option<Plat>
        ensures { MatchOption result (IsNoGivenPlat self.now) (IsGivenPlat self.now) }
    {
        Plat::of_parts(self.designation().township()?, &self.closing_quarters)
    }

    /// The parts of the plat's township.
    fn designation(&self) -> TownshipDesignation
        ensures { result ≡ designation_in self.now }
    {
        TownshipDesignation {
            number: self.number,
            north_south: self.north_south,
            range: self.range,
            east_west: self.east_west,
        }
    }
}
