//! Land as plain data.
ghost use Rattle.std.specs.Prelude.{◌≡◌, ◌≤◌, ◌↔◌, IsTrue, MatchOption};
ghost use Rattle.twp_grid.specs.Places.{PLACE_DIGITS};
ghost use Rattle.twp_grid.specs.Lands.{HasWholeLots, STANDARD_LOTS};
ghost use Rattle.twp_land.specs.Storage.{land_of_rows};
ghost use Rattle.twp_calls.specs.GivenLands.{IsGivenLand, IsNoGivenLand};
ghost use Rattle.twp_calls.specs.WhichPlats.{plat_of_land};
ghost use Rattle.twp_calls.specs.steps.LandSteps.{AreLotsValid};

use crate::designation::TownshipDesignation;
use crate::which_plat::WhichPlat;
use twp_grid::{PLACES_ACROSS, SECTIONS, Township};
use twp_land::{Land, Lanes, PlaceSet, lots_whole};

/// A set of places of a township, whether it is land or not.
#[repr(C)]
#[derive(Clone, Copy)]
pub struct TownshipLand {
    /// For each section, by number, its rows from the south, and in each row a bit for each column,
    /// from the east.
    pub rows: [[u32; PLACES_ACROSS]; SECTIONS as usize],
    /// The date of the plat that the places are on, as in a lot table. 0 if it isn't known.
    pub date: u32,
    /// 0 if the plat's lots are the standard ones, or 1 if they are those of a lot table.
    pub own_lots: u32,
    /// The township that the places are in.
    pub township: TownshipDesignation,
}

/// Land in a township.
#[derive(Drop)]
pub(crate) struct LandIn {
    pub(crate) township: Township,
    pub(crate) places: Lanes,
}

impl TownshipLand {
    /// Land in a township, on one of its plats, as plain data.
    pub(crate) fn of(township: Township, plat: WhichPlat, places: &Lanes) -> TownshipLand
        requires lots { plat.own_lots ≤ 1 }
        requires whole { plat.own_lots ≡ 0
            → HasWholeLots STANDARD_LOTS (⟦<Lanes as PlaceSet>⟧.places places.now) }
        ensures land { IsGivenLand result township (⟦<Lanes as PlaceSet>⟧.places places.now) }
        ensures plat { plat_of_land result ≡ plat }
    {
        TownshipLand {
            rows: places.rows(),
            date: plat.date,
            own_lots: plat.own_lots,
            township: TownshipDesignation::of(township),
        }
    }

    /// The plat that the land is on.
    pub(crate) fn plat(&self) -> WhichPlat
        ensures { result ≡ plat_of_land self.now }
    {
        WhichPlat {
            date: self.date,
            own_lots: self.own_lots,
        }
    }

    /// The land, if it is valid.
    pub(crate) fn land(&self) -> Option<LandIn>
        ensures { MatchOption result (IsNoGivenLand self.now) (λ land.
            IsGivenLand self.now land.township (⟦<Lanes as PlaceSet>⟧.places land.places)) }
    {
        let township = self.valid_township()?;
        let places = Lanes::of_rows(&self.rows);
        Some(LandIn { township, places })
    }

    /// The township that the land is in, if it is valid. The places stay where they are.
    pub(crate) fn valid_township(&self) -> Option<Township>
        ensures { MatchOption result (IsNoGivenLand self.now) (λ township.
            IsGivenLand self.now township (land_of_rows self.now.rows)) }
    {
        let township = self.township.township()?;
        if !self.are_lots_valid() {
            return None;
        }
        Some(township)
    }

    /// Whether the number of its lots is valid, and the data contains each standard lot, if its lots
    /// are these, wholly or not at all.
    pub(crate) fn are_lots_valid(&self) -> bool
        ensures { IsTrue result ↔ AreLotsValid self.now }
    {
        if self.own_lots == 0 {
            return lots_whole(&self.rows);
        }
        self.own_lots == 1
    }
}
