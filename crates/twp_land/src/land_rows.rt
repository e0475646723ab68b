ghost use Rattle.std.specs.Prelude.{◌≡◌, MatchOption};
ghost use Rattle.twp_grid.specs.Places.{PLACE_DIGITS};
ghost use Rattle.twp_land.specs.Storage.{land_of_rows};
ghost use Rattle.twp_grid.specs.Lands.{HasWholeLots, STANDARD_LOTS};

use crate::land::Land;
use crate::lanes::{LaneRows, Lanes};
use crate::lots::lots_whole;
use crate::place_set::PlaceSet;
use crate::plot::Plot;
use crate::sections::Sections;
use twp_grid::{PLACES_ACROSS, SECTIONS, Section};

/// A set of places as plain data: for each section, by number, its rows from the south, and in each
/// row a bit for each column, from the east. The lowest bit is that of the easternmost column.
pub type LandRows = [[u32; PLACES_ACROSS]; SECTIONS as usize];

impl Sections<LaneRows> {
    /// The places of the set.
    pub fn rows(&self) -> LandRows
        ensures { land_of_rows result ≡ ⟦<Lanes as PlaceSet>⟧.places self.now }
    {
        let mut rows = [[0; PLACES_ACROSS]; SECTIONS as usize];
        for number in 1..SECTIONS + 1 {
            let section = Section::new(number).unwrap();
            rows[usize::from(number - 1)] = self.plot(section).lanes();
        }
        rows
    }

    /// The set of these places, whether or not it contains each lot wholly.
    pub fn of_rows(rows: &LandRows) -> Lanes
        ensures { ⟦<Lanes as PlaceSet>⟧.places result ≡ land_of_rows rows.now }
    {
        let mut land = Lanes::empty();
        for number in 1..SECTIONS + 1 {
            let section = Section::new(number).unwrap();
            let plot = LaneRows::of_lanes(&rows[usize::from(number - 1)]);
            if plot.same_plot(&LaneRows::empty()) {
                continue;
            }
            land.put(section, plot);
        }
        land
    }

    /// The set of these places. `None` if it would contain part of a lot.
    pub fn from_rows(rows: &LandRows) -> Option<Lanes>
        ensures { MatchOption result (¬ HasWholeLots STANDARD_LOTS (land_of_rows rows.now)) (λ land.
            HasWholeLots STANDARD_LOTS (land_of_rows rows.now)
            × (⟦<Lanes as PlaceSet>⟧.places land ≡ land_of_rows rows.now)) }
    {
        if !lots_whole(rows) {
            return None;
        }
        Some(Lanes::of_rows(rows))
    }
}
