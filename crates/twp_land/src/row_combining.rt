ghost use Rattle.std.specs.Prelude.{◌≡◌};
ghost use Rattle.twp_grid.specs.Lands.{union, intersection, difference};
ghost use Rattle.twp_land.specs.Storage.{land_of_rows};

use crate::land_rows::LandRows;
use crate::lanes::LaneRows;
use crate::plot::Plot;
use twp_grid::SECTIONS;

/// Writes the places in either of two sets.
pub fn write_union(rows: &LandRows, other: &LandRows, made: &mut LandRows)
    ensures { land_of_rows made.new ≡ union (land_of_rows rows.now) (land_of_rows other.now) }
{
    for index in 0..SECTIONS as usize {
        let mut plot = LaneRows::of_lanes(&rows[index]);
        plot.add_plot(&LaneRows::of_lanes(&other[index]));
        made[index] = plot.lanes();
    }
}

/// Writes the places that are in both of two sets.
pub fn write_intersection(rows: &LandRows, other: &LandRows, made: &mut LandRows)
    ensures { land_of_rows made.new
        ≡ intersection (land_of_rows rows.now) (land_of_rows other.now) }
{
    for index in 0..SECTIONS as usize {
        let mut plot = LaneRows::of_lanes(&rows[index]);
        plot.keep_common_plot(&LaneRows::of_lanes(&other[index]));
        made[index] = plot.lanes();
    }
}

/// Writes the places of the first set that are not in the second.
pub fn write_difference(rows: &LandRows, other: &LandRows, made: &mut LandRows)
    ensures { land_of_rows made.new ≡ difference (land_of_rows rows.now) (land_of_rows other.now) }
{
    for index in 0..SECTIONS as usize {
        let mut plot = LaneRows::of_lanes(&rows[index]);
        plot.take_away_plot(&LaneRows::of_lanes(&other[index]));
        made[index] = plot.lanes();
    }
}
