ghost use Rattle.std.specs.Prelude.{◌↔◌, ◌⊎◌, IsTrue, MatchOption};
ghost use Rattle.twp_grid.specs.Places.{PLACE_DIGITS};
ghost use Rattle.twp_land.specs.Comparisons.{Compares, HaveWholeLots};
ghost use Rattle.twp_land.specs.steps.Relating.{HoldsWholeLots};
ghost use Rattle.twp_land.specs.Storage.{land_of_rows, held_by_lane, held_by_either, nothing_held};
ghost use Rattle.twp_land.specs.Storage.{SameHeld, ContainsHeld, ShareHeld};
ghost use Rattle.twp_grid.specs.Lands.{STANDARD_LOTS};

use crate::comparing::Comparison;
use crate::land_rows::LandRows;
use crate::lanes::LaneRows;
use crate::lots::has_whole_lots;
use crate::plot::Plot;
use crate::relation::Relation;
use crate::row::Lane;
use twp_grid::{PLACES_ACROSS, SECTIONS, Section, lot_count};

/// How many sections a tier has.
const TIER: usize = 6;

/// How a set of places compares to another. `None` if either contains part of a lot.
///
/// Most land is in few sections. So one pass looks for the sections in which either set has a
/// place, and only in these it looks at the lots and compares the sets. The loop over the sections of
/// a tier is unrolled when it is compiled.
pub fn compare_rows(rows: &LandRows, other: &LandRows) -> Option<Comparison>
    ensures { MatchOption result
        (¬ HaveWholeLots STANDARD_LOTS (land_of_rows rows.now) (land_of_rows other.now))
        (λ comparison.
        HaveWholeLots STANDARD_LOTS (land_of_rows rows.now) (land_of_rows other.now)
        × Compares comparison (land_of_rows rows.now) (land_of_rows other.now)) }
{
    let mut relation = Relation {
        contains: true,
        is_contained: true,
        shares: false,
    };
    for tier in 0..SECTIONS as usize / TIER {
        for place in 0..TIER {
            let index = TIER * tier + place;
            if are_empty(&rows[index], &other[index]) {
                continue;
            }
            let section = Section::new(index as u8 + 1).unwrap();
            if !take_section(&mut relation, section, &rows[index], &other[index]) {
                return None;
            }
        }
    }
    Some(relation.comparison())
}

/// Takes into account how two sets relate in a section, and returns whether both contain each of
/// its lots wholly or not at all. Inlined, it would keep what `are_empty` has read of each section.
#[inline(never)]
fn take_section(
    relation: &mut Relation,
    section: Section,
    lanes: &[Lane; PLACES_ACROSS],
    other: &[Lane; PLACES_ACROSS],
) -> bool
    ensures whole { IsTrue result ↔ (HoldsWholeLots STANDARD_LOTS section (held_by_lane lanes.now)
        × HoldsWholeLots STANDARD_LOTS section (held_by_lane other.now)) }
    ensures contains { IsTrue relation.new.contains ↔ (IsTrue relation.old.contains
        × ContainsHeld (held_by_lane lanes.now) (held_by_lane other.now)) }
    ensures is_contained { IsTrue relation.new.is_contained ↔ (IsTrue relation.old.is_contained
        × ContainsHeld (held_by_lane other.now) (held_by_lane lanes.now)) }
    ensures shares { IsTrue relation.new.shares ↔ (IsTrue relation.old.shares
        ⊎ ShareHeld (held_by_lane lanes.now) (held_by_lane other.now)) }
{
    let plot = LaneRows::of_lanes(lanes);
    let more = LaneRows::of_lanes(other);
    relation.add(&plot, &more);
    if lot_count(section) == 0 {
        return true;
    }
    if !has_whole_lots(&plot, section) {
        return false;
    }
    has_whole_lots(&more, section)
}

/// Whether neither of two sets in one section has a place.
#[inline(always)]
fn are_empty(lanes: &[Lane; PLACES_ACROSS], other: &[Lane; PLACES_ACROSS]) -> bool
    ensures { IsTrue result
        ↔ SameHeld (held_by_either (held_by_lane lanes.now) (held_by_lane other.now)) nothing_held }
{
    let mut either = LaneRows::of_lanes(lanes);
    either.add_plot(&LaneRows::of_lanes(other));
    either.same_plot(&LaneRows::empty())
}
