//! The calls that combine and compare two sets of land.
ghost use Rattle.std.specs.Prelude.{◌≡◌, ◌≢◌, MatchOption};
ghost use Rattle.twp_land.specs.Comparisons.{Compares};
ghost use Rattle.twp_land.specs.Storage.{land_of_rows};
ghost use Rattle.twp_calls.specs.Answers.{ACCEPTED};
ghost use Rattle.twp_calls.specs.LandCalls.{IsCombineCall, IsCompareCall, combined, operation_of};
ghost use Rattle.twp_calls.specs.LandCalls.{code_of_comparison};
ghost use Rattle.twp_calls.specs.steps.LandSteps.{AreLotsValid};

use crate::answer::TownshipAnswer;
use crate::designation::is_same_township;
use crate::land::TownshipLand;
use crate::verdict::{ACCEPTED, NO_LAND, NO_OPERATION, OTHER_PLAT, OTHER_TOWNSHIP};
use twp_land::{
    Comparison, LandRows, Lanes, compare, compare_rows, write_difference, write_intersection,
    write_union,
};

/// How two sets of land are combined.
#[derive(Clone, Copy)]
pub enum Operation {
    /// The places in either.
    Union,
    /// The places in both.
    Intersection,
    /// The places in the first that are not in the second.
    Difference,
}

impl Operation {
    /// Writes the land that the operation makes of two sets.
    fn write(self, first: &LandRows, second: &LandRows, made: &mut LandRows)
        ensures { land_of_rows made.new
            ≡ combined self (land_of_rows first.now) (land_of_rows second.now) }
    {
        match self {
            Operation::Union => write_union(first, second, made),
            Operation::Intersection => write_intersection(first, second, made),
            Operation::Difference => write_difference(first, second, made),
        }
    }
}

/// The operation that a number stands for.
fn operation_of(code: u32) -> Option<Operation>
    ensures { result ≡ operation_of code }
{
    match code {
        0 => Some(Operation::Union),
        1 => Some(Operation::Intersection),
        2 => Some(Operation::Difference),
        _ => None,
    }
}

/// The land that an operation makes of two sets of land.
pub fn township_land_combine(
    first: &TownshipLand,
    second: &TownshipLand,
    operation: u32,
    land: &mut TownshipLand,
) -> TownshipAnswer
    ensures answer { IsCombineCall first.now second.now operation land.new result }
    ensures kept { result.verdict ≢ ACCEPTED → land.new ≡ land.old }
{
    let Some(township) = first.valid_township() else {
        return TownshipAnswer::bare(NO_LAND);
    };
    let Some(other) = second.valid_township() else {
        return TownshipAnswer::bare(NO_LAND);
    };
    let Some(operation) = operation_of(operation) else {
        return TownshipAnswer::bare(NO_OPERATION);
    };
    if !is_same_township(township, other) {
        return TownshipAnswer::bare(OTHER_TOWNSHIP);
    }
    let plat = first.plat();
    if !plat.is_same(second.plat()) {
        return TownshipAnswer::bare(OTHER_PLAT);
    }
    operation.write(&first.rows, &second.rows, &mut land.rows);
    land.date = first.date;
    land.own_lots = first.own_lots;
    land.township = first.township;
    TownshipAnswer::bare(ACCEPTED)
}

/// How one set of land compares to another.
pub fn township_land_compare(
    first: &TownshipLand,
    second: &TownshipLand,
    comparison: &mut u32,
) -> TownshipAnswer
    ensures answer { IsCompareCall first.now second.now comparison.new result }
    ensures kept { result.verdict ≢ ACCEPTED → comparison.new ≡ comparison.old }
{
    let Some(township) = first.township.township() else {
        return TownshipAnswer::bare(NO_LAND);
    };
    let Some(other) = second.township.township() else {
        return TownshipAnswer::bare(NO_LAND);
    };
    let Some(compared) = compared_places(first, second) else {
        return TownshipAnswer::bare(NO_LAND);
    };
    if !is_same_township(township, other) {
        return TownshipAnswer::bare(OTHER_TOWNSHIP);
    }
    if !first.plat().is_same(second.plat()) {
        return TownshipAnswer::bare(OTHER_PLAT);
    }
    *comparison = code_of_comparison(compared);
    TownshipAnswer::bare(ACCEPTED)
}

/// How the places of one set compare to those of another. `None` if the lots of either are not valid.
fn compared_places(first: &TownshipLand, second: &TownshipLand) -> Option<Comparison>
    ensures { MatchOption result (¬ (AreLotsValid first.now × AreLotsValid second.now))
        (λ comparison. AreLotsValid first.now × AreLotsValid second.now
        × Compares comparison (land_of_rows first.now.rows) (land_of_rows second.now.rows)) }
{
    if first.own_lots == 0 && second.own_lots == 0 {
        return compare_rows(&first.rows, &second.rows);
    }
    compared_in_lanes(first, second)
}

/// The same, of land on plats with any lots. Inlined, it would take room on the stack for its sets of places
/// in each call.
#[inline(never)]
fn compared_in_lanes(first: &TownshipLand, second: &TownshipLand) -> Option<Comparison>
    ensures { MatchOption result (¬ (AreLotsValid first.now × AreLotsValid second.now))
        (λ comparison. AreLotsValid first.now × AreLotsValid second.now
        × Compares comparison (land_of_rows first.now.rows) (land_of_rows second.now.rows)) }
{
    if !first.are_lots_valid() || !second.are_lots_valid() {
        return None;
    }
    Some(compare(&Lanes::of_rows(&first.rows), &Lanes::of_rows(&second.rows)))
}

/// The number of a comparison.
fn code_of_comparison(comparison: Comparison) -> u32
    ensures { result ≡ code_of_comparison comparison }
{
    match comparison {
        Comparison::Same => 0,
        Comparison::Contains => 1,
        Comparison::IsContained => 2,
        Comparison::Overlaps => 3,
        Comparison::Disjoint => 4,
    }
}
