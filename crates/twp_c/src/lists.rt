//! The calls that answer a list of tracts as data, as C calls them.
ghost use Rattle.std.specs.Prelude.{◌≡◌, ◌≢◌};
ghost use Rattle.twp_calls.specs.Accounts.{IsAccountCall};
ghost use Rattle.twp_calls.specs.Answers.{ACCEPTED};
ghost use Rattle.twp_calls.specs.EachCalls.{IsEachCall};
ghost use Rattle.twp_calls.specs.OverlapCalls.{IsOverlapsCall};

use std::alloc::Global;
use twp_calls::{
    TownshipAnswer, TownshipOverlap, TownshipPlat, TownshipTotals, TownshipTract,
    TownshipTractAnswer,
};

/// The figures of the account of a list of tracts.
#[unsafe(no_mangle)]
pub extern "C" fn township_account(
    alloc: Global,
    plat: &TownshipPlat,
    list: &[u8],
    tracts: &mut [TownshipTract],
    totals: &mut TownshipTotals,
) -> TownshipAnswer
    ensures answer { IsAccountCall plat.now list.now tracts.old tracts.new totals.new result }
    ensures kept { result.verdict ≢ ACCEPTED → tracts.new ≡ tracts.old }
    ensures totals_kept { result.verdict ≢ ACCEPTED → totals.new ≡ totals.old }
{
    twp_calls::township_account(alloc, plat, list, tracts, totals)
}

/// The answer to each tract of a list, whatever is wrong with the others.
#[unsafe(no_mangle)]
pub extern "C" fn township_report_each(
    alloc: Global,
    plat: &TownshipPlat,
    list: &[u8],
    answers: &mut [TownshipTractAnswer],
) -> TownshipAnswer
    ensures answer { IsEachCall plat.now list.now answers.old answers.new result }
    ensures kept { result.verdict ≢ ACCEPTED → answers.new ≡ answers.old }
{
    twp_calls::township_report_each(alloc, plat, list, answers)
}

/// Each pair of tracts of a list that overlap.
#[unsafe(no_mangle)]
pub extern "C" fn township_overlaps(
    alloc: Global,
    plat: &TownshipPlat,
    list: &[u8],
    overlaps: &mut [TownshipOverlap],
) -> TownshipAnswer
    ensures answer { IsOverlapsCall plat.now list.now overlaps.old overlaps.new result }
    ensures kept { result.verdict ≢ ACCEPTED → overlaps.new ≡ overlaps.old }
{
    twp_calls::township_overlaps(alloc, plat, list, overlaps)
}
