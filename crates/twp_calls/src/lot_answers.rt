//! The calls that read a lot table, which is plain data, and answer for a description by it.
ghost use Rattle.std.specs.Prelude.{◌≡◌, ◌≢◌};
ghost use Rattle.twp_calls.specs.Answers.{ACCEPTED};
ghost use Rattle.twp_calls.specs.LotCalls.{IsLotsReadCall, IsLotsAcresCall, IsLotsAreaCall};
ghost use Rattle.twp_calls.specs.steps.LotSteps.{AnswersByLots};

use crate::answer::TownshipAnswer;
use crate::fraction::TownshipFraction;
use crate::lots::TownshipLots;
use crate::verdict::{ACCEPTED, NO_LOTS};
use std::alloc::Global;
use twp_answers::{Stop, land_of};
use twp_grid::{Bytes, Township};
use twp_measure::Area;
use twp_plat::{LotTable, ReturnedLots, area_by_lots};

/// Reads a lot table.
pub fn township_lots_read(alloc: Global, table: &[u8], lots: &mut TownshipLots) -> TownshipAnswer
    ensures answer { IsLotsReadCall table.now lots.new result }
    ensures kept { result.verdict ≢ ACCEPTED → lots.new ≡ lots.old }
{
    match LotTable::read(alloc, &mut Bytes::new(table)) {
        Ok(read) => {
            *lots = TownshipLots::of(read);
            TownshipAnswer::bare(ACCEPTED)
        }
        Err(fault) => TownshipAnswer::of_lots_fault(fault),
    }
}

/// The acres of a description by a lot table.
pub fn township_lots_acres(alloc: Global, lots: &TownshipLots, description: &[u8]) -> TownshipAnswer
    ensures { IsLotsAcresCall lots.now description.now result }
{
    let Some(township) = lots.township.township() else {
        return TownshipAnswer::bare(NO_LOTS);
    };
    match area_described(alloc, township, &lots.lots, description) {
        Ok(area) => TownshipAnswer::of_acres(area.hundredths()),
        Err(stop) => TownshipAnswer::of_stop(stop),
    }
}

/// The exact area, of which `township_lots_acres` has the hundredths.
pub fn township_lots_area(
    alloc: Global,
    lots: &TownshipLots,
    description: &[u8],
    area: &mut TownshipFraction,
) -> TownshipAnswer
    ensures answer { IsLotsAreaCall lots.now description.now area.new result }
    ensures kept { result.verdict ≢ ACCEPTED → area.new ≡ area.old }
{
    let Some(township) = lots.township.township() else {
        return TownshipAnswer::bare(NO_LOTS);
    };
    match area_described(alloc, township, &lots.lots, description) {
        Ok(exact) => {
            *area = TownshipFraction::of(&exact);
            TownshipAnswer::bare(ACCEPTED)
        }
        Err(stop) => TownshipAnswer::of_stop(stop),
    }
}

/// The area of the land described by a lot table, or why there is none.
fn area_described(
    alloc: Global,
    township: Township,
    lots: &ReturnedLots,
    description: &[u8],
) -> Result<Area, Stop>
    ensures { AnswersByLots township lots.now description.now result }
{
    let land = land_of(alloc, township, description, &lots.plat)?;
    match area_by_lots(lots, &land) {
        Ok(area) => Ok(area),
        Err(lot) => Err(Stop::Refused(lot.refusal())),
    }
}
