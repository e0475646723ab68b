//! The answer to each tract of a list by a lot table.
ghost use Rattle.std.specs.Prelude.{◌≡◌, ◌≢◌};
ghost use Rattle.twp_calls.specs.Answers.{ACCEPTED};
ghost use Rattle.twp_calls.specs.LotEachCalls.{IsLotsEachCall};

use crate::answer::TownshipAnswer;
use crate::each_call::{TownshipTractAnswer, put_answers};
use crate::lots::TownshipLots;
use crate::verdict::NO_LOTS;
use std::alloc::Global;
use twp_answers::each_by_lots;

/// The answer by a lot table to each tract of a list, whatever is wrong with the others.
pub fn township_lots_report_each(
    alloc: Global,
    lots: &TownshipLots,
    list: &[u8],
    answers: &mut [TownshipTractAnswer],
) -> TownshipAnswer
    ensures answer { IsLotsEachCall lots.now list.now answers.old answers.new result }
    ensures kept { result.verdict ≢ ACCEPTED → answers.new ≡ answers.old }
{
    let Some(township) = lots.township.township() else {
        return TownshipAnswer::bare(NO_LOTS);
    };
    match each_by_lots(alloc, township, &lots.lots, list) {
        Ok(given) => put_answers(given.as_slice(), answers),
        Err(fault) => TownshipAnswer::of_fault(fault),
    }
}
