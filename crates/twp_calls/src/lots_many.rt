//! The acres of many descriptions by a lot table, answered by one call.
ghost use Rattle.std.specs.Prelude.{◌≡◌};
ghost use Rattle.twp_calls.specs.Answers.{NO_ROOM};
ghost use Rattle.twp_calls.specs.LotCalls.{IsLotsAcresCall};
ghost use Rattle.twp_calls.specs.LotManyAnswers.{IsLotsManyCall};
ghost use Rattle.twp_calls.specs.ManyAnswers.{IsAnswerBetween};

use crate::answer::TownshipAnswer;
use crate::lot_answers::township_lots_acres;
use crate::lots::TownshipLots;
use crate::many::counted;
use crate::verdict::{NO_RANGE, NO_ROOM};
use std::alloc::Global;

/// The answers of `township_lots_acres` to many descriptions, which are given as bytes in a row, as for
/// `township_acres_many`. Each is answered, even if the table is not valid.
pub fn township_lots_acres_many(
    alloc: Global,
    lots: &TownshipLots,
    descriptions: &[u8],
    offsets: &[usize],
    answers: &mut [TownshipAnswer],
) -> TownshipAnswer
    ensures answer { IsLotsManyCall lots.now descriptions.now offsets.now
        answers.old answers.new result }
    ensures kept { result.verdict ≡ NO_ROOM → answers.new ≡ answers.old }
{
    let count = offsets.len().saturating_sub(1);
    if answers.len() < count {
        return counted(NO_ROOM, count);
    }
    for index in 0..count {
        let (start, end) = (offsets[index], offsets[index + 1]);
        answers[index] = answer_between(alloc, lots, descriptions, start, end);
    }
    counted(lots.verdict(), count)
}

/// The answer to the description between two offsets.
fn answer_between(
    alloc: Global,
    lots: &TownshipLots,
    descriptions: &[u8],
    start: usize,
    end: usize,
) -> TownshipAnswer
    ensures { IsAnswerBetween (IsLotsAcresCall lots.now) descriptions.now start end result }
{
    let Some(description) = descriptions.get(start..end) else {
        return TownshipAnswer::bare(NO_RANGE);
    };
    township_lots_acres(alloc, lots, description)
}
