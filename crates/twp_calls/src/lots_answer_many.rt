//! Many descriptions, answered by a lot table in one call: the acres of each, its canonical text, and whether
//! there is a note on it.
ghost use Rattle.std.specs.Prelude.{◌≡◌, ◌≢◌};
ghost use Rattle.twp_calls.specs.Answers.{ACCEPTED, NO_ROOM};
ghost use Rattle.twp_calls.specs.FullAnswers.{AreBetween, ExplainsWithoutRoom};
ghost use Rattle.twp_calls.specs.LotFullAnswers.{IsLotsFullCall, IsNormalByLots, calls_by_lots};

use crate::answer::TownshipAnswer;
use crate::explaining_by_lots::township_lots_explain_description;
use crate::full_answer::TownshipFullAnswer;
use crate::lot_answers::township_lots_acres;
use crate::lots::TownshipLots;
use crate::many::counted;
use crate::text::put;
use crate::verdict::{ACCEPTED, NO_LOTS, NO_MEMORY, NO_RANGE, NO_ROOM};
use std::alloc::Global;
use twp_answers::land_of;
use twp_spell::spell;

/// The full answers by a lot table to many descriptions, which are given as bytes in a row, as for
/// `township_answer_many`. Each is answered, even if the table is not valid.
pub fn township_lots_answer_many(
    alloc: Global,
    lots: &TownshipLots,
    descriptions: &[u8],
    offsets: &[usize],
    answers: &mut [TownshipFullAnswer],
) -> TownshipAnswer
    ensures answer { IsLotsFullCall lots.now descriptions.now offsets.now
        answers.old answers.new result }
    ensures kept { result.verdict ≡ NO_ROOM → answers.new ≡ answers.old }
{
    let count = offsets.len().saturating_sub(1);
    if answers.len() < count {
        return counted(NO_ROOM, count);
    }
    for index in 0..count {
        let (start, end) = (offsets[index], offsets[index + 1]);
        answers[index] = answer_between(alloc, lots, descriptions, start, end, answers[index]);
    }
    counted(lots.verdict(), count)
}

/// The full answer to the description between two offsets. Its text overwrites the old one.
fn answer_between(
    alloc: Global,
    lots: &TownshipLots,
    descriptions: &[u8],
    start: usize,
    end: usize,
    old: TownshipFullAnswer,
) -> TownshipFullAnswer
    ensures { AreBetween (calls_by_lots lots.now) descriptions.now start end old result }
{
    let mut text = old.text;
    let Some(description) = descriptions.get(start..end) else {
        let none = counted(NO_RANGE, 0);
        return TownshipFullAnswer {
            acres: none,
            normal: none,
            note: none,
            text,
        };
    };
    let normal = normal_by_lots(alloc, lots, description, &mut text);
    let acres = township_lots_acres(alloc, lots, description);
    TownshipFullAnswer {
        acres,
        normal,
        note: note_by_lots(alloc, lots, description, acres),
        text,
    }
}

/// The canonical text of the land described on the plat of a lot table.
fn normal_by_lots(
    alloc: Global,
    lots: &TownshipLots,
    description: &[u8],
    text: &mut [u8],
) -> TownshipAnswer
    ensures { IsNormalByLots lots.now description.now text.old text.new result }
{
    let Some(township) = lots.township.township() else {
        return TownshipAnswer::bare(NO_LOTS);
    };
    let land = match land_of(alloc, township, description, &lots.lots.plat) {
        Ok(land) => land,
        Err(stop) => return TownshipAnswer::of_stop(stop),
    };
    match spell(alloc, &land, township, &lots.lots.plat) {
        Ok(spelled) => put(TownshipAnswer::bare(ACCEPTED), &spelled, text),
        Err(_) => TownshipAnswer::bare(NO_MEMORY),
    }
}

/// Whether there is a note on a description that has these acres, and where; or why it has none.
fn note_by_lots(
    alloc: Global,
    lots: &TownshipLots,
    description: &[u8],
    acres: TownshipAnswer,
) -> TownshipAnswer
    ensures noted { acres.verdict ≡ ACCEPTED
        → ExplainsWithoutRoom (calls_by_lots lots.now) description.now result }
    ensures unnoted { acres.verdict ≢ ACCEPTED → result ≡ acres }
{
    if acres.verdict != ACCEPTED {
        return acres;
    }
    let mut no_room = [0; 0];
    township_lots_explain_description(alloc, lots, description, &[], &mut no_room)
}
