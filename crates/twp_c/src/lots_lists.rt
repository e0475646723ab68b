//! The calls that answer lists of tracts, and many descriptions, by a lot table, as C calls them.
ghost use Rattle.std.specs.Prelude.{◌≡◌, ◌≢◌, ◌<◌};
ghost use Rattle.twp_calls.specs.Answers.{ACCEPTED, IsRefused, NO_ROOM};
ghost use Rattle.twp_calls.specs.Explanations.{HasNoText};
ghost use Rattle.twp_calls.specs.LotEachCalls.{IsLotsEachCall};
ghost use Rattle.twp_calls.specs.LotFullAnswers.{IsLotsFullCall};
ghost use Rattle.twp_calls.specs.LotListExplanations.{ExplainsListByLots};
ghost use Rattle.twp_calls.specs.LotManyAnswers.{IsLotsManyCall};
ghost use Rattle.twp_calls.specs.LotOverlapCalls.{IsLotsOverlapsCall};
ghost use Rattle.twp_calls.specs.ShownTexts.{IsNotedInParts, IsShownInParts, IsShownNote, IsTextShown};

use std::alloc::Global;
use twp_calls::{
    TownshipAnswer, TownshipExplanation, TownshipFullAnswer, TownshipLots, TownshipLotsOverlap,
    TownshipTractAnswer,
};

/// The answer by a lot table to each tract of a list, whatever is wrong with the others.
#[unsafe(no_mangle)]
pub extern "C" fn township_lots_report_each(
    alloc: Global,
    lots: &TownshipLots,
    list: &[u8],
    answers: &mut [TownshipTractAnswer],
) -> TownshipAnswer
    ensures answer { IsLotsEachCall lots.now list.now answers.old answers.new result }
    ensures kept { result.verdict ≢ ACCEPTED → answers.new ≡ answers.old }
{
    twp_calls::township_lots_report_each(alloc, lots, list, answers)
}

/// Each pair of tracts of a list that overlap on the plat of a lot table.
#[unsafe(no_mangle)]
pub extern "C" fn township_lots_overlaps(
    alloc: Global,
    lots: &TownshipLots,
    list: &[u8],
    overlaps: &mut [TownshipLotsOverlap],
) -> TownshipAnswer
    ensures answer { IsLotsOverlapsCall lots.now list.now overlaps.old overlaps.new result }
    ensures kept { result.verdict ≢ ACCEPTED → overlaps.new ≡ overlaps.old }
{
    twp_calls::township_lots_overlaps(alloc, lots, list, overlaps)
}

/// The answers of `township_lots_acres` to many descriptions.
#[unsafe(no_mangle)]
pub extern "C" fn township_lots_acres_many(
    alloc: Global,
    lots: &TownshipLots,
    descriptions: &[u8],
    offsets: &[usize],
    answers: &mut [TownshipAnswer],
) -> TownshipAnswer
    ensures answer { IsLotsManyCall lots.now descriptions.now offsets.now
        answers.old answers.new result }
    ensures kept { result.verdict ≡ NO_ROOM → answers.new ≡ answers.old }
{
    twp_calls::township_lots_acres_many(alloc, lots, descriptions, offsets, answers)
}

/// The full answers by a lot table to many descriptions.
#[unsafe(no_mangle)]
pub extern "C" fn township_lots_answer_many(
    alloc: Global,
    lots: &TownshipLots,
    descriptions: &[u8],
    offsets: &[usize],
    answers: &mut [TownshipFullAnswer],
) -> TownshipAnswer
    ensures answer { IsLotsFullCall lots.now descriptions.now offsets.now
        answers.old answers.new result }
    ensures kept { result.verdict ≡ NO_ROOM → answers.new ≡ answers.old }
{
    twp_calls::township_lots_answer_many(alloc, lots, descriptions, offsets, answers)
}

/// Explains why a list of tracts is refused by a lot table, or notes a place in a description of an accepted
/// one that can be read in two ways.
#[unsafe(no_mangle)]
pub extern "C" fn township_lots_explain_list(
    alloc: Global,
    lots: &TownshipLots,
    list: &[u8],
    name: &[u8],
    text: &mut [u8],
) -> TownshipAnswer
    ensures answer { ExplainsListByLots lots.now list.now text.old text.new result }
    ensures kept { HasNoText result.verdict → text.new ≡ text.old }
    ensures shows { IsRefused result.verdict
        → IsTextShown list.now name.now text.old text.new result }
    ensures notes { result.verdict ≡ ACCEPTED → 0 < result.length
        → IsShownNote list.now name.now text.old text.new result }
{
    twp_calls::township_lots_explain_list(alloc, lots, list, name, text)
}

/// The same, with the parts of the explanation or of the note.
#[unsafe(no_mangle)]
pub extern "C" fn township_lots_explain_list_parts(
    alloc: Global,
    lots: &TownshipLots,
    list: &[u8],
    name: &[u8],
    text: &mut [u8],
    explanation: &mut TownshipExplanation,
) -> TownshipAnswer
    ensures answer { ExplainsListByLots lots.now list.now text.old text.new result }
    ensures kept { HasNoText result.verdict → text.new ≡ text.old }
    ensures kept_parts { HasNoText result.verdict → explanation.new ≡ explanation.old }
    ensures kept_if_clear { result.verdict ≡ ACCEPTED → result.length ≡ 0
        → explanation.new ≡ explanation.old }
    ensures shows { IsRefused result.verdict
        → IsShownInParts list.now name.now text.old text.new explanation.new result }
    ensures notes { result.verdict ≡ ACCEPTED → 0 < result.length
        → IsNotedInParts list.now name.now text.old text.new explanation.new result }
{
    twp_calls::township_lots_explain_list_parts(alloc, lots, list, name, text, explanation)
}
