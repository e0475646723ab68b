//! The calls that explain lot tables, and refusals by them, as C calls them.
ghost use Rattle.std.specs.Prelude.{◌≡◌, ◌<◌, []};
ghost use Rattle.twp_calls.specs.Answers.{ACCEPTED, IsRefused};
ghost use Rattle.twp_calls.specs.Explanations.{HasNoText};
ghost use Rattle.twp_calls.specs.LotExplanations.{ExplainsByLots, ExplainsLacking, ExplainsLots};
ghost use Rattle.twp_calls.specs.ShownTexts.{IsNotedInParts, IsShownInParts, IsShownNote, IsTextShown};

use std::alloc::Global;
use twp_calls::{TownshipAnswer, TownshipExplanation, TownshipLots};

/// Explains why bytes are no lot table.
#[unsafe(no_mangle)]
pub extern "C" fn township_explain_lots(
    alloc: Global,
    table: &[u8],
    name: &[u8],
    text: &mut [u8],
) -> TownshipAnswer
    ensures answer { ExplainsLots table.now text.old text.new result }
    ensures kept { ¬ IsRefused result.verdict → text.new ≡ text.old }
    ensures shows { IsRefused result.verdict
        → IsTextShown table.now name.now text.old text.new result }
{
    twp_calls::township_explain_lots(alloc, table, name, text)
}

/// Explains why bytes are no lot table, with the parts of the explanation.
#[unsafe(no_mangle)]
pub extern "C" fn township_explain_lots_parts(
    alloc: Global,
    table: &[u8],
    name: &[u8],
    text: &mut [u8],
    explanation: &mut TownshipExplanation,
) -> TownshipAnswer
    ensures answer { ExplainsLots table.now text.old text.new result }
    ensures kept { ¬ IsRefused result.verdict → text.new ≡ text.old }
    ensures kept_parts { ¬ IsRefused result.verdict → explanation.new ≡ explanation.old }
    ensures shows { IsRefused result.verdict
        → IsShownInParts table.now name.now text.old text.new explanation.new result }
{
    twp_calls::township_explain_lots_parts(alloc, table, name, text, explanation)
}

/// Explains why land is refused by a lot table that lacks the lot at a place.
#[unsafe(no_mangle)]
pub extern "C" fn township_explain_lacking(
    alloc: Global,
    lots: &TownshipLots,
    at: u32,
    name: &[u8],
    text: &mut [u8],
) -> TownshipAnswer
    ensures answer { ExplainsLacking lots.now at text.old text.new result }
    ensures kept { ¬ IsRefused result.verdict → text.new ≡ text.old }
    ensures shows { IsRefused result.verdict → IsTextShown [] name.now text.old text.new result }
{
    twp_calls::township_explain_lacking(alloc, lots, at, name, text)
}

/// Explains why land is refused by a lot table that lacks the lot at a place, with the parts of the
/// explanation.
#[unsafe(no_mangle)]
pub extern "C" fn township_explain_lacking_parts(
    alloc: Global,
    lots: &TownshipLots,
    at: u32,
    name: &[u8],
    text: &mut [u8],
    explanation: &mut TownshipExplanation,
) -> TownshipAnswer
    ensures answer { ExplainsLacking lots.now at text.old text.new result }
    ensures kept { ¬ IsRefused result.verdict → text.new ≡ text.old }
    ensures kept_parts { ¬ IsRefused result.verdict → explanation.new ≡ explanation.old }
    ensures shows { IsRefused result.verdict
        → IsShownInParts [] name.now text.old text.new explanation.new result }
{
    twp_calls::township_explain_lacking_parts(alloc, lots, at, name, text, explanation)
}

/// Explains why a description is refused by a lot table, or notes a place of an accepted one that can be
/// read in two ways.
#[unsafe(no_mangle)]
pub extern "C" fn township_lots_explain_description(
    alloc: Global,
    lots: &TownshipLots,
    description: &[u8],
    name: &[u8],
    text: &mut [u8],
) -> TownshipAnswer
    ensures answer { ExplainsByLots lots.now description.now text.old text.new result }
    ensures kept { HasNoText result.verdict → text.new ≡ text.old }
    ensures shows { IsRefused result.verdict
        → IsTextShown description.now name.now text.old text.new result }
    ensures notes { result.verdict ≡ ACCEPTED → 0 < result.length
        → IsShownNote description.now name.now text.old text.new result }
{
    twp_calls::township_lots_explain_description(alloc, lots, description, name, text)
}

/// Explains why a description is refused by a lot table, or notes a place of an accepted one that can be
/// read in two ways, with the parts of the explanation or of the note.
#[unsafe(no_mangle)]
pub extern "C" fn township_lots_explain_description_parts(
    alloc: Global,
    lots: &TownshipLots,
    description: &[u8],
    name: &[u8],
    text: &mut [u8],
    explanation: &mut TownshipExplanation,
) -> TownshipAnswer
    ensures answer { ExplainsByLots lots.now description.now text.old text.new result }
    ensures kept { HasNoText result.verdict → text.new ≡ text.old }
    ensures kept_parts { HasNoText result.verdict → explanation.new ≡ explanation.old }
    ensures kept_if_clear { result.verdict ≡ ACCEPTED → result.length ≡ 0
        → explanation.new ≡ explanation.old }
    ensures shows { IsRefused result.verdict
        → IsShownInParts description.now name.now text.old text.new explanation.new result }
    ensures notes { result.verdict ≡ ACCEPTED → 0 < result.length
        → IsNotedInParts description.now name.now text.old text.new explanation.new result }
{
    twp_calls::township_lots_explain_description_parts(
        alloc,
        lots,
        description,
        name,
        text,
        explanation,
    )
}
