//! The calls that explain refusals and note doubtful places with the parts of their texts, as C calls them.
ghost use Rattle.std.specs.Prelude.{◌≡◌, ◌<◌};
ghost use Rattle.twp_calls.specs.Answers.{ACCEPTED, IsRefused};
ghost use Rattle.twp_calls.specs.Explanations.{ExplainsNotes, ExplainsDescription, ExplainsList};
ghost use Rattle.twp_calls.specs.Explanations.{HasNoText};
ghost use Rattle.twp_calls.specs.ShownTexts.{IsNotedInParts, IsShownInParts};

use std::alloc::Global;
use twp_calls::{TownshipAnswer, TownshipExplanation, TownshipPlat};

/// Explains why field notes are refused, with the parts of the explanation.
#[unsafe(no_mangle)]
pub extern "C" fn township_explain_notes_parts(
    alloc: Global,
    notes: &[u8],
    name: &[u8],
    text: &mut [u8],
    explanation: &mut TownshipExplanation,
) -> TownshipAnswer
    ensures answer { ExplainsNotes notes.now text.old text.new result }
    ensures kept { ¬ IsRefused result.verdict → text.new ≡ text.old }
    ensures kept_parts { ¬ IsRefused result.verdict → explanation.new ≡ explanation.old }
    ensures shows { IsRefused result.verdict
        → IsShownInParts notes.now name.now text.old text.new explanation.new result }
{
    twp_calls::township_explain_notes_parts(alloc, notes, name, text, explanation)
}

/// Explains why a description is refused, or notes a place of an accepted one that can be read in two
/// ways, with the parts of the explanation or of the note.
#[unsafe(no_mangle)]
pub extern "C" fn township_explain_description_parts(
    alloc: Global,
    plat: &TownshipPlat,
    description: &[u8],
    name: &[u8],
    text: &mut [u8],
    explanation: &mut TownshipExplanation,
) -> TownshipAnswer
    ensures answer { ExplainsDescription plat.now description.now text.old text.new result }
    ensures kept { HasNoText result.verdict → text.new ≡ text.old }
    ensures kept_parts { HasNoText result.verdict → explanation.new ≡ explanation.old }
    ensures kept_if_clear { result.verdict ≡ ACCEPTED → result.length ≡ 0
        → explanation.new ≡ explanation.old }
    ensures shows { IsRefused result.verdict
        → IsShownInParts description.now name.now text.old text.new explanation.new result }
    ensures notes { result.verdict ≡ ACCEPTED → 0 < result.length
        → IsNotedInParts description.now name.now text.old text.new explanation.new result }
{
    twp_calls::township_explain_description_parts(alloc, plat, description, name, text, explanation)
}

/// Explains why a list of tracts is refused, or notes a place in a description of an accepted one that
/// can be read in two ways, with the parts of the explanation or of the note.
#[unsafe(no_mangle)]
pub extern "C" fn township_explain_list_parts(
    alloc: Global,
    plat: &TownshipPlat,
    list: &[u8],
    name: &[u8],
    text: &mut [u8],
    explanation: &mut TownshipExplanation,
) -> TownshipAnswer
    ensures answer { ExplainsList plat.now list.now text.old text.new result }
    ensures kept { HasNoText result.verdict → text.new ≡ text.old }
    ensures kept_parts { HasNoText result.verdict → explanation.new ≡ explanation.old }
    ensures kept_if_clear { result.verdict ≡ ACCEPTED → result.length ≡ 0
        → explanation.new ≡ explanation.old }
    ensures shows { IsRefused result.verdict
        → IsShownInParts list.now name.now text.old text.new explanation.new result }
    ensures notes { result.verdict ≡ ACCEPTED → 0 < result.length
        → IsNotedInParts list.now name.now text.old text.new explanation.new result }
{
    twp_calls::township_explain_list_parts(alloc, plat, list, name, text, explanation)
}
