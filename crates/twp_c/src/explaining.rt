//! The calls that explain refusals and note doubtful places, as C calls them, and the version.
ghost use Rattle.std.specs.Prelude.{◌≡◌, ◌≢◌, ◌<◌};
ghost use Rattle.twp_calls.specs.Answers.{ACCEPTED, IsRefused};
ghost use Rattle.twp_calls.specs.Calls.{IsVersionCall};
ghost use Rattle.twp_calls.specs.Explanations.{ExplainsNotes, ExplainsDescription, ExplainsList};
ghost use Rattle.twp_calls.specs.Explanations.{HasNoText};
ghost use Rattle.twp_calls.specs.ShownTexts.{IsShownNote, IsTextShown};

use std::alloc::Global;
use twp_calls::{TownshipAnswer, TownshipPlat};

/// Explains why field notes are refused.
#[unsafe(no_mangle)]
pub extern "C" fn township_explain_notes(
    alloc: Global,
    notes: &[u8],
    name: &[u8],
    text: &mut [u8],
) -> TownshipAnswer
    ensures answer { ExplainsNotes notes.now text.old text.new result }
    ensures kept { ¬ IsRefused result.verdict → text.new ≡ text.old }
    ensures shows { IsRefused result.verdict
        → IsTextShown notes.now name.now text.old text.new result }
{
    twp_calls::township_explain_notes(alloc, notes, name, text)
}

/// Explains why a description is refused, or notes a place of an accepted one that can be read in two
/// ways.
#[unsafe(no_mangle)]
pub extern "C" fn township_explain_description(
    alloc: Global,
    plat: &TownshipPlat,
    description: &[u8],
    name: &[u8],
    text: &mut [u8],
) -> TownshipAnswer
    ensures answer { ExplainsDescription plat.now description.now text.old text.new result }
    ensures kept { HasNoText result.verdict → text.new ≡ text.old }
    ensures shows { IsRefused result.verdict
        → IsTextShown description.now name.now text.old text.new result }
    ensures notes { result.verdict ≡ ACCEPTED → 0 < result.length
        → IsShownNote description.now name.now text.old text.new result }
{
    twp_calls::township_explain_description(alloc, plat, description, name, text)
}

/// Explains why a list of tracts is refused, or notes a place in a description of an accepted one that
/// can be read in two ways.
#[unsafe(no_mangle)]
pub extern "C" fn township_explain_list(
    alloc: Global,
    plat: &TownshipPlat,
    list: &[u8],
    name: &[u8],
    text: &mut [u8],
) -> TownshipAnswer
    ensures answer { ExplainsList plat.now list.now text.old text.new result }
    ensures kept { HasNoText result.verdict → text.new ≡ text.old }
    ensures shows { IsRefused result.verdict
        → IsTextShown list.now name.now text.old text.new result }
    ensures notes { result.verdict ≡ ACCEPTED → 0 < result.length
        → IsShownNote list.now name.now text.old text.new result }
{
    twp_calls::township_explain_list(alloc, plat, list, name, text)
}

/// The version of the library.
#[unsafe(no_mangle)]
pub extern "C" fn township_version(text: &mut [u8]) -> TownshipAnswer
    ensures answer { IsVersionCall text.old text.new result }
    ensures kept { result.verdict ≢ ACCEPTED → text.new ≡ text.old }
{
    twp_calls::township_version(text)
}
