//! Explanations for C, as texts alone.
ghost use Rattle.std.specs.Prelude.{◌≡◌, ◌≢◌, ◌<◌};
ghost use Rattle.twp_calls.specs.Answers.{ACCEPTED, IsRefused};
ghost use Rattle.twp_calls.specs.Explanations.{ExplainsNotes, ExplainsDescription, ExplainsList};
ghost use Rattle.twp_calls.specs.Explanations.{HasNoText};
ghost use Rattle.twp_calls.specs.ShownTexts.{IsShownNote, IsTextShown};

use crate::answer::TownshipAnswer;
use crate::explaining::{
    township_explain_description_parts, township_explain_list_parts, township_explain_notes_parts,
};
use crate::explanation::TownshipExplanation;
use crate::plat::TownshipPlat;
use std::alloc::Global;

/// Explains why field notes are refused.
#[tactic(auto, using(crate::proofs::ExplanationPartFacts::shown_text))]
pub fn township_explain_notes(
    alloc: Global,
    notes: &[u8],
    name: &[u8],
    text: &mut [u8],
) -> TownshipAnswer
    ensures answer { ExplainsNotes notes.now text.old text.new result }
    ensures kept { ¬ IsRefused result.verdict → text.new ≡ text.old }
    ensures shows { IsRefused result.verdict
        → IsTextShown notes.now name.now text.old text.new result }
{
    let mut parts = TownshipExplanation::none();
    township_explain_notes_parts(alloc, notes, name, text, &mut parts)
}

/// Explains why a description is refused, or notes a place of an accepted one that can be read in two
/// ways.
#[tactic(auto, using(crate::proofs::ExplanationPartFacts::shown_text, crate::proofs::ExplanationPartFacts::shown_note_text))]
pub fn township_explain_description(
    alloc: Global,
    plat: &TownshipPlat,
    description: &[u8],
    name: &[u8],
    text: &mut [u8],
) -> TownshipAnswer
    ensures answer { ExplainsDescription plat.now description.now text.old text.new result }
    ensures kept { HasNoText result.verdict → text.new ≡ text.old }
    ensures shows { IsRefused result.verdict
        → IsTextShown description.now name.now text.old text.new result }
    ensures notes { result.verdict ≡ ACCEPTED → 0 < result.length
        → IsShownNote description.now name.now text.old text.new result }
{
    let mut parts = TownshipExplanation::none();
    township_explain_description_parts(alloc, plat, description, name, text, &mut parts)
}

/// Explains why a list of tracts is refused, or notes a place in a description of an accepted one that
/// can be read in two ways.
#[tactic(auto, using(crate::proofs::ExplanationPartFacts::shown_text, crate::proofs::ExplanationPartFacts::shown_note_text))]
pub fn township_explain_list(
    alloc: Global,
    plat: &TownshipPlat,
    list: &[u8],
    name: &[u8],
    text: &mut [u8],
) -> TownshipAnswer
    ensures answer { ExplainsList plat.now list.now text.old text.new result }
    ensures kept { HasNoText result.verdict → text.new ≡ text.old }
    ensures shows { IsRefused result.verdict
        → IsTextShown list.now name.now text.old text.new result }
    ensures notes { result.verdict ≡ ACCEPTED → 0 < result.length
        → IsShownNote list.now name.now text.old text.new result }
{
    let mut parts = TownshipExplanation::none();
    township_explain_list_parts(alloc, plat, list, name, text, &mut parts)
}
