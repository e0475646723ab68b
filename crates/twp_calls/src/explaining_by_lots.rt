//! Explanations for C of descriptions by a lot table: on its plat, with its lots.
ghost use Rattle.std.specs.Prelude.{◌≡◌, ◌<◌};
ghost use Rattle.twp_land.specs.LotMaps.{layout_of_plat};
ghost use Rattle.twp_plat.specs.LotTables.{lots_of};
ghost use Rattle.twp_answers.specs.Answers.{IsNoDescription};
ghost use Rattle.twp_calls.specs.Answers.{ACCEPTED, IsRefused, refused};
ghost use Rattle.twp_calls.specs.Explanations.{HasNoText};
ghost use Rattle.twp_calls.specs.LotExplanations.{ExplainsByLots};
ghost use Rattle.twp_calls.specs.ShownTexts.{IsNotedInParts, IsShownInParts, IsShownNote, IsTextShown};

use crate::answer::TownshipAnswer;
use crate::explaining::{given, put_explained, put_noted};
use crate::explanation::TownshipExplanation;
use crate::lots::TownshipLots;
use crate::verdict::{NO_LOTS, NO_MEMORY};
use std::alloc::Global;
use twp_answers::{Stop, land_of};
use twp_explain::{explain_description, explain_lacking, note_without_acres};
use twp_land::PlatLots;
use twp_phrases::Phrases;
use twp_plat::area_by_lots;
use twp_suggest::OnlyReading;

/// Explains why a description is refused by a lot table, or notes a place of an accepted one that can be
/// read in two ways.
#[tactic(auto, using(crate::proofs::ExplanationPartFacts::shown_text, crate::proofs::ExplanationPartFacts::shown_note_text))]
pub fn township_lots_explain_description(
    alloc: Global,
    lots: &TownshipLots,
    description: &[u8],
    name: &[u8],
    text: &mut [u8],
) -> TownshipAnswer
    ensures answer { ExplainsByLots lots.now description.now text.old text.new result }
    ensures kept { HasNoText result.verdict → text.new ≡ text.old }
    ensures shows { IsRefused result.verdict
        → IsTextShown description.now name.now text.old text.new result }
    ensures notes { result.verdict ≡ ACCEPTED → 0 < result.length
        → IsShownNote description.now name.now text.old text.new result }
{
    let mut parts = TownshipExplanation::none();
    township_lots_explain_description_parts(alloc, lots, description, name, text, &mut parts)
}

/// Explains why a description is refused by a lot table, or notes a place of an accepted one that can be
/// read in two ways, with the parts of the explanation or of the note.
pub fn township_lots_explain_description_parts(
    alloc: Global,
    lots: &TownshipLots,
    description: &[u8],
    name: &[u8],
    text: &mut [u8],
    explanation: &mut TownshipExplanation,
) -> TownshipAnswer
    ensures answer { ExplainsByLots lots.now description.now text.old text.new result }
    ensures kept { HasNoText result.verdict → text.new ≡ text.old }
    ensures kept_parts { HasNoText result.verdict → explanation.new ≡ explanation.old }
    ensures kept_if_clear { result.verdict ≡ ACCEPTED → result.length ≡ 0
        → explanation.new ≡ explanation.old }
    ensures shows { IsRefused result.verdict
        → IsShownInParts description.now name.now text.old text.new explanation.new result }
    ensures notes { result.verdict ≡ ACCEPTED → 0 < result.length
        → IsNotedInParts description.now name.now text.old text.new explanation.new result }
{
    let Some(township) = lots.township.township() else {
        return TownshipAnswer::bare(NO_LOTS);
    };
    let file = given(name, description);
    let land = match land_of(alloc, township, description, &lots.lots.plat) {
        Ok(land) => land,
        Err(Stop::Failed(_)) => return TownshipAnswer::bare(NO_MEMORY),
        Err(Stop::Refused(refusal)) => {
            let refused = TownshipAnswer::of_refusal(refusal);
            let explained = explain_description::<OnlyReading<Phrases>, PlatLots>(
                alloc,
                township,
                &file,
                &lots.lots.plat,
            );
            return match explained {
                Ok(Some(explained)) => {
                    put_explained(alloc, refused, &explained, text, explanation)
                }
                Ok(None) => TownshipAnswer::bare(NO_MEMORY),
                Err(_) => TownshipAnswer::bare(NO_MEMORY),
            };
        }
    };
    let lot = match area_by_lots(&lots.lots, &land) {
        Ok(_) => {
            return put_noted(note_without_acres(alloc, &file), text, explanation);
        }
        Err(lot) => lot,
    };
    match explain_lacking(alloc, &lots.lots, &file, lot.section, lot.number) {
        Ok(explained) => {
            let refused = TownshipAnswer::of_refusal(explained.refusal);
            put_explained(alloc, refused, &explained, text, explanation)
        }
        Err(_) => TownshipAnswer::bare(NO_MEMORY),
    }
}
