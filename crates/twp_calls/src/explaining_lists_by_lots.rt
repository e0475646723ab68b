//! Explanations for C of lists of tracts by a lot table: on its plat, with its lots.
ghost use Rattle.std.specs.Prelude.{◌≡◌, ◌<◌};
ghost use Rattle.twp_calls.specs.Answers.{ACCEPTED, IsRefused};
ghost use Rattle.twp_calls.specs.Explanations.{HasNoText};
ghost use Rattle.twp_calls.specs.LotListExplanations.{ExplainsListByLots};
ghost use Rattle.twp_calls.specs.ShownTexts.{IsNotedInParts, IsShownInParts, IsShownNote, IsTextShown};

use crate::answer::TownshipAnswer;
use crate::explaining::{given, put_explained, put_noted};
use crate::explanation::TownshipExplanation;
use crate::lots::TownshipLots;
use crate::verdict::{NO_LOTS, NO_MEMORY};
use std::alloc::Global;
use twp_answers::account_by_lots;
use twp_explain::{explain_tracts_by_lots, note_tracts_without_acres};
use twp_phrases::Phrases;
use twp_suggest::OnlyReading;

/// Explains why a list of tracts is refused by a lot table, or notes a place in a description of an accepted
/// one that can be read in two ways.
#[tactic(auto, using(crate::proofs::ExplanationPartFacts::shown_text, crate::proofs::ExplanationPartFacts::shown_note_text))]
pub fn township_lots_explain_list(
    alloc: Global,
    lots: &TownshipLots,
    list: &[u8],
    name: &[u8],
    text: &mut [u8],
) -> TownshipAnswer
    ensures answer { ExplainsListByLots lots.now list.now text.old text.new result }
    ensures kept { HasNoText result.verdict → text.new ≡ text.old }
    ensures shows { IsRefused result.verdict
        → IsTextShown list.now name.now text.old text.new result }
    ensures notes { result.verdict ≡ ACCEPTED → 0 < result.length
        → IsShownNote list.now name.now text.old text.new result }
{
    let mut parts = TownshipExplanation::none();
    township_lots_explain_list_parts(alloc, lots, list, name, text, &mut parts)
}

/// Explains why a list of tracts is refused by a lot table, or notes a place in a description of an accepted
/// one that can be read in two ways, with the parts of the explanation or of the note.
pub fn township_lots_explain_list_parts(
    alloc: Global,
    lots: &TownshipLots,
    list: &[u8],
    name: &[u8],
    text: &mut [u8],
    explanation: &mut TownshipExplanation,
) -> TownshipAnswer
    ensures answer { ExplainsListByLots lots.now list.now text.old text.new result }
    ensures kept { HasNoText result.verdict → text.new ≡ text.old }
    ensures kept_parts { HasNoText result.verdict → explanation.new ≡ explanation.old }
    ensures kept_if_clear { result.verdict ≡ ACCEPTED → result.length ≡ 0
        → explanation.new ≡ explanation.old }
    ensures shows { IsRefused result.verdict
        → IsShownInParts list.now name.now text.old text.new explanation.new result }
    ensures notes { result.verdict ≡ ACCEPTED → 0 < result.length
        → IsNotedInParts list.now name.now text.old text.new explanation.new result }
{
    let Some(township) = lots.township.township() else {
        return TownshipAnswer::bare(NO_LOTS);
    };
    let file = given(name, list);
    let fault = match account_by_lots(alloc, township, &lots.lots, list) {
        Ok(_) => return put_noted(note_tracts_without_acres(alloc, &file), text, explanation),
        Err(fault) => fault,
    };
    let Some(_) = fault.refusal() else {
        return TownshipAnswer::bare(NO_MEMORY);
    };
    let refused = TownshipAnswer::of_fault(fault);
    match explain_tracts_by_lots::<OnlyReading<Phrases>>(alloc, township, &lots.lots, &file) {
        Ok(Some(explained)) => put_explained(
            alloc,
            refused,
            &explained.explanation,
            text,
            explanation,
        ),
        Ok(None) => TownshipAnswer::bare(NO_MEMORY),
        Err(_) => TownshipAnswer::bare(NO_MEMORY),
    }
}
