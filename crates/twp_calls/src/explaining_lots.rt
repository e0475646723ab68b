//! Explanations for C of refusals by lot tables: of bytes that are no lot table, and of land with a
//! lot that a table lacks.
ghost use Rattle.std.specs.Prelude.{◌≡◌, [], MatchOption};
ghost use Rattle.twp_calls.specs.Answers.{IsRefused};
ghost use Rattle.twp_calls.specs.LotExplanations.{ExplainsLacking, ExplainsLots, IsLackingAt};
ghost use Rattle.twp_calls.specs.LotExplanations.{IsNoLackingAt};
ghost use Rattle.twp_calls.specs.ShownTexts.{IsShownInParts, IsTextShown};

use crate::answer::TownshipAnswer;
use crate::explaining::{given, put_explained};
use crate::explanation::TownshipExplanation;
use crate::lots::TownshipLots;
use crate::verdict::{ACCEPTED, NO_LOTS, NO_MEMORY};
use std::alloc::Global;
use twp_explain::{explain_lacking, explain_lots};
use twp_grid::Section;
use twp_land::Lotting;
use twp_plat::ReturnedLots;

/// Explains why bytes are no lot table.
#[tactic(auto, using(crate::proofs::ExplanationPartFacts::shown_text))]
pub fn township_explain_lots(
    alloc: Global,
    table: &[u8],
    name: &[u8],
    text: &mut [u8],
) -> TownshipAnswer
    ensures answer { ExplainsLots table.now text.old text.new result }
    ensures kept { ¬ IsRefused result.verdict → text.new ≡ text.old }
    ensures shows { IsRefused result.verdict
        → IsTextShown table.now name.now text.old text.new result }
{
    let mut parts = TownshipExplanation::none();
    township_explain_lots_parts(alloc, table, name, text, &mut parts)
}

/// Explains why bytes are no lot table, with the parts of the explanation.
pub fn township_explain_lots_parts(
    alloc: Global,
    table: &[u8],
    name: &[u8],
    text: &mut [u8],
    explanation: &mut TownshipExplanation,
) -> TownshipAnswer
    ensures answer { ExplainsLots table.now text.old text.new result }
    ensures kept { ¬ IsRefused result.verdict → text.new ≡ text.old }
    ensures kept_parts { ¬ IsRefused result.verdict → explanation.new ≡ explanation.old }
    ensures shows { IsRefused result.verdict
        → IsShownInParts table.now name.now text.old text.new explanation.new result }
{
    match explain_lots(alloc, &given(name, table)) {
        Ok(Some(explained)) => {
            let refused = TownshipAnswer::of_refusal(explained.refusal);
            put_explained(alloc, refused, &explained, text, explanation)
        }
        Ok(None) => TownshipAnswer::bare(ACCEPTED),
        Err(_) => TownshipAnswer::bare(NO_MEMORY),
    }
}

/// Explains why land is refused by a lot table that lacks the lot at a place.
#[tactic(auto, using(crate::proofs::ExplanationPartFacts::shown_text))]
pub fn township_explain_lacking(
    alloc: Global,
    lots: &TownshipLots,
    at: u32,
    name: &[u8],
    text: &mut [u8],
) -> TownshipAnswer
    ensures answer { ExplainsLacking lots.now at text.old text.new result }
    ensures kept { ¬ IsRefused result.verdict → text.new ≡ text.old }
    ensures shows { IsRefused result.verdict → IsTextShown [] name.now text.old text.new result }
{
    let mut parts = TownshipExplanation::none();
    township_explain_lacking_parts(alloc, lots, at, name, text, &mut parts)
}

/// Explains why land is refused by a lot table that lacks the lot at a place, with the parts of the
/// explanation.
pub fn township_explain_lacking_parts(
    alloc: Global,
    lots: &TownshipLots,
    at: u32,
    name: &[u8],
    text: &mut [u8],
    explanation: &mut TownshipExplanation,
) -> TownshipAnswer
    ensures answer { ExplainsLacking lots.now at text.old text.new result }
    ensures kept { ¬ IsRefused result.verdict → text.new ≡ text.old }
    ensures kept_parts { ¬ IsRefused result.verdict → explanation.new ≡ explanation.old }
    ensures shows { IsRefused result.verdict
        → IsShownInParts [] name.now text.old text.new explanation.new result }
{
    let Some(_township) = lots.township.township() else {
        return TownshipAnswer::bare(NO_LOTS);
    };
    let Some(lot) = lacking_at(&lots.lots, at) else {
        return TownshipAnswer::bare(ACCEPTED);
    };
    match explain_lacking(
        alloc,
        &lots.lots,
        &given(name, b""),
        lot.section,
        lot.number,
    ) {
        Ok(explained) => {
            let refused = TownshipAnswer::of_refusal(explained.refusal);
            put_explained(alloc, refused, &explained, text, explanation)
        }
        Err(_) => TownshipAnswer::bare(NO_MEMORY),
    }
}

/// A section, and the number of a lot.
#[derive(Clone, Copy)]
struct LotOfSection {
    section: Section,
    number: u8,
}

/// The lot at a place, if a table lacks it: 100 times its section's number, and its own number.
fn lacking_at(lots: &ReturnedLots, at: u32) -> Option<LotOfSection>
    ensures { MatchOption result (IsNoLackingAt lots.now at)
        (λ lot. IsLackingAt lots.now at lot.section lot.number) }
{
    if at / 100 > 36 {
        return None;
    }
    let section = Section::new((at / 100) as u8)?;
    let number = (at % 100) as u8;
    if !lots.plat.has_lot(section, u16::from(number)) {
        return None;
    }
    if lots.figure(section, number).is_some() {
        return None;
    }
    Some(LotOfSection { section, number })
}
