//! Explanations, by what was asked of a run. Each stage of the run is gone through again on the
//! bytes that it read, up to its refusal.
ghost use Rattle.std.specs.Prelude.{◌≡◌, Some, None, IfOk, IfSome, IfErr};
ghost use Rattle.twp_answers.specs.Answers.{ArePlatted, MakePlat, IsNoPlat, IsNoDescription, IsRefusal};
ghost use Rattle.twp_explain.specs.Refusals.{IsOfNone, IsNotOf, DescribeLand};
ghost use Rattle.twp_explain.specs.ExplainedPlaces.{IsSpotOfStop, IsExplainedWhereRefused};
ghost use Rattle.twp_diagnose.specs.Findings.{IfFinds, IfFound, IsOf};
ghost use Rattle.twp_diagnose.specs.ShownMessages.{ShowsIn};
ghost use Rattle.twp_explain.specs.FoundFaults.{ShowsFound};
ghost use Rattle.twp_explain.specs.ShownFaults.{ShowsFault};
ghost use Rattle.twp_answers.specs.declared.stop.Verdict.TheVariants.{Refused};
ghost use Rattle.twp_grid.specs.Lands.{lotting};

use std::alloc::{AllocError, Global};
use twp_answers::Verdict;
use twp_diagnose::{Explanation, Given, Origin, SearchStop, Suggests};
use twp_grid::{Bytes, Township};
use twp_land::{Lanes, Lotting, StandardLots};
use twp_notes::Notes;
use twp_plat::Plat;
use twp_read::Description;
use twp_resolve::resolve;
use twp_sentences::{stop_of_notes, stop_of_places, stop_of_plat, stop_of_text};

/// The explanation of field notes that a run of them alone refused. None where they don't have the
/// verdict's fault.
pub fn explain_plat(
    alloc: Global,
    notes: &Given<'_>,
    verdict: Verdict,
) -> Result<Option<Explanation>, AllocError>
    ensures refusal { IfOk result (λ explained. IfSome explained (λ explanation.
        IsNoPlat notes.now.bytes.now explanation.refusal)) }
    ensures verdict { IfOk result (λ explained. IfSome explained (λ explanation.
        verdict ≡ Refused explanation.refusal)) }
    ensures none { IfOk result (λ explained. explained ≡ None
        → IsOfNone (IsNoPlat notes.now.bytes.now) verdict) }
    ensures shows { IfOk result (λ explained. IfSome explained (ShowsIn notes.now)) }
{
    match plat_of(alloc, notes) {
        Ok(_) => Ok(None),
        Err(stop) => explain(alloc, notes, stop, verdict),
    }
}

/// The explanation of field notes and a description that a run refused. None where they don't have the
/// verdict's fault.
pub fn explain_land<S: Suggests>(
    alloc: Global,
    notes: &Given<'_>,
    description: &Given<'_>,
    verdict: Verdict,
) -> Result<Option<Explanation>, AllocError>
    ensures refusal { IfOk result (λ explained. IfSome explained (λ explanation.
        IsRefusal notes.now.bytes.now description.now.bytes.now explanation.refusal)) }
    ensures verdict { IfOk result (λ explained. IfSome explained (λ explanation.
        verdict ≡ Refused explanation.refusal)) }
    ensures spot { MakePlat notes.now.bytes.now → IfOk result (λ explained. IfSome explained
        (IsExplainedWhereRefused description.now)) }
    ensures none { IfOk result (λ explained. explained ≡ None
        → IsOfNone (IsRefusal notes.now.bytes.now description.now.bytes.now) verdict) }
    ensures shows { IfOk result (λ explained. IfSome explained (ShowsFault notes.now description.now)) }
{
    let plat = match plat_of(alloc, notes) {
        Ok(plat) => plat,
        Err(stop) => return explain(alloc, notes, stop, verdict),
    };
    let origin = Origin::of_file(*description);
    match describe::<S, StandardLots>(
        alloc,
        &origin,
        description.bytes,
        plat.township(),
        &StandardLots,
    ) {
        Ok(()) => Ok(None),
        Err(stop) => explain(alloc, description, stop, verdict),
    }
}

/// The message of a stop, where it is for the verdict's refusal.
pub(crate) fn explain(
    alloc: Global,
    file: &Given<'_>,
    stop: SearchStop,
    verdict: Verdict,
) -> Result<Option<Explanation>, AllocError>
    ensures found { IfOk result (λ explained. IfSome explained (λ explanation.
        IsOf stop explanation.refusal)) }
    ensures verdict { IfOk result (λ explained. IfSome explained (λ explanation.
        verdict ≡ Refused explanation.refusal)) }
    ensures spot { IfOk result (λ explained. IfSome explained (IsSpotOfStop file.now stop)) }
    ensures none { IfOk result (λ explained. explained ≡ None → IsNotOf stop verdict) }
    ensures shows { IfOk result (λ explained. IfSome explained (ShowsIn file.now)) }
{
    let SearchStop::Found(finding) = stop else {
        return Err(AllocError);
    };
    if verdict != Verdict::Refused(finding.refusal) {
        return Ok(None);
    }
    Ok(Some(finding.explain(alloc, file)?))
}

/// The plat of field notes, or what is wrong with them.
#[tactic(auto, using(crate::proofs::FindingFacts::notes_refused, crate::proofs::FindingFacts::lines_refused))]
#[inline(never)]
pub(crate) fn plat_of(alloc: Global, file: &Given<'_>) -> Result<Plat, SearchStop>
    ensures plat { IfOk result (λ plat. ArePlatted file.now.bytes.now plat) }
    ensures found { IfErr result (λ stop. IfFound stop (IsNoPlat file.now.bytes.now)) }
{
    let notes = match Notes::read(alloc, &mut Bytes::new(file.bytes)) {
        Ok(notes) => notes,
        Err(fault) => return Err(stop_of_notes(alloc, file, fault)),
    };
    match Plat::protract(&notes) {
        Ok(plat) => Ok(plat),
        Err(fault) => Err(stop_of_plat(alloc, file, &notes, fault)),
    }
}

/// Goes through a text that describes land on the plat of a township with these lots, or gives what is
/// wrong with it.
#[tactic(auto, using(crate::proofs::FindingFacts::text_refused, crate::proofs::FindingFacts::items_refused))]
#[inline(never)]
pub(crate) fn describe<S: Suggests, P: Lotting>(
    alloc: Global,
    origin: &Origin<'_>,
    bytes: &[u8],
    township: Township,
    lots: &P,
) -> Result<(), SearchStop>
    ensures land { IfOk result (λ _. DescribeLand (lotting (P.layout lots.now)) township bytes.now) }
    ensures found { IfErr result (λ stop. IfFound stop
        (IsNoDescription (lotting (P.layout lots.now)) township bytes.now)) }
    ensures shown { IfErr result (λ stop. IfFinds stop
        (ShowsFound (lotting (P.layout lots.now)) origin.now township bytes.now)) }
{
    let description = match Description::read(alloc, bytes) {
        Ok(description) => description,
        Err(fault) => {
            return Err(stop_of_text::<S, P>(alloc, origin, bytes, township, lots, fault));
        }
    };
    match resolve::<Lanes, P>(&description, township, lots) {
        Ok(_) => Ok(()),
        Err(fault) => Err(stop_of_places(
            alloc,
            origin,
            bytes,
            &description,
            township,
            lots,
            fault,
        )),
    }
}
