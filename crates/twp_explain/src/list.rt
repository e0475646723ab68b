//! The explanation of a refused list of tracts.
ghost use Rattle.std.specs.Prelude.{◌≡◌, ◌<◌, ◌≤◌, Some, None, length, IfOk, IfSome};
ghost use Rattle.twp_answers.specs.TractFaults.{IsFirstTractFault, refusal_of, verdict_of};
ghost use Rattle.twp_diagnose.specs.ShownMessages.{ShowsIn};
ghost use Rattle.twp_explain.specs.ShownFaults.{ShowsFault};
ghost use Rattle.twp_explain.specs.Refusals.{IsListRefusal, HasAccount, first_refusal};
ghost use Rattle.twp_grid.specs.Lands.{STANDARD_LOTS};

use crate::explaining::{explain, plat_of};
use crate::tracts;
use std::alloc::{AllocError, Global};
use twp_answers::{TRACTS_LIMIT, TractFault, Verdict, account_of_tracts};
use twp_diagnose::{Explanation, Given, Suggests};
use twp_grid::{Refusal, Township};
use twp_land::{Lotting, StandardLots};
use twp_plat::Plat;

/// The explanation of field notes and a list of tracts that a run refused. None where they don't have
/// the verdict's fault.
#[tactic(auto, using(crate::proofs::ListFacts::same_refusal, crate::proofs::ListFacts::told_of_notes, crate::proofs::ListFacts::told_of_list))]
pub fn explain_list<S: Suggests>(
    alloc: Global,
    notes: &Given<'_>,
    tracts: &Given<'_>,
    verdict: Verdict,
) -> Result<Option<Explanation>, AllocError>
    ensures refusal { IfOk result (λ explained. IfSome explained (λ explanation.
        IsListRefusal notes.now.bytes.now tracts.now.bytes.now verdict explanation.refusal)) }
    ensures verdict { IfOk result (λ explained. IfSome explained (λ explanation.
        first_refusal verdict ≡ Some explanation.refusal)) }
    ensures shows { IfOk result (λ explained. IfSome explained (ShowsFault notes.now tracts.now)) }
{
    let plat = match plat_of(alloc, notes) {
        Ok(plat) => plat,
        Err(stop) => return explain(alloc, notes, stop, verdict),
    };
    let Some(fault) = fault_of(alloc, &plat, tracts.bytes)? else {
        return Ok(None);
    };
    let Some(refusal) = refusal_by(fault, verdict) else {
        return Ok(None);
    };
    let explanation = explain_fault::<S, StandardLots>(
        alloc,
        tracts,
        plat.township(),
        &StandardLots,
        fault,
        refusal,
    )?;
    Ok(Some(explanation))
}

/// The refusal of a fault, where the verdict is on this fault.
fn refusal_by(fault: TractFault, verdict: Verdict) -> Option<Refusal>
    ensures { IfSome result (λ refusal.
        (verdict_of fault ≡ Some verdict) × (refusal_of fault ≡ Some refusal)) }
{
    if fault.verdict() != Some(verdict) {
        return None;
    }
    fault.refusal()
}

/// The message of the fault of a list on the plat of a township with these lots.
#[inline(never)]
pub(crate) fn explain_fault<S: Suggests, P: Lotting>(
    alloc: Global,
    tracts: &Given<'_>,
    township: Township,
    lots: &P,
    fault: TractFault,
    refusal: Refusal,
) -> Result<Explanation, AllocError>
    ensures refusal { IfOk result (λ explanation. explanation.refusal ≡ refusal) }
    ensures shows { IfOk result (ShowsIn tracts.now) }
{
    let finding = tracts::find::<S, P>(alloc, tracts, township, lots, fault, refusal)?;
    finding.explain(alloc, tracts)
}

/// The first fault of a list of tracts, where it has one.
#[inline(never)]
pub(crate) fn fault_of(
    alloc: Global,
    plat: &Plat,
    bytes: &[u8],
) -> Result<Option<TractFault>, AllocError>
    ensures first { IfOk result (λ found. IfSome found
        (IsFirstTractFault STANDARD_LOTS plat.now.township bytes.now)) }
    ensures none { IfOk result (λ found. found ≡ None → HasAccount plat.now bytes.now) }
{
    if bytes.len() > TRACTS_LIMIT as usize {
        return Ok(Some(TractFault::TractsTooLarge));
    }
    match account_of_tracts(alloc, plat, bytes) {
        Ok(_) => Ok(None),
        Err(TractFault::Memory) => Err(AllocError),
        Err(fault) => Ok(Some(fault)),
    }
}
