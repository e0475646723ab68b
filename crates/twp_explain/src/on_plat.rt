//! Explanations without a run: of field notes, and on a plat that is kept of a description and of a
//! list of tracts. The first fault is explained, and nothing is explained where there is none.
ghost use Rattle.std.specs.Prelude.{◌≡◌, Some, None, IfOk, IfSome};
ghost use Rattle.twp_answers.specs.Answers.{MakePlat, IsNoPlat, IsNoDescription};
ghost use Rattle.twp_answers.specs.TractFaults.{IsFirstTractFault, refusal_of};
ghost use Rattle.twp_explain.specs.Refusals.{DescribeLand, HasAccount};
ghost use Rattle.twp_diagnose.specs.ShownMessages.{ShowsIn};
ghost use Rattle.twp_explain.specs.ExplainedPlaces.{IsSpotOfStop, IsExplainedWhereRefused};
ghost use Rattle.twp_diagnose.specs.Findings.{IsOf};
ghost use Rattle.twp_explain.specs.FoundFaults.{IsMessageOf, ShowsLandIn};
ghost use Rattle.twp_grid.specs.Lands.{STANDARD_LOTS, lotting};

use crate::explaining::{describe, plat_of};
use crate::list::{explain_fault, fault_of};
use std::alloc::{AllocError, Global};
use twp_answers::TractFault;
use twp_diagnose::{Explanation, Given, Origin, SearchStop, Suggests};
use twp_grid::Township;
use twp_land::{Lotting, StandardLots};
use twp_plat::Plat;

/// The explanation of field notes that make no plat.
pub fn explain_notes(alloc: Global, notes: &Given<'_>) -> Result<Option<Explanation>, AllocError>
    ensures refusal { IfOk result (λ explained. IfSome explained (λ explanation.
        IsNoPlat notes.now.bytes.now explanation.refusal)) }
    ensures none { IfOk result (λ explained. explained ≡ None → MakePlat notes.now.bytes.now) }
    ensures shows { IfOk result (λ explained. IfSome explained (ShowsIn notes.now)) }
{
    match plat_of(alloc, notes) {
        Ok(_) => Ok(None),
        Err(stop) => Ok(Some(explain_stop(alloc, notes, stop)?)),
    }
}

/// The explanation of the bytes of a description that describe no land on the plat of a township with these
/// lots.
pub fn explain_description<S: Suggests, P: Lotting>(
    alloc: Global,
    township: Township,
    description: &Given<'_>,
    lots: &P,
) -> Result<Option<Explanation>, AllocError>
    ensures refusal { IfOk result (λ explained. IfSome explained (λ explanation.
        IsNoDescription (lotting (P.layout lots.now)) township description.now.bytes.now
        explanation.refusal)) }
    ensures spot { IfOk result (λ explained. IfSome explained (IsExplainedWhereRefused description.now)) }
    ensures none { IfOk result (λ explained. explained ≡ None
        → DescribeLand (lotting (P.layout lots.now)) township description.now.bytes.now) }
    ensures shows { IfOk result (λ explained. IfSome explained (ShowsIn description.now)) }
    ensures place { IfOk result (λ explained. IfSome explained
        (ShowsLandIn (lotting (P.layout lots.now)) township description.now)) }
{
    let origin = Origin::of_file(*description);
    match describe::<S, P>(alloc, &origin, description.bytes, township, lots) {
        Ok(()) => Ok(None),
        Err(stop) => Ok(Some(explain_stop(alloc, description, stop)?)),
    }
}

/// The fault of a list of tracts, and its explanation.
#[derive(Drop)]
pub struct ExplainedFault {
    /// The list's first fault.
    pub fault: TractFault,
    /// Its explanation.
    pub explanation: Explanation,
}

/// The explanation of a list of tracts that has no account on a plat.
pub fn explain_tracts<S: Suggests>(
    alloc: Global,
    plat: &Plat,
    tracts: &Given<'_>,
) -> Result<Option<ExplainedFault>, AllocError>
    ensures first { IfOk result (λ explained. IfSome explained (λ it.
        IsFirstTractFault STANDARD_LOTS plat.now.township tracts.now.bytes.now it.fault)) }
    ensures refusal { IfOk result (λ explained. IfSome explained (λ it.
        refusal_of it.fault ≡ Some it.explanation.refusal)) }
    ensures none { IfOk result (λ explained. explained ≡ None → HasAccount plat.now tracts.now.bytes.now) }
    ensures shows { IfOk result (λ explained. IfSome explained (λ it. ShowsIn tracts.now it.explanation)) }
{
    let Some(fault) = fault_of(alloc, plat, tracts.bytes)? else {
        return Ok(None);
    };
    let Some(refusal) = fault.refusal() else {
        return Err(AllocError);
    };
    let explanation = explain_fault::<S, StandardLots>(
        alloc,
        tracts,
        plat.township(),
        &StandardLots,
        fault,
        refusal,
    )?;
    Ok(Some(ExplainedFault { fault, explanation }))
}

/// The message of a stop, where memory didn't run out.
pub(crate) fn explain_stop(
    alloc: Global,
    file: &Given<'_>,
    stop: SearchStop,
) -> Result<Explanation, AllocError>
    ensures refusal { IfOk result (λ explanation. IsOf stop explanation.refusal) }
    ensures spot { IfOk result (IsSpotOfStop file.now stop) }
    ensures shows { IfOk result (ShowsIn file.now) }
    ensures place { IfOk result (IsMessageOf stop) }
{
    let SearchStop::Found(finding) = stop else {
        return Err(AllocError);
    };
    finding.explain(alloc, file)
}
