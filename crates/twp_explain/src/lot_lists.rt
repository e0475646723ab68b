//! Explanations of lists of tracts by a lot table: on its plat, with its lots.
ghost use Rattle.std.specs.Prelude.{◌≡◌, Some, None, IfOk, IfSome};
ghost use Rattle.twp_answers.specs.LotTractFaults.{IsFirstFaultByLots};
ghost use Rattle.twp_answers.specs.TractFaults.{refusal_of};
ghost use Rattle.twp_diagnose.specs.ShownMessages.{ShowsIn};
ghost use Rattle.twp_explain.specs.LotListRefusals.{HasAccountByLots};

use crate::on_plat::ExplainedFault;
use crate::tracts::{find, find_none, write_tract};
use std::alloc::{AllocError, Global};
use twp_answers::{TractFault, account_by_lots};
use twp_diagnose::{Explanation, Finding, Given, Listed, Location, Suggests};
use twp_grid::{Refusal, SECTIONS, Section, Township};
use twp_land::PlatLots;
use twp_plat::{LackingLot, ReturnedLots};
use twp_sentences::find_lacking;

/// The number of the refusal of land with a lot that a lot table lacks.
const LACKING: u8 = 94;

/// The explanation of a list of tracts that has no account by a lot table.
pub fn explain_tracts_by_lots<S: Suggests>(
    alloc: Global,
    township: Township,
    lots: &ReturnedLots,
    tracts: &Given<'_>,
) -> Result<Option<ExplainedFault>, AllocError>
    ensures first { IfOk result (λ explained. IfSome explained (λ it.
        IsFirstFaultByLots township lots.now tracts.now.bytes.now it.fault)) }
    ensures refusal { IfOk result (λ explained. IfSome explained (λ it.
        refusal_of it.fault ≡ Some it.explanation.refusal)) }
    ensures none { IfOk result (λ explained. explained ≡ None
        → HasAccountByLots township lots.now tracts.now.bytes.now) }
    ensures shows { IfOk result (λ explained. IfSome explained (λ it. ShowsIn tracts.now it.explanation)) }
{
    let Some(fault) = fault_by_lots(alloc, township, lots, tracts.bytes)? else {
        return Ok(None);
    };
    let Some(refusal) = fault.refusal() else {
        return Err(AllocError);
    };
    let explanation = explain_fault_by_lots::<S>(alloc, tracts, township, lots, fault, refusal)?;
    Ok(Some(ExplainedFault { fault, explanation }))
}

/// The first fault of a list of tracts by a lot table, where it has one.
#[tactic(auto, using(crate::proofs::LotListFacts::is_first_by, crate::proofs::LotListFacts::has_account))]
#[inline(never)]
fn fault_by_lots(
    alloc: Global,
    township: Township,
    lots: &ReturnedLots,
    bytes: &[u8],
) -> Result<Option<TractFault>, AllocError>
    ensures first { IfOk result (λ found. IfSome found
        (IsFirstFaultByLots township lots.now bytes.now)) }
    ensures none { IfOk result (λ found. found ≡ None
        → HasAccountByLots township lots.now bytes.now) }
{
    match account_by_lots(alloc, township, lots, bytes) {
        Ok(_) => Ok(None),
        Err(TractFault::Memory) => Err(AllocError),
        Err(fault) => Ok(Some(fault)),
    }
}

/// The message of the fault of a list by a lot table.
#[inline(never)]
fn explain_fault_by_lots<S: Suggests>(
    alloc: Global,
    tracts: &Given<'_>,
    township: Township,
    lots: &ReturnedLots,
    fault: TractFault,
    refusal: Refusal,
) -> Result<Explanation, AllocError>
    ensures refusal { IfOk result (λ explanation. explanation.refusal ≡ refusal) }
    ensures shows { IfOk result (ShowsIn tracts.now) }
{
    let finding = match lacking_in(fault) {
        Some(lot) => find_lacking_in(alloc, tracts, lots, lot, fault, refusal)?,
        None => find::<S, PlatLots>(alloc, tracts, township, &lots.plat, fault, refusal)?,
    };
    finding.explain(alloc, tracts)
}

/// The lot that a table lacks, if a tract is refused for it.
fn lacking_in(fault: TractFault) -> Option<LackingLot> {
    let TractFault::TractRefused { inner, .. } = fault else {
        return None;
    };
    if inner.number != LACKING || inner.at / 100 > u32::from(SECTIONS) {
        return None;
    }
    let section = Section::new((inner.at / 100) as u8)?;
    let number = (inner.at % 100) as u8;
    Some(LackingLot { section, number })
}

/// The explanation of a list with a tract that contains a lot which a table lacks: it shows the tract's line.
#[inline(never)]
fn find_lacking_in(
    alloc: Global,
    tracts: &Given<'_>,
    lots: &ReturnedLots,
    lot: LackingLot,
    fault: TractFault,
    refusal: Refusal,
) -> Result<Finding, AllocError>
    ensures refusal { IfOk result (λ finding. finding.refusal ≡ refusal) }
{
    let Some(listed) = Listed::numbered(alloc, *tracts, refusal.at)? else {
        return find_none(alloc, fault, refusal);
    };
    let lacking = find_lacking(alloc, lots, lot.section, lot.number)?;
    let mut sentence = String::new(alloc);
    write_tract(&listed, &mut sentence)?;
    sentence.push_str(": ")?;
    sentence.push_str(lacking.sentence.as_str())?;
    let place = Location::Line(listed.start());
    Ok(Finding::new(refusal, place, sentence, lacking.help))
}
