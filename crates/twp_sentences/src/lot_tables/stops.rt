//! What stops the reading of a lot table.
ghost use Rattle.std.specs.Prelude.{◌≡◌, Some};
ghost use Rattle.twp_plat.specs.LotsFaults.{refusal_of as refusal_of_lots};
ghost use Rattle.twp_diagnose.specs.Findings.{IfFound};

use crate::lot_tables::tables;
use std::alloc::Global;
use twp_diagnose::{Given, SearchStop};
use twp_plat::LotsFault;

/// What is wrong with a lot table that has a fault.
#[tactic(auto, using(twp_diagnose::proofs::FindingFacts::of_fault))]
#[inline(never)]
pub fn stop_of_lots(alloc: Global, table: &Given<'_>, fault: LotsFault) -> SearchStop
    ensures { IfFound result (λ refusal. refusal_of_lots fault ≡ Some refusal) }
{
    let Some(refusal) = fault.refusal() else {
        return SearchStop::Memory;
    };
    SearchStop::of(refusal, tables::find(alloc, table, fault, refusal))
}
