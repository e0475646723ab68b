//! What stops a run on field notes.
ghost use Rattle.std.specs.Prelude.{◌≡◌, Some};
ghost use Rattle.twp_notes.specs.NotesFaults.{refusal_of as refusal_of_notes};
ghost use Rattle.twp_plat.specs.PlatFaults.{refusal_of as refusal_of_plat};
ghost use Rattle.twp_diagnose.specs.Findings.{IfFound};

use crate::field_notes::{notes, plat};
use std::alloc::Global;
use twp_diagnose::{Given, SearchStop};
use twp_notes::{Notes, NotesFault};
use twp_plat::PlatFault;

/// What is wrong with notes that have a fault.
#[tactic(auto, using(twp_diagnose::proofs::FindingFacts::of_fault))]
#[inline(never)]
pub fn stop_of_notes(alloc: Global, file: &Given<'_>, fault: NotesFault) -> SearchStop
    ensures { IfFound result (λ refusal. refusal_of_notes fault ≡ Some refusal) }
{
    let Some(refusal) = fault.refusal() else {
        return SearchStop::Memory;
    };
    SearchStop::of(refusal, notes::find(alloc, file, fault, refusal))
}

/// What is wrong with notes that make no plat.
#[tactic(auto, using(twp_diagnose::proofs::FindingFacts::of_fault))]
#[inline(never)]
pub fn stop_of_plat(alloc: Global, file: &Given<'_>, notes: &Notes, fault: PlatFault) -> SearchStop
    ensures { IfFound result (λ refusal. refusal_of_plat fault ≡ Some refusal) }
{
    let Some(refusal) = fault.refusal() else {
        return SearchStop::Memory;
    };
    SearchStop::of(refusal, plat::find(alloc, file, notes, fault, refusal))
}
