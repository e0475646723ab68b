//! What stops a run on a description.
ghost use Rattle.std.specs.Prelude.{◌≡◌, ◌≢◌, Some, None, IfSome};
ghost use Rattle.twp_read.specs.TextFaults.{refusal_of as refusal_of_text};
ghost use Rattle.twp_resolve.specs.PlaceFaults.{refusal_of as refusal_of_places};
ghost use Rattle.twp_read.specs.declared.fault.TextFault.TheVariants.{TooLarge};
ghost use Rattle.twp_diagnose.specs.Findings.{IfFinds, IfFound};
ghost use Rattle.twp_grid.specs.Lands.{lotting};
ghost use Rattle.twp_sentences.specs.OtherPlaces.{IsOtherPlace};
ghost use Rattle.twp_sentences.specs.ShownPlaces.{IfShown};
ghost use Rattle.twp_diagnose.specs.Suggestions.{NamesLandOf};
ghost use Rattle.twp_sentences.specs.Underlined.{EndsWithFault, EndsWithSign};

use crate::descriptions::{places, text};
use std::alloc::Global;
use twp_diagnose::{Origin, SearchStop, Suggests};
use twp_grid::Township;
use twp_land::Lotting;
use twp_read::{Description, TextFault};
use twp_resolve::PlaceFault;

/// What is wrong with a text that isn't read. A reading that the explanation ends with names land on the
/// plat of the township.
#[tactic(auto, using(twp_diagnose::proofs::FindingFacts::of_fault, twp_diagnose::proofs::FindingFacts::of_found, crate::proofs::ShownFacts::text_shown))]
#[inline(never)]
pub fn stop_of_text<S: Suggests, P: Lotting>(
    alloc: Global,
    origin: &Origin<'_>,
    bytes: &[u8],
    township: Township,
    lots: &P,
    fault: TextFault,
) -> SearchStop
    ensures refusal { IfFound result (λ refusal. refusal_of_text fault ≡ Some refusal) }
    ensures shown { IfShown origin.now bytes.now result }
    ensures ends { fault ≢ TooLarge → IfFinds result (λ finding.
        EndsWithSign origin.now bytes.now finding.refusal.at finding.place) }
    ensures other { IfFinds result (λ finding. finding.other ≡ None) }
    ensures reading { IfFinds result (λ finding.
        IfSome finding.reading
        (λ text. NamesLandOf (lotting (P.layout lots.now)) township text.items)) }
{
    let Some(refusal) = fault.refusal() else {
        return SearchStop::Memory;
    };
    SearchStop::of(
        refusal,
        text::find::<S, P>(alloc, origin, bytes, township, lots, fault, refusal),
    )
}

/// What is wrong with a description that names no land on the plat of the township with these lots.
#[tactic(auto, using(twp_diagnose::proofs::FindingFacts::of_fault, twp_diagnose::proofs::FindingFacts::of_found, crate::proofs::ShownFacts::items_shown))]
#[inline(never)]
pub fn stop_of_places<P: Lotting>(
    alloc: Global,
    origin: &Origin<'_>,
    bytes: &[u8],
    description: &Description,
    township: Township,
    lots: &P,
    fault: PlaceFault,
) -> SearchStop
    ensures refusal { IfFound result (λ refusal. refusal_of_places fault ≡ Some refusal) }
    ensures shown { IfShown origin.now bytes.now result }
    ensures ends { IfFinds result (λ finding.
        EndsWithFault origin.now bytes.now description.now fault finding.place) }
    ensures other { IfFinds result (λ finding.
        IsOtherPlace (lotting (P.layout lots.now)) origin.now bytes.now township description.now fault
        finding.other) }
{
    let Some(refusal) = fault.refusal() else {
        return SearchStop::Memory;
    };
    SearchStop::of(
        refusal,
        places::find(
            alloc,
            origin,
            bytes,
            description,
            township,
            lots,
            fault,
            refusal,
        ),
    )
}
