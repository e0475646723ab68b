//! What a call answers.
ghost use Rattle.std.specs.Prelude.{◌≡◌};
ghost use Rattle.twp_calls.specs.Answers.{bare, accepted_acres, refused, tract_refused};
ghost use Rattle.twp_calls.specs.Answers.{stopped, answer_of_fault, answer_of_refusal};
ghost use Rattle.twp_plat.specs.LotsFaults.{refusal_of};

use crate::verdict;
use twp_answers::{Stop, TractFault};
use twp_grid::Refusal;
use twp_plat::LotsFault;

/// What a call answers: what a verdict doesn't speak of is 0, but `NO_ROOM` keeps what there was to
/// say.
#[repr(C)]
#[derive(Clone, Copy, PartialEq, Eq)]
pub struct TownshipAnswer {
    /// One of the numbers of `verdict`.
    pub verdict: u32,
    /// The number of a refusal.
    pub number: u32,
    /// And its place: a record, a section line, or a byte.
    pub at: u32,
    /// The refusal of a tract's description.
    pub inner_number: u32,
    /// And its place in that description.
    pub inner_at: u32,
    /// The line of an explained fault, from 1.
    pub line: u32,
    /// And its column, from 1.
    pub column: u32,
    /// Nothing: 0.
    pub reserved: u32,
    /// Hundredths of an acre.
    pub hundredths: u64,
    /// How many bytes a text has, written or not.
    pub length: u64,
}

impl TownshipAnswer {
    /// A verdict that nothing goes with.
    pub(crate) fn bare(verdict: u32) -> TownshipAnswer
        ensures { result ≡ bare verdict }
    {
        TownshipAnswer {
            verdict,
            number: 0,
            at: 0,
            inner_number: 0,
            inner_at: 0,
            line: 0,
            column: 0,
            reserved: 0,
            hundredths: 0,
            length: 0,
        }
    }

    /// The hundredths of an acre of accepted land.
    pub(crate) fn of_acres(hundredths: u64) -> TownshipAnswer
        ensures { result ≡ accepted_acres hundredths }
    {
        TownshipAnswer {
            hundredths,
            ..TownshipAnswer::bare(verdict::ACCEPTED)
        }
    }

    /// A refusal.
    pub(crate) fn of_refusal(refusal: Refusal) -> TownshipAnswer
        ensures { result ≡ refused refusal }
    {
        TownshipAnswer {
            number: u32::from(refusal.number),
            at: refusal.at,
            ..TownshipAnswer::bare(verdict::REFUSED)
        }
    }

    /// The refusal of a tract whose description is refused itself.
    pub(crate) fn of_tract(tract: u32, inner: Refusal) -> TownshipAnswer
        ensures { result ≡ tract_refused tract inner }
    {
        TownshipAnswer {
            number: verdict::TRACT_NUMBER,
            at: tract,
            inner_number: u32::from(inner.number),
            inner_at: inner.at,
            ..TownshipAnswer::bare(verdict::TRACT_REFUSED)
        }
    }

    /// Why there is no answer. What is read are bytes in memory, which don't fail.
    pub(crate) fn of_stop(stop: Stop) -> TownshipAnswer
        ensures { result ≡ stopped stop }
    {
        match stop {
            Stop::Refused(refusal) => TownshipAnswer::of_refusal(refusal),
            Stop::Failed(_) => TownshipAnswer::bare(verdict::NO_MEMORY),
        }
    }

    /// Why bytes are no lot table. They are in memory, so reading them doesn't fail.
    pub(crate) fn of_lots_fault(fault: LotsFault) -> TownshipAnswer
        ensures { result ≡ answer_of_refusal (refusal_of fault) }
    {
        match fault.refusal() {
            Some(refusal) => TownshipAnswer::of_refusal(refusal),
            None => TownshipAnswer::bare(verdict::NO_MEMORY),
        }
    }

    /// Why a list of tracts has no account.
    pub(crate) fn of_fault(fault: TractFault) -> TownshipAnswer
        ensures { result ≡ answer_of_fault fault }
    {
        if let TractFault::TractRefused { at, inner } = fault {
            return TownshipAnswer::of_tract(at, inner);
        }
        match fault.refusal() {
            Some(refusal) => TownshipAnswer::of_refusal(refusal),
            None => TownshipAnswer::bare(verdict::NO_MEMORY),
        }
    }
}
