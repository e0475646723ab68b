//! The basis of the answers to many descriptions.
ghost use Rattle.std.specs.Prelude.{ℕ};
ghost use Rattle.twp_calls.specs.Answers.{bare};
ghost use Rattle.twp_calls.specs.Calls.{IsAcresCall};
ghost use Rattle.twp_calls.specs.ManyAnswers.{IsBasisVerdict};
ghost use Rattle.twp_calls.specs.declared.plat.TownshipPlat.{TownshipPlat};
ghost use Rattle.twp_calls.specs.steps.BasisSteps.{IsBasis};

use crate::account::account_of;
use crate::answer::TownshipAnswer;
use crate::plat::TownshipPlat;
use crate::verdict::{ACCEPTED, NO_ACCOUNT, NO_PLAT};
use std::alloc::Global;
use twp_answers::acres_on;
use twp_plat::{Account, Plat};

/// The plat and the account that were given.
#[derive(Drop)]
pub(crate) enum Basis {
    /// Both are valid.
    Valid(Plat, Account),
    /// The verdict on the first of them that is not valid.
    Invalid(u32),
}

impl Basis {
    /// The plat and the account.
    pub(crate) fn of(plat: &TownshipPlat, account: u32) -> Basis
        ensures { IsBasis plat.now account result }
    {
        let Some(plat) = plat.plat() else {
            return Basis::Invalid(NO_PLAT);
        };
        let Some(account) = account_of(account) else {
            return Basis::Invalid(NO_ACCOUNT);
        };
        Basis::Valid(plat, account)
    }

    /// The verdict on them.
    pub(crate) fn verdict(&self) -> u32
        ensures { (given : TownshipPlat) (code : ℕ) → IsBasis given code self.now
            → IsBasisVerdict given code (bare result) }
    {
        match self {
            Basis::Valid(..) => ACCEPTED,
            Basis::Invalid(verdict) => *verdict,
        }
    }

    /// What `township_acres` answers about a description.
    pub(crate) fn acres(&self, alloc: Global, description: &[u8]) -> TownshipAnswer
        ensures { (given : TownshipPlat) (code : ℕ) → IsBasis given code self.now
            → IsAcresCall given description.now code result }
    {
        let (plat, account) = match self {
            Basis::Valid(plat, account) => (plat, *account),
            Basis::Invalid(verdict) => return TownshipAnswer::bare(*verdict),
        };
        match acres_on(alloc, plat, description, account) {
            Ok(hundredths) => TownshipAnswer::of_acres(hundredths),
            Err(stop) => TownshipAnswer::of_stop(stop),
        }
    }
}
