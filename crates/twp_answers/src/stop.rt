use std::alloc::{AllocError, AllocFailed};
use thiserror::Error;
use twp_grid::Refusal;
use twp_notes::{NotesFault, ReadFault};
use twp_plat::PlatFault;
use twp_read::TextFault;
use twp_resolve::PlaceFault;

/// The verdict of a run, apart from the text that it wrote.
#[derive(Clone, Copy, PartialEq, Eq)]
pub enum Verdict {
    /// The input was accepted.
    Accepted,
    /// The input was refused, for its first fault.
    Refused(Refusal),
    /// An account was refused for a tract whose description was itself refused.
    TractRefused {
        /// The tract's record; that of the heading is 1.
        at: u32,
        /// The refusal of its description, with a place in the description.
        inner: Refusal,
    },
}

/// Why a run gave no verdict.
#[derive(Clone, Copy, Debug, PartialEq, Eq, Error)]
pub enum RunFault {
    /// A reader failed.
    #[error("cannot read")]
    Read,
    /// The writer failed.
    #[error("cannot write")]
    Write,
    /// Memory ran out.
    #[error("out of memory")]
    Memory,
}

impl From<AllocError> for RunFault {
    ghost use Rattle.std.specs.Prelude.{◌≡◌};
    ghost use Rattle.twp_answers.specs.declared.stop.RunFault.TheVariants.{Memory};

    ghost from_gives = { λ _ fault. fault ≡ Memory };

    fn from(_fault: AllocError) -> RunFault {
        RunFault::Memory
    }
}

impl<T: Drop> From<AllocFailed<T>> for RunFault {
    ghost use Rattle.std.specs.Prelude.{◌≡◌};
    ghost use Rattle.twp_answers.specs.declared.stop.RunFault.TheVariants.{Memory};

    ghost from_gives = { λ _ fault. fault ≡ Memory };

    fn from(_fault: AllocFailed<T>) -> RunFault {
        RunFault::Memory
    }
}

impl From<ReadFault> for RunFault {
    ghost use Rattle.twp_answers.specs.steps.PassedFaults.{IsRunFaultOf};

    ghost from_gives = { IsRunFaultOf };

    fn from(fault: ReadFault) -> RunFault {
        match fault {
            ReadFault::Read => RunFault::Read,
            ReadFault::Memory => RunFault::Memory,
        }
    }
}

/// Why there is no answer.
#[derive(Clone, Copy, Debug, PartialEq, Eq, Error)]
pub enum Stop {
    /// The input is refused, for its first fault.
    #[error("refused {} at {}", .0.number, .0.at)]
    Refused(Refusal),
    /// Memory ran out, or a reader failed.
    #[error("{0}")]
    Failed(RunFault),
}

impl From<AllocError> for Stop {
    ghost use Rattle.std.specs.Prelude.{◌≡◌};
    ghost use Rattle.twp_answers.specs.declared.stop.Stop.TheVariants.{Failed};
    ghost use Rattle.twp_answers.specs.declared.stop.RunFault.TheVariants.{Memory};

    ghost from_gives = { λ _ stop. stop ≡ Failed Memory };

    fn from(_fault: AllocError) -> Stop {
        Stop::Failed(RunFault::Memory)
    }
}

impl From<NotesFault> for Stop {
    ghost use Rattle.twp_answers.specs.steps.PassedFaults.{IsStopOfNotes};

    ghost from_gives = { IsStopOfNotes };

    fn from(fault: NotesFault) -> Stop {
        match (fault.refusal(), fault) {
            (Some(refusal), _) => Stop::Refused(refusal),
            (None, NotesFault::Read) => Stop::Failed(RunFault::Read),
            (None, _) => Stop::Failed(RunFault::Memory),
        }
    }
}

impl From<ReadFault> for Stop {
    ghost use Rattle.twp_answers.specs.steps.PassedFaults.{IsStopOfReading};

    ghost from_gives = { IsStopOfReading };

    fn from(fault: ReadFault) -> Stop {
        Stop::Failed(RunFault::from(fault))
    }
}

impl From<PlatFault> for Stop {
    ghost use Rattle.twp_answers.specs.steps.PassedFaults.{IsStopOfPlat};

    ghost from_gives = { IsStopOfPlat };

    fn from(fault: PlatFault) -> Stop {
        match fault.refusal() {
            Some(refusal) => Stop::Refused(refusal),
            None => unreachable!(),
        }
    }
}

impl From<TextFault> for Stop {
    ghost use Rattle.twp_answers.specs.steps.PassedFaults.{IsStopOfText};

    ghost from_gives = { IsStopOfText };

    fn from(fault: TextFault) -> Stop {
        match fault.refusal() {
            Some(refusal) => Stop::Refused(refusal),
            None => Stop::Failed(RunFault::Memory),
        }
    }
}

impl From<PlaceFault> for Stop {
    ghost use Rattle.twp_answers.specs.steps.PassedFaults.{IsStopOfPlaces};

    ghost from_gives = { IsStopOfPlaces };

    fn from(fault: PlaceFault) -> Stop {
        match fault.refusal() {
            Some(refusal) => Stop::Refused(refusal),
            None => unreachable!(),
        }
    }
}
