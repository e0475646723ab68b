use crate::stop::Verdict;
use std::alloc::{AllocError, AllocFailed};
use thiserror::Error;
use twp_grid::Refusal;

/// The most bytes of a list of tracts, which is also the place in the refusal of a larger one.
pub const TRACTS_LIMIT: u32 = 1_048_576;

/// The most tracts in a list.
pub const TRACTS_MOST: u32 = 1_000;

/// Why bytes are not a list of tracts on a plat. Records are numbered from 1, as `csv` returns
/// them, and the first one is the heading; the layout of the list is this project's rule.
#[derive(Clone, Copy, Debug, PartialEq, Eq, Error)]
pub enum TractFault {
    /// 80, at the limit: there are more bytes than a list can have.
    #[error("the list of tracts has more than 1,048,576 bytes")]
    TractsTooLarge,
    /// 81, at the record: it is not a name and a description, or record 1 is not the heading.
    #[error("record {0} isn't a name of 1 to 64 printed ASCII characters and a description")]
    TractRow(u32),
    /// 82, at the record: an earlier tract has the same name.
    #[error("record {0} has the name of an earlier tract")]
    NameRepeated(u32),
    /// 83, at the record: its description is itself refused.
    #[error("record {at} has a description that is refused: {} at {}", inner.number, inner.at)]
    TractRefused {
        /// The number of the record.
        at: u32,
        /// The refusal of its description, with a place in the description.
        inner: Refusal,
    },
    /// 84, at the record: a place of the tract is in an earlier tract.
    #[error("record {0} has a place that an earlier tract has")]
    TractsOverlap(u32),
    /// 85, at the first record beyond the limit.
    #[error("there are more than 1,000 tracts")]
    TooManyTracts,
    /// Memory ran out.
    #[error("out of memory")]
    Memory,
}

impl TractFault {
    ghost use Rattle.std.specs.Prelude.{◌≡◌};
    ghost use Rattle.twp_answers.specs.TractFaults.{refusal_of, verdict_of};

    /// The number of the fault and its place. `None` for `Memory`.
    pub fn refusal(&self) -> Option<Refusal>
        ensures { result ≡ refusal_of self.now }
    {
        let (number, at) = match *self {
            TractFault::TractsTooLarge => (80, TRACTS_LIMIT),
            TractFault::TractRow(record) => (81, record),
            TractFault::NameRepeated(record) => (82, record),
            TractFault::TractRefused { at, .. } => (83, at),
            TractFault::TractsOverlap(record) => (84, record),
            TractFault::TooManyTracts => (85, TRACTS_MOST + 2),
            TractFault::Memory => return None,
        };
        Some(Refusal { number, at })
    }

    /// The verdict on a list that has the fault: its refusal, with that of a tract's description
    /// beside it. `None` for `Memory`.
    pub fn verdict(&self) -> Option<Verdict>
        ensures { result ≡ verdict_of self.now }
    {
        if let TractFault::TractRefused { at, inner } = *self {
            return Some(Verdict::TractRefused { at, inner });
        }
        Some(Verdict::Refused(self.refusal()?))
    }
}

impl From<AllocError> for TractFault {
    ghost use Rattle.std.specs.Prelude.{◌≡◌};
    ghost use Rattle.twp_answers.specs.declared.tract_fault.TractFault.TheVariants.{Memory};

    ghost from_gives = { λ _ fault. fault ≡ Memory };

    fn from(_fault: AllocError) -> TractFault {
        TractFault::Memory
    }
}

impl<T: Drop> From<AllocFailed<T>> for TractFault {
    ghost use Rattle.std.specs.Prelude.{◌≡◌};
    ghost use Rattle.twp_answers.specs.declared.tract_fault.TractFault.TheVariants.{Memory};

    ghost from_gives = { λ _ fault. fault ≡ Memory };

    fn from(_fault: AllocFailed<T>) -> TractFault {
        TractFault::Memory
    }
}
