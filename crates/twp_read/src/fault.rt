ghost use Rattle.std.specs.Prelude.{◌≡◌};
ghost use Rattle.twp_read.specs.TextFaults.{refusal_of};

use std::alloc::AllocError;
use thiserror::Error;
use twp_grammar::Expected;
use twp_grid::Refusal;

/// The most bytes of a description (this project's limit).
pub const TEXT_LIMIT: usize = 65536;

/// Why a text isn't read as a description. Places are offsets in the text. A text that is too large
/// is refused first; then the leftmost bad token is reported, and only where there is none, a fault
/// of syntax.
#[derive(Clone, Copy, Debug, PartialEq, Eq, Error)]
pub enum TextFault {
    /// The text has more than `TEXT_LIMIT` bytes.
    #[error("a description has more than 65536 bytes")]
    TooLarge,
    /// A byte begins no word, number or mark.
    #[error("the byte at {at} is no part of a description")]
    BadByte { at: u32 },
    /// A number has more than four digits.
    #[error("the number at {at} has more than four digits")]
    BadNumber { at: u32 },
    /// The token here can't follow those before it, or the text ends too early.
    #[error("the description goes wrong at {at}: here could stand {expected}")]
    Syntax { at: u32, expected: Expected },
    /// Memory ran out.
    #[error("out of memory")]
    Memory,
}

impl TextFault {
    /// The number of the refusal, 41 to 44, and its place. None only where memory ran out.
    pub fn refusal(&self) -> Option<Refusal>
        ensures { result ≡ refusal_of self.now }
    {
        let (number, at) = match *self {
            TextFault::TooLarge => (41, TEXT_LIMIT as u32),
            TextFault::BadByte { at } => (42, at),
            TextFault::BadNumber { at } => (43, at),
            TextFault::Syntax { at, .. } => (44, at),
            TextFault::Memory => return None,
        };
        Some(Refusal { number, at })
    }
}

impl From<AllocError> for TextFault {
    ghost use Rattle.twp_read.specs.declared.fault.TextFault.TheVariants.{Memory};

    ghost from_gives = { λ _ fault. fault ≡ Memory };

    fn from(_: AllocError) -> TextFault {
        TextFault::Memory
    }
}
