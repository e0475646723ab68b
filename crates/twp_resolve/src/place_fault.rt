ghost use Rattle.std.specs.Prelude.{◌≡◌};
ghost use Rattle.twp_resolve.specs.PlaceFaults.{refusal_of};

use thiserror::Error;
use twp_grid::Refusal;

/// Why a description names no land on the plat (this project's rules; lots and aliquot parts as in
/// the Specifications for Descriptions of Land). Places are offsets in the text. The first item
/// with a fault is reported; of one item's faults, the one with the smallest number, but an overlap
/// last; and of the two numbers of a range, the first before the second.
#[derive(Clone, Copy, Debug, PartialEq, Eq, Error)]
pub enum PlaceFault {
    /// 61, at the heading: it is for another township than the plat.
    #[error("the heading at {at} is of another township than the field notes")]
    OtherTownship { at: u32 },
    /// 62, at the number: it is not a section from 1 to 36.
    #[error("the number at {at} is no section's: they are 1 to 36")]
    NoSection { at: u32 },
    /// 63, at the second number of a range of sections or of lots: it is less than the first.
    #[error("the range that ends at {at} runs backward")]
    Backward { at: u32 },
    /// 64, at the number: the section has no such lot.
    #[error("the number at {at} is no lot of its section")]
    NoLot { at: u32 },
    /// 65, at the aliquot part: one of its steps would halve a side of one place.
    #[error("the aliquot part at {at} is too fine")]
    TooFine { at: u32 },
    /// 66, at the aliquot part: it contains a place of a lot.
    #[error("the aliquot part at {at} holds land of a lot")]
    OnLot { at: u32 },
    /// 67, at the item's first number, its first token, or its word: it names a place that an
    /// earlier item named.
    #[error("at {at} land is named that was named before")]
    Overlap { at: u32 },
    /// 68, at the number of a section that is named whole, or at the aliquot part or the word: the
    /// plat has no land there.
    #[error("at {at} land is named that the plat doesn't have")]
    NoLand { at: u32 },
}

impl PlaceFault {
    /// The number of the refusal, 61 to 68, and its place, an offset in the text.
    pub fn refusal(&self) -> Option<Refusal>
        ensures { result ≡ refusal_of self.now }
    {
        let (number, at) = match *self {
            PlaceFault::OtherTownship { at } => (61, at),
            PlaceFault::NoSection { at } => (62, at),
            PlaceFault::Backward { at } => (63, at),
            PlaceFault::NoLot { at } => (64, at),
            PlaceFault::TooFine { at } => (65, at),
            PlaceFault::OnLot { at } => (66, at),
            PlaceFault::Overlap { at } => (67, at),
            PlaceFault::NoLand { at } => (68, at),
        };
        Some(Refusal { number, at })
    }
}
