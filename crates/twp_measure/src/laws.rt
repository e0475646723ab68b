//! Laws of lengths and areas that follow from their definitions. Each law is a contract, and its
//! function does nothing.
ghost use Rattle.twp_measure.specs.Laws.{WrittenIsRead, OneLength, OneRounding, RoundingIsGreatest};

/// The text written for a length is a text of that length, so `Length::read` returns that length.
#[tactic(auto, using(crate::proofs::WrittenLengths::written_is_length))]
pub fn written_is_read()
    ensures { WrittenIsRead }
{}

/// A text spells at most one length.
pub fn one_length()
    ensures { OneLength }
{}

/// An area has only one rounding in hundredths.
#[tactic(auto, using(crate::proofs::RoundingFacts::one_rounding))]
pub fn one_rounding()
    ensures { OneRounding }
{}

/// The rounding of an area in hundredths of an acre is the greatest `h` for which
/// `(2h - 1) * over * 100,000` is at most twice the units.
#[tactic(auto, using(crate::proofs::RoundingFacts::rounding_is_greatest))]
pub fn rounding_is_greatest()
    ensures { RoundingIsGreatest }
{}
