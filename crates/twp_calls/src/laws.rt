//! Laws of the calls' definitions. Each law is a contract, and its function does nothing.
ghost use Rattle.twp_calls.specs.Splits.{DescriptionIsOnePart};

/// A text that is read as a description is its own only part.
pub fn description_is_one_part()
    ensures { DescriptionIsOnePart }
{}
