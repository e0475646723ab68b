//! Laws of sets of places that follow from their definitions. Each law is a contract, and its
//! function does nothing.
ghost use Rattle.twp_land.specs.Laws.{CombinedLotsAreWhole};

/// If two sets contain each lot wholly or not at all, so do their union, their intersection, and
/// their difference.
pub fn combined_lots_are_whole()
    ensures { CombinedLotsAreWhole }
{}
