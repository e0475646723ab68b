//! Laws of the grid that follow from its definitions. Each law is a contract, and its function does
//! nothing.
ghost use Rattle.twp_grid.specs.Laws.{OneStanding, OneSection, OneLine};
ghost use Rattle.twp_grid.specs.Laws.{HoldsWhatIsAsked, HalvesAsAsked};
ghost use Rattle.twp_grid.specs.Laws.{OnePosition, OneLotOrRegular, LotsMatchPositions, HeldOnce};

/// A section is at one row and column.
#[tactic(auto, using(crate::proofs::WindingFacts::same_standing))]
pub fn one_standing()
    ensures { OneStanding }
{}

/// Only one section is at a row and column.
#[tactic(auto, using(crate::proofs::WindingFacts::same_number))]
pub fn one_section()
    ensures { OneSection }
{}

/// Only one line lies between two sections, and at most one of each run between a section and the
/// township's outside.
#[tactic(auto, using(crate::proofs::LineFacts::one_line))]
pub fn one_line()
    ensures { OneLine }
{}

/// A block that is reached from a whole section by halves and quarters contains exactly the places
/// whose first binary digits are the ones that these ask for: a half or a quarter in the north asks
/// for the next digit of the row to be 1, in the south 0; in the west for the next digit of the
/// column to be 1, in the east 0.
#[tactic(auto, using(crate::proofs::CutFacts::held_as_asked))]
pub fn holds_what_is_asked()
    ensures { HoldsWhatIsAsked }
{}

/// Each digit that is asked for halves a side of the block.
#[tactic(auto, using(crate::proofs::CutFacts::sides_as_asked))]
pub fn halves_as_asked()
    ensures { HalvesAsAsked }
{}

/// Each place lies in one position of its section.
#[tactic(auto, using(crate::proofs::TilingFacts::one_position))]
pub fn one_position()
    ensures { OnePosition }
{}

/// Each position is one lot or is regular, never both.
#[tactic(auto, using(crate::proofs::TilingFacts::lot_or_regular))]
pub fn one_lot_or_regular()
    ensures { OneLotOrRegular }
{}

/// The lot at a position of a section is the lot that fills it.
#[tactic(auto, using(crate::proofs::LotFacts::lots_match))]
pub fn lots_match_positions()
    ensures { LotsMatchPositions }
{}

/// A section's lots and regular positions contain each of its places exactly once.
#[tactic(auto, using(crate::proofs::TilingFacts::held_once))]
pub fn held_once()
    ensures { HeldOnce }
{}
