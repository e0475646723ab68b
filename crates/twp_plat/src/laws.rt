//! Laws of plats, and of the areas of land on them, that follow from their definitions. Each law is a
//! contract, and its function does nothing.
ghost use Rattle.twp_plat.specs.Laws.{OneAnswer, NotesGivePlats, OneQuarters, OneArea};
ghost use Rattle.twp_plat.specs.Laws.{PieceIsFormula, PieceIsWhole, PieceIsOver};
ghost use Rattle.twp_plat.specs.Laws.{OverIsOfSectionSix};
ghost use Rattle.twp_plat.specs.LandAreaLaws.{OneLandArea, DisjointSumsAdd, DisjointAreasAdd};
ghost use Rattle.twp_plat.specs.LandAreaLaws.{UnionAndIntersectionAdd, DifferenceAndIntersectionAdd};
ghost use Rattle.twp_plat.specs.LandAreaLaws.{SectionAreaIsOfLand, TownshipAreaIsOfLand};
ghost use Rattle.twp_plat.specs.PlatAccountLaws.{OnePlatArea, DisjointPlatAreasAdd};
ghost use Rattle.twp_plat.specs.PlatAccountLaws.{PlatUnionAndIntersectionAdd};
ghost use Rattle.twp_plat.specs.PlatAccountLaws.{PlatDifferenceAndIntersectionAdd};
ghost use Rattle.twp_plat.specs.PlatAccountLaws.{PlatAreaIsNear};

pub mod lots;
pub mod plain_tables;

/// The same notes always make the same plat, or have the same first fault, and never both.
#[tactic(auto, using(crate::proofs::OneAnswer::one_answer))]
pub fn one_answer()
    ensures { OneAnswer }
{}

/// The plat of notes is a valid plat: its closing quarters are within the limits, and those of
/// lines that are not closing lines are a quarter mile.
#[tactic(auto, using(crate::proofs::OneAnswer::plat_of_notes))]
pub fn notes_give_plats()
    ensures { NotesGivePlats }
{}

/// A section of a plat has only one closing quarter on each side.
#[tactic(auto, using(crate::proofs::SideFacts::one_quarters))]
pub fn one_quarters()
    ensures { OneQuarters }
{}

/// A position of a plat has only one area over each denominator.
pub fn one_area()
    ensures { OneArea }
{}

/// Interpolating widths and heights between a section's lines gives the same result as one formula
/// in whole numbers.
#[tactic(auto, using(crate::proofs::FormulaFacts::piece_is_formula))]
pub fn piece_is_formula()
    ensures { PieceIsFormula }
{}

/// Outside section 6, each piece is a whole number of square thousandths of a chain.
pub fn piece_is_whole()
    ensures { PieceIsWhole }
{}

/// Each piece is a whole number of parts of the plat's denominator: when it is converted to that
/// denominator, the division leaves no remainder.
pub fn piece_is_over()
    ensures { PieceIsOver }
{}

/// A plat's denominator is four times the product of the lengths of section 6's north and west
/// lines.
#[tactic(auto, using(crate::proofs::SideFacts::over_is))]
pub fn over_is_of_section_six()
    ensures { OverIsOfSectionSix }
{}

/// A set of places has only one area on a plat.
pub fn one_land_area()
    ensures { OneLandArea }
{}

/// The sum over the places of two disjoint sets together is exactly the sum of theirs. These are
/// sums of the pieces that the places lie in, before division by the number of places in a
/// position.
#[tactic(auto, using(crate::proofs::AreaLaws::disjoint_sums_add))]
pub fn disjoint_sums_add()
    ensures { DisjointSumsAdd }
{}

/// So the area of two disjoint sets of places together is the sum of their areas, if both are whole
/// numbers of units, as they are for land with whole lots.
#[tactic(auto, using(crate::proofs::AreaLaws::disjoint_areas_add))]
pub fn disjoint_areas_add()
    ensures { DisjointAreasAdd }
{}

/// The area of two sets of places together and the area that they share add up to their areas.
pub fn union_and_intersection_add()
    ensures { UnionAndIntersectionAdd }
{}

/// The area that one set of places has without another and the area that they share add up to the
/// area of the first.
pub fn difference_and_intersection_add()
    ensures { DifferenceAndIntersectionAdd }
{}

/// A section's area on the plat is the area of all its places.
#[tactic(auto, using(crate::proofs::WholeAreas::section_area_is_of_land))]
pub fn section_area_is_of_land()
    ensures { SectionAreaIsOfLand }
{}

/// The township's area on the plat is the area of all its places.
#[tactic(auto, using(crate::proofs::WholeAreas::township_area_is_of_land))]
pub fn township_area_is_of_land()
    ensures { TownshipAreaIsOfLand }
{}

/// A set of places has only one plat area.
pub fn one_plat_area()
    ensures { OnePlatArea }
{}

/// The plat area of two disjoint sets of places together is the sum of their plat areas, if both
/// contain each lot wholly or not at all.
pub fn disjoint_plat_areas_add()
    ensures { DisjointPlatAreasAdd }
{}

/// The plat area of two sets of places together and the plat area that they share add up to their
/// plat areas, if both contain each lot wholly or not at all.
pub fn plat_union_and_intersection_add()
    ensures { PlatUnionAndIntersectionAdd }
{}

/// The plat area that one such set of places has without another and the plat area that they share
/// add up to the plat area of the first.
pub fn plat_difference_and_intersection_add()
    ensures { PlatDifferenceAndIntersectionAdd }
{}

/// If a set of places contains each lot wholly or not at all, its exact area and its plat area
/// differ by at most half a hundredth of an acre for each lot that it contains.
pub fn plat_area_is_near()
    ensures { PlatAreaIsNear }
{}
