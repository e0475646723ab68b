//! Laws of areas by a lot table. Each law is a contract, and its function does nothing.
ghost use Rattle.twp_plat.specs.LotAreaLaws.{OneLotArea, LotAreaIsPlatArea, LotAreasAdd};

/// A set of places has only one area by a lot table.
pub fn one_lot_area()
    ensures { OneLotArea }
{}

/// By a table with the figures that a plat shows for its lots, the area of land is its plat area.
pub fn lot_area_is_plat_area()
    ensures { LotAreaIsPlatArea }
{}

/// The area of two sets of places together and the area that they share add up to their areas, if
/// both contain each lot wholly or not at all; and what the first has alone and what they share, to
/// the first.
pub fn lot_areas_add()
    ensures { LotAreasAdd }
{}
