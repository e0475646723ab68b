ghost use Rattle.twp_land.specs.Comparisons.{Compares};

use crate::land::Land;

/// How one set of places compares to another. The empty set is contained in each other set.
#[derive(Clone, Copy)]
pub enum Comparison {
    /// Both contain the same places.
    Same,
    /// The first contains all places of the second, and more.
    Contains,
    /// The second contains all places of the first, and more.
    IsContained,
    /// They share a place, and each contains one that the other lacks.
    Overlaps,
    /// They share no place, and neither is empty.
    Disjoint,
}

/// How a set of places compares to another.
pub fn compare<L: Land>(land: &L, other: &L) -> Comparison
    ensures { Compares result (L.places land.now) (L.places other.now) }
{
    if land.same(other) {
        return Comparison::Same;
    }
    if land.holds_land(other) {
        return Comparison::Contains;
    }
    if other.holds_land(land) {
        return Comparison::IsContained;
    }
    if land.meets_land(other) {
        return Comparison::Overlaps;
    }
    Comparison::Disjoint
}
