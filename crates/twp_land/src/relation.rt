ghost use Rattle.std.specs.Prelude.{◌≡◌, ◌↔◌, ◌⊎◌, ℕ, Bool, true, IsTrue};
ghost use Rattle.twp_land.specs.Storage.{ContainsHeld, ShareHeld};
ghost use Rattle.twp_land.specs.Comparisons.{Compares};
ghost use Rattle.twp_land.specs.steps.Relating.{Relates};

use crate::comparing::Comparison;
use crate::plot::Plot;

/// How two sets of places relate.
#[derive(Clone, Copy)]
pub(crate) struct Relation {
    /// Whether the first contains all places of the second.
    pub(crate) contains: bool,
    /// Whether the second contains all places of the first.
    pub(crate) is_contained: bool,
    /// Whether they share a place.
    pub(crate) shares: bool,
}

impl Relation {
    /// Takes into account how the parts of the sets in one more section relate.
    #[inline(always)]
    pub(crate) fn add<P: Plot>(&mut self, plot: &P, other: &P)
        ensures contains { IsTrue self.new.contains
            ↔ (IsTrue self.old.contains × ContainsHeld (P.held plot.now) (P.held other.now)) }
        ensures is_contained { IsTrue self.new.is_contained
            ↔ (IsTrue self.old.is_contained × ContainsHeld (P.held other.now) (P.held plot.now)) }
        ensures shares { IsTrue self.new.shares
            ↔ (IsTrue self.old.shares ⊎ ShareHeld (P.held plot.now) (P.held other.now)) }
    {
        self.contains &= plot.holds_plot(other);
        self.is_contained &= other.holds_plot(plot);
        self.shares |= plot.meets_plot(other);
    }

    /// The comparison of sets that relate in this way.
    pub(crate) fn comparison(self) -> Comparison
        ensures { (places more : ℕ → ℕ → ℕ → Bool) → Relates self places more
            → Compares result places more }
    {
        match (self.contains, self.is_contained, self.shares) {
            (true, true, _) => Comparison::Same,
            (true, false, _) => Comparison::Contains,
            (false, true, _) => Comparison::IsContained,
            (false, false, true) => Comparison::Overlaps,
            (false, false, false) => Comparison::Disjoint,
        }
    }
}
