ghost use Rattle.std.specs.Prelude.{◌≡◌, ◌<◌, ◌↔◌, ℕ, Bool, true, false, IsTrue};
ghost use Rattle.twp_grid.specs.Places.{PLACE_DIGITS, places_across, IsPlace};
ghost use Rattle.twp_grid.specs.Lands.{Meets, HoldsAll, count_held};
ghost use Rattle.twp_land.specs.Storage.{nothing_held, with_block, without_block, held_by_either};
ghost use Rattle.twp_land.specs.Storage.{held_by_both, held_without, ShareHeld, SameHeld};
ghost use Rattle.twp_land.specs.Storage.{ContainsHeld};

use twp_grid::Block;

/// A set of places in one section. `Sections` makes a set for a township from these.
pub trait Plot: Copy + Drop {
    /// Whether the set contains the place at a column and a row.
    ghost held: { Self → ℕ → ℕ → Bool };

    /// The empty set.
    fn empty() -> Self
        ensures { held result ≡ nothing_held };

    /// Whether the set contains a place.
    fn holds(&self, column: u8, row: u8) -> bool
        requires column { column < places_across PLACE_DIGITS }
        requires row { row < places_across PLACE_DIGITS }
        ensures { result ≡ held self.now column row };

    /// Whether the set contains some place of a block.
    fn meets(&self, block: Block) -> bool
        ensures { IsTrue result ↔ Meets (held self.now) block };

    /// Whether the set contains every place of a block.
    fn full(&self, block: Block) -> bool
        ensures { IsTrue result ↔ HoldsAll (held self.now) block };

    /// Whether the set is known to be empty, without a look at its places. If it isn't, the set may
    /// still be empty.
    fn is_untouched(&self) -> bool
        ensures { IsTrue result → held self.now ≡ nothing_held }
    {
        false
    }

    /// How many places of a block the set contains.
    fn count(&self, block: Block) -> u32
        ensures { result ≡ count_held (held self.now) block };

    /// Adds the places of a block.
    fn add(&mut self, block: Block)
        ensures { held self.new ≡ with_block (held self.old) block };

    /// Removes the places of a block.
    fn remove(&mut self, block: Block)
        ensures { held self.new ≡ without_block (held self.old) block };

    /// Whether both sets contain the same places.
    fn same_plot(&self, other: &Self) -> bool
        ensures { IsTrue result ↔ SameHeld (held self.now) (held other.now) };

    /// Whether the set contains every place of another.
    fn holds_plot(&self, other: &Self) -> bool
        ensures { IsTrue result ↔ ContainsHeld (held self.now) (held other.now) };

    /// Whether the sets share a place.
    fn meets_plot(&self, other: &Self) -> bool
        ensures { IsTrue result ↔ ShareHeld (held self.now) (held other.now) };

    /// Adds the places of another set.
    fn add_plot(&mut self, other: &Self)
        ensures { held self.new ≡ held_by_either (held self.old) (held other.now) };

    /// Removes the places of another set.
    fn take_away_plot(&mut self, other: &Self)
        ensures { held self.new ≡ held_without (held self.old) (held other.now) };

    /// Keeps only the places that another set also contains.
    fn keep_common_plot(&mut self, other: &Self)
        ensures { held self.new ≡ held_by_both (held self.old) (held other.now) };

    /// The set contains only places of a section.
    ghost within: { (plot : Self) (column row : ℕ) → held plot column row ≡ true
        → IsPlace PLACE_DIGITS column row };
}

/// Adds the places of a block to a set, unless the set contains one of them. Returns whether it
/// contained none.
#[inline(always)]
pub(crate) fn add_apart<P: Plot>(plot: &mut P, block: Block) -> bool
    ensures apart { IsTrue result → ¬ Meets (P.held plot.old) block }
    ensures met { result ≡ false → Meets (P.held plot.old) block }
    ensures added { IsTrue result → P.held plot.new ≡ with_block (P.held plot.old) block }
{
    if plot.meets(block) {
        return false;
    }
    plot.add(block);
    true
}
