ghost use Rattle.std.specs.Prelude.{◌≡◌, ℕ, Bool, false, IsTrue};
ghost use Rattle.twp_grid.specs.Winding.{IsSection};
ghost use Rattle.twp_grid.specs.Lands.{union, block_places, Meets};

use crate::place_set::PlaceSet;
use twp_grid::{Block, Section};

/// A set to which places of a township can be added, which may have room for those of some sections only.
pub trait GrowingSet: PlaceSet {
    /// Whether the set has room for the places of a section.
    ghost has_room: { Self → ℕ → Bool };

    /// Makes room for the places of a section. `false` if there is none.
    fn make_room(&mut self, section: Section) -> bool
        ensures places { Self.places self.new ≡ Self.places self.old }
        ensures room { result ≡ has_room self.new section }
        ensures before { (other : ℕ) → IsSection other → IsTrue (has_room self.old other)
            → IsTrue (has_room self.new other) };

    /// Adds the places of a section's block, unless the set contains one of them. Returns whether it
    /// contained none. The section is looked up only once for this.
    fn add_apart(&mut self, section: Section, block: Block) -> bool
        requires { IsTrue (has_room self.old section) }
        ensures apart { IsTrue result → ¬ Meets (Self.places self.old section) block }
        ensures met { result ≡ false → Meets (Self.places self.old section) block }
        ensures places { IsTrue result
            → Self.places self.new ≡ union (Self.places self.old) (block_places section block) }
        ensures room { has_room self.new ≡ has_room self.old };
}
