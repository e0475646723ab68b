ghost use Rattle.std.specs.Prelude.{◌≡◌, ◌↔◌, ℕ, IsTrue};
ghost use Rattle.twp_grid.specs.Lands.{no_places, union, difference, intersection, block_places};
ghost use Rattle.twp_grid.specs.Lands.{SharePlace, SamePlaces, ContainsAll};

use crate::growing_set::GrowingSet;
use twp_grid::{Block, Section};

/// A set of places in a township, with room for the places of each section.
pub trait Land: GrowingSet {
    /// The empty set.
    fn empty() -> Self
        ensures { Self.places result ≡ no_places };

    /// Adds the places of a section's block.
    fn add(&mut self, section: Section, block: Block)
        ensures { Self.places self.new ≡ union (Self.places self.old) (block_places section block) };

    /// Removes the places of a section's block.
    fn remove(&mut self, section: Section, block: Block)
        ensures { Self.places self.new
            ≡ difference (Self.places self.old) (block_places section block) };

    /// Whether both sets contain the same places.
    fn same(&self, other: &Self) -> bool
        ensures { IsTrue result ↔ SamePlaces (Self.places self.now) (Self.places other.now) };

    /// Whether the set contains every place of another.
    fn holds_land(&self, other: &Self) -> bool
        ensures { IsTrue result ↔ ContainsAll (Self.places self.now) (Self.places other.now) };

    /// Whether the sets share a place.
    fn meets_land(&self, other: &Self) -> bool
        ensures { IsTrue result ↔ SharePlace (Self.places self.now) (Self.places other.now) };

    /// Adds the places of another set.
    fn add_land(&mut self, other: &Self)
        ensures { Self.places self.new ≡ union (Self.places self.old) (Self.places other.now) };

    /// Removes the places of another set.
    fn take_away(&mut self, other: &Self)
        ensures { Self.places self.new ≡ difference (Self.places self.old) (Self.places other.now) };

    /// Keeps only the places that another set also contains.
    fn keep_common(&mut self, other: &Self)
        ensures { Self.places self.new
            ≡ intersection (Self.places self.old) (Self.places other.now) };

    /// The set has room for the places of each section.
    ghost roomy: { (land : Self) (section : ℕ) → IsTrue (Self.has_room land section) };
}
