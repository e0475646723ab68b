ghost use Rattle.std.specs.Prelude.{◌≡◌, ◌↔◌, ◌⊎◌, ◌<◌, length, slice_get, IsTrue, IsSome, IfSome};
ghost use Rattle.std.specs.Prelude.{Some, MatchOption};
ghost use Rattle.twp_grammar.specs.declared.item.Item.{Item as NamedItem};
ghost use Rattle.twp_grid.specs.Places.{PLACE_DIGITS};
ghost use Rattle.twp_grid.specs.Lands.{no_places};
ghost use Rattle.twp_grid.specs.Lands.{lotting};
ghost use Rattle.twp_grammar.specs.Items.{BeginWithSections};
ghost use Rattle.twp_grammar.specs.ItemPlaces.{section_after};
ghost use Rattle.twp_resolve.specs.SharedLand.{AreRefusedForOverlap, AreFirstSharing};
ghost use Rattle.twp_resolve.specs.steps.ResolvingSteps.{IsItemTaken, IsBeforeParts, HasSomeFault};
ghost use Rattle.twp_resolve.specs.steps.ResolvingSteps.{number_of_section};
ghost use Rattle.twp_resolve.specs.steps.SharingSteps.{IsOverlap, IsRefusedItem, IsRefusedLand};
ghost use Rattle.twp_resolve.specs.steps.SharingSteps.{IsFirstSharing};

use crate::place_fault::PlaceFault;
use crate::resolving::resolve_item;
use twp_grammar::Item;
use twp_grid::{Section, Township};
use twp_land::{Land, Lotting};
use twp_read::Description;

/// Two items of a description that name the same land, by index.
#[derive(Clone, Copy, PartialEq, Eq)]
pub struct SharingItems {
    /// The first item that names some of the later one's land.
    pub earlier: usize,
    /// The item for which the description is refused.
    pub later: usize,
}

/// The item for which a description is refused: its index, and the section named last before it.
#[derive(Clone, Copy)]
struct RefusedItem {
    index: usize,
    section: Option<Section>,
}

impl RefusedItem {
    /// The item, if its fault is that it names land again.
    fn if_overlap(self, fault: PlaceFault) -> Option<RefusedItem>
        ensures { MatchOption result (¬ IsOverlap fault)
            (λ refused. (refused.index ≡ self.index) × (refused.section ≡ self.section)
            × IsOverlap fault) }
    {
        match fault {
            PlaceFault::Overlap { .. } => Some(self),
            _ => None,
        }
    }
}

/// The item for which a description is refused because land is named twice, and the first item
/// before it that names some of its land. Sets `land` to the places that both name. `None` if a
/// description is not refused for that; then the land has no meaning.
pub fn shared_into<L: Land, P: Lotting>(
    land: &mut L,
    description: &Description,
    township: Township,
    lots: &P,
) -> Option<SharingItems>
    ensures { MatchOption result
        (¬ AreRefusedForOverlap (lotting (P.layout lots.now)) township description.now)
        (λ pair. AreFirstSharing (lotting (P.layout lots.now)) township description.now pair (L.places land.new)) }
{
    let items = description.items();
    let mut named = L::empty();
    let later = place_refused(&mut named, items, township, lots)?;
    let earlier = first_sharing(land, &named, items, later, township, lots)?;
    Some(SharingItems { earlier, later })
}

/// Sets `land` to the places of the item for which a description is refused because it names land
/// again, and returns the item's index.
fn place_refused<L: Land, P: Lotting>(
    land: &mut L,
    items: &[Item],
    township: Township,
    lots: &P,
) -> Option<usize>
    requires { BeginWithSections items.now }
    ensures within { IfSome result (λ index. index < length items.now) }
    ensures refused { MatchOption result (¬ AreRefusedForOverlap (lotting (P.layout lots.now)) township items.now)
        (λ index. IsRefusedLand (lotting (P.layout lots.now)) township items.now index (L.places land.new)) }
{
    let refused = refused_item(land, items, township, lots)?;
    place_item(land, refused.section, &items[refused.index], township, lots)?;
    Some(refused.index)
}

/// The item for which a description is refused because it names land again.
fn refused_item<L: Land, P: Lotting>(
    land: &mut L,
    items: &[Item],
    township: Township,
    lots: &P,
) -> Option<RefusedItem>
    requires { BeginWithSections items.now }
    ensures within { IfSome result (λ refused. refused.index < length items.now) }
    ensures section { IfSome result (λ refused. (it : NamedItem) → slice_get items.now refused.index ≡ Some it
        → IsSome refused.section ⊎ IsBeforeParts it) }
    ensures refused { MatchOption result (¬ AreRefusedForOverlap (lotting (P.layout lots.now)) township items.now)
        (λ refused. IsRefusedItem (lotting (P.layout lots.now)) township items.now refused.index
        (number_of_section refused.section)) }
{
    let mut section = None;
    land.clear();
    for index in 0..items.len() {
        let here = RefusedItem { index, section };
        match resolve_item(land, here.section, &items[index], township, lots) {
            Ok(after) => section = after,
            Err(fault) => return here.if_overlap(fault),
        }
    }
    None
}

/// The first item before the refused one that names some of its land. Sets `land` to the places
/// that both name.
fn first_sharing<L: Land, P: Lotting>(
    land: &mut L,
    named: &L,
    items: &[Item],
    later: usize,
    township: Township,
    lots: &P,
) -> Option<usize>
    requires sections_first { BeginWithSections items.now }
    requires within { later < length items.now }
    requires refused { IsRefusedLand (lotting (P.layout lots.now)) township items.now later (L.places named.now) }
    ensures { MatchOption result ⊥
        (λ earlier. IsFirstSharing (lotting (P.layout lots.now)) items.now earlier later (L.places land.new)) }
{
    let mut section = None;
    for index in 0..later {
        section = place_item(land, section, &items[index], township, lots)?;
        if land.meets_land(named) {
            land.keep_common(named);
            return Some(index);
        }
    }
    // An item before the refused one named some of its land, so this is not reached.
    None
}

/// Sets `land` to the places of one item, and returns the section of the next item. `None` if the
/// item does not lie on the plat.
fn place_item<L: Land, P: Lotting>(
    land: &mut L,
    section: Option<Section>,
    item: &Item,
    township: Township,
    lots: &P,
) -> Option<Option<Section>>
    requires { IsSome section ⊎ IsBeforeParts item.now }
    ensures { MatchOption result
        (HasSomeFault (lotting (P.layout lots.now)) township (number_of_section section) item.now)
        (λ after. IsItemTaken (lotting (P.layout lots.now)) township (number_of_section section) item.now no_places
        (L.places land.new)
        × (number_of_section after ≡ section_after (number_of_section section) item.now)) }
{
    land.clear();
    let Ok(after) = resolve_item(land, section, item, township, lots) else {
        return None;
    };
    Some(after)
}
