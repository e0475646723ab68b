//! The land that a description names twice.
ghost use Rattle.std.specs.Prelude.{IfOk, MatchOption};
ghost use Rattle.twp_resolve.specs.SharedLand.{AreRefusedForOverlap};
ghost use Rattle.twp_diagnose.specs.SharedText.{TellsShared};
ghost use Rattle.twp_grid.specs.Lands.{lotting};

use std::alloc::{AllocError, Global};
use twp_grid::Township;
use twp_land::{Land, Lanes, Lotting};
use twp_read::Description;
use twp_resolve::{SharingItems, shared_into};
use twp_spell::spell;

/// Land that two items of a description name.
#[derive(Drop)]
pub struct SharedLand {
    /// The item for which the description is refused, and the first that names some of its land.
    pub items: SharingItems,
    /// The one spelling of the land that both name.
    pub text: Vec<u8>,
}

/// Of a description that is refused because it names land twice: the two items, and the spelling of
/// the land that both name. None where it isn't refused for that.
#[inline(never)]
pub fn shared_land_text<P: Lotting>(
    alloc: Global,
    description: &Description,
    township: Township,
    lots: &P,
) -> Result<Option<SharedLand>, AllocError>
    ensures { IfOk result (λ explained. MatchOption explained
        (¬ AreRefusedForOverlap (lotting (P.layout lots.now)) township description.now)
        (TellsShared (lotting (P.layout lots.now)) township description.now)) }
{
    let mut land = Lanes::empty();
    let Some(items) = shared_into(&mut land, description, township, lots) else {
        return Ok(None);
    };
    let text = spell(alloc, &land, township, lots)?;
    Ok(Some(SharedLand { items, text }))
}
