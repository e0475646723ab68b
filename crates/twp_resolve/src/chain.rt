ghost use Rattle.std.specs.Prelude.{◌≡◌, List, IfSome, IfOk, IfErr, IsTrue};
ghost use Rattle.twp_grid.specs.Places.{PLACE_DIGITS};
ghost use Rattle.twp_grid.specs.Cuts.{part_of};
ghost use Rattle.twp_grid.specs.Townships.{Designation};
ghost use Rattle.twp_grammar.specs.ItemPlaces.{cut_of};
ghost use Rattle.twp_grammar.specs.steps.CutSteps.{CanCut, IsCutTo};
ghost use Rattle.twp_resolve.specs.steps.ResolvingSteps.{IsItemTaken, IsItemsFirstFault};
ghost use Rattle.twp_grammar.specs.declared.item.Item.TheVariants.{Chain};
ghost use Rattle.twp_grammar.specs.declared.item.Step.{Step as TakenStep};
ghost use Rattle.twp_grid.specs.Lands.{lotting};

use crate::place_fault::PlaceFault;
use crate::ranges::add_block;
use twp_grammar::{Step, Steps, chain_block};
use twp_grid::{Block, PLACE_DIGITS, Section};
use twp_land::{GrowingSet, Lotting};

/// The number of quarters that reach a place of a section, and the number that reach a square of
/// four places.
const TO_A_PLACE: usize = PLACE_DIGITS;

const TO_FOUR_PLACES: usize = PLACE_DIGITS - 1;

/// Resolves an aliquot part of a section.
pub(crate) fn resolve_chain<L: GrowingSet, P: Lotting>(
    land: &mut L,
    section: Section,
    steps: &Steps,
    at: u32,
    lots: &P,
) -> Result<(), PlaceFault>
    requires { IsTrue (L.has_room land.old section) }
    ensures taken { IfOk result (λ _. (township : Designation)
        → IsItemTaken (lotting (P.layout lots.now)) township section (Chain steps.now at)
        (L.places land.old) (L.places land.new)) }
    ensures refused { IfErr result (λ fault. (township : Designation)
        → IsItemsFirstFault (lotting (P.layout lots.now)) township section (Chain steps.now at) (L.places land.old) fault) }
{
    if let Some(square) = small_square_of(steps) {
        return resolve_block(land, section, square, at, lots);
    }
    let Some(block) = chain_block(steps) else {
        return Err(PlaceFault::TooFine { at });
    };
    resolve_block(land, section, block, at, lots)
}

/// Adds the block that an aliquot part's steps reach in a section.
#[inline(always)]
fn resolve_block<L: GrowingSet, P: Lotting>(
    land: &mut L,
    section: Section,
    block: Block,
    at: u32,
    lots: &P,
) -> Result<(), PlaceFault>
    requires { IsTrue (L.has_room land.old section) }
    ensures taken { (steps : List TakenStep) → IsCutTo PLACE_DIGITS steps 0 block
        → IfOk result (λ _. (township : Designation)
        → IsItemTaken (lotting (P.layout lots.now)) township section (Chain steps at)
        (L.places land.old) (L.places land.new)) }
    ensures refused { (steps : List TakenStep) → IsCutTo PLACE_DIGITS steps 0 block
        → IfErr result (λ fault. (township : Designation)
        → IsItemsFirstFault (lotting (P.layout lots.now)) township section (Chain steps at) (L.places land.old) fault) }
{
    if lots.holds_of_lot(section, block) {
        return Err(PlaceFault::OnLot { at });
    }
    if lots.lacks_land(section, block) {
        return Err(PlaceFault::NoLand { at });
    }
    add_block(land, section, block, at)
}

/// The smallest squares, a place and a square of four places, if quarters reach them. `None` for
/// other steps. Long lists consist of these two.
#[inline(always)]
fn small_square_of(steps: &Steps) -> Option<Block>
    ensures { IfSome result (IsCutTo PLACE_DIGITS steps.now 0) }
{
    match steps.len() {
        TO_A_PLACE => square_of::<TO_A_PLACE>(steps),
        TO_FOUR_PLACES => square_of::<TO_FOUR_PLACES>(steps),
        _ => None,
    }
}

/// The square that this many quarters reach in a section. `None` for other steps. The size of each
/// quarter is known here, so none has to be tested for being too small.
#[inline(always)]
fn square_of<const QUARTERS: usize>(steps: &Steps) -> Option<Block>
    ensures { IfSome result (IsCutTo PLACE_DIGITS steps.now 0) }
{
    let first = steps.first();
    if first.len() != QUARTERS || steps.len() != first.len() {
        return None;
    }
    let mut block = Block::whole();
    for index in (0..QUARTERS).rev() {
        block = quarter_of(block, first[index])?;
    }
    Some(block)
}

/// The quarter of a block that a step takes. `None` if the step is a half.
#[inline(always)]
fn quarter_of(block: Block, step: Step) -> Option<Block>
    ensures { IfSome result (λ part. CanCut block (cut_of step) × (part ≡ part_of block (cut_of step))) }
{
    match step {
        Step::Half(_) => None,
        Step::Quarter(corner) => block.quarter(corner),
    }
}
