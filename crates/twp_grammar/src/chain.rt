//! The block of places that the steps of an aliquot part reach in a section.
ghost use Rattle.std.specs.Prelude.{◌≤◌, MatchOption, length};
ghost use Rattle.std.specs.Option.{SomeIff};
ghost use Rattle.twp_grid.specs.Cuts.{AreWithin, part_of, reached};
ghost use Rattle.twp_grid.specs.Places.{PLACE_DIGITS};
ghost use Rattle.twp_grammar.specs.ItemPlaces.{cut_of, cuts_of};
ghost use Rattle.twp_grammar.specs.steps.CutSteps.{CanCut, IsCutTo};

use crate::item::{Step, Steps};
use twp_grid::Block;

/// The block that an aliquot part's steps reach in a section, from the last step to the first.
/// `None` if one of them would halve a side of one place.
#[inline(always)]
pub fn chain_block(steps: &Steps) -> Option<Block>
    ensures { SomeIff result (AreWithin PLACE_DIGITS (cuts_of steps.now))
        (reached PLACE_DIGITS (cuts_of steps.now)) }
{
    let first = steps.first();
    let mut block = block_after(steps, first.len())?;
    for index in (0..first.len()).rev() {
        block = cut(block, first[index])?;
    }
    Some(block)
}

/// The block that the steps from an index on reach in a section.
#[inline]
fn block_after(steps: &Steps, start: usize) -> Option<Block>
    requires { start ≤ length steps.now }
    ensures { MatchOption result (¬ AreWithin PLACE_DIGITS (cuts_of steps.now))
        (IsCutTo PLACE_DIGITS steps.now start) }
{
    let mut block = Block::whole();
    for index in (start..steps.len()).rev() {
        block = cut(block, steps.get(index).unwrap())?;
    }
    Some(block)
}

/// The half or the quarter of a block that a step takes.
#[inline]
fn cut(block: Block, step: Step) -> Option<Block>
    ensures { SomeIff result (CanCut block (cut_of step)) (part_of block (cut_of step)) }
{
    match step {
        Step::Half(side) => block.half(side),
        Step::Quarter(corner) => block.quarter(corner),
    }
}
