//! A heading in its usual spelling, as `T. 2 N., R. 3 W.,`.
ghost use Rattle.std.specs.Prelude.{◌≡◌, ◌≤◌, ◌∷◌, ◌+◌, List, length, drop, false, IfOk, IfSome};
ghost use Rattle.twp_grammar.specs.declared.item.Item.{Item as TakenItem};
ghost use Rattle.twp_read.specs.declared.watch.ItemChange.TheVariants.{TownshipSide, RangeSide};
ghost use Rattle.twp_read.specs.steps.TokenSteps.{with_newest};
ghost use Rattle.twp_read.specs.steps.Usual.{Leads, IsNumberAfter, begins_with_zero};
ghost use Rattle.twp_grammar.specs.Sentences.{TEXT_LIMIT};

use crate::description::Reached;
use crate::items::Items;
use crate::usual::chain::goes_on;
use crate::usual::list::{UsualNumber, number_at};
use std::alloc::AllocError;
use twp_grammar::{Item, State, byte_at};
use twp_grid::{EastWest, NorthSouth};

/// How many bytes `T. ` has.
const TOWNSHIP: usize = 3;

/// How many bytes ` N., R. ` has.
const TOWNSHIP_SIDE: usize = 8;

/// How many bytes ` W.,` has.
const RANGE_SIDE: usize = 4;

/// What a heading says, and the place after it.
#[derive(Clone, Copy)]
struct UsualHeading {
    number: u16,
    north_south: NorthSouth,
    range: u16,
    east_west: EastWest,
    end: usize,
}

impl Items {
    /// Takes a heading as `T. 2 N., R. 3 W.,`.
    #[inline(never)]
    pub(crate) fn take_heading(&mut self, text: &[u8], at: usize) -> Result<Reached, AllocError>
        requires place { at ≤ length text.now }
        requires limit { length text.now ≤ TEXT_LIMIT }
        ensures { IfOk result
            (λ to. Leads text.now at State.Start self.old to.at to.state self.new) }
    {
        let Some(heading) = heading_of(text, at) else {
            return Ok(Reached {
                at,
                state: State::Start,
            });
        };
        self.push(Item::Heading {
            number: heading.number,
            north_south: heading.north_south,
            range: heading.range,
            east_west: heading.east_west,
            at: at as u32,
        })?;
        Ok(Reached {
            at: heading.end,
            state: State::BeforeGroup,
        })
    }
}

/// The heading at a place, if it is spelled in the usual way.
#[inline(always)]
fn heading_of(text: &[u8], at: usize) -> Option<UsualHeading>
    requires place { at ≤ length text.now }
    requires limit { length text.now ≤ TEXT_LIMIT }
    ensures { IfSome result (λ heading. (items : List TakenItem)
        → Leads text.now at State.Start items heading.end State.BeforeGroup
        (TakenItem.Heading heading.number heading.north_south heading.range heading.east_west at
        ∷ items)) }
{
    if !goes_on(text, at, b"T. ") {
        return None;
    }
    let number = plain_number(text, at + TOWNSHIP)?;
    let north_south = township_side(text, number.end)?;
    let range = plain_number(text, number.end + TOWNSHIP_SIDE)?;
    let east_west = range_side(text, range.end)?;
    Some(UsualHeading {
        number: number.numeral.value,
        north_south,
        range: range.numeral.value,
        east_west,
        end: range.end + RANGE_SIDE,
    })
}

/// The number right at a place, if it doesn't begin with a zero.
#[inline(always)]
fn plain_number(text: &[u8], at: usize) -> Option<UsualNumber>
    requires place { at ≤ length text.now }
    requires limit { length text.now ≤ TEXT_LIMIT }
    ensures number { IfSome result (λ it. IsNumberAfter text.now at it.numeral it.end) }
    ensures plain { IfSome result (λ it. begins_with_zero (drop it.numeral.at text.now) ≡ false) }
    ensures within { IfSome result (λ it. it.end ≤ length text.now) }
{
    if byte_at(text, at, 0) == b'0' {
        return None;
    }
    number_at(text, at)
}

/// The township's side, if it is spelled as ` N., R. `.
#[inline(always)]
fn township_side(text: &[u8], at: usize) -> Option<NorthSouth>
    requires { at ≤ length text.now }
    ensures { IfSome result (λ side. (items : List TakenItem)
        → Leads text.now at State.TownshipNumber items (at + 8) State.RangeStop
        (with_newest (TownshipSide side) items)) }
{
    if goes_on(text, at, b" N., R. ") {
        return Some(NorthSouth::N);
    }
    if goes_on(text, at, b" S., R. ") {
        return Some(NorthSouth::S);
    }
    None
}

/// The range's side, if it is spelled as ` W.,`.
#[inline(always)]
fn range_side(text: &[u8], at: usize) -> Option<EastWest>
    requires { at ≤ length text.now }
    ensures { IfSome result (λ side. (items : List TakenItem)
        → Leads text.now at State.RangeNumber items (at + 4) State.BeforeGroup
        (with_newest (RangeSide side) items)) }
{
    if goes_on(text, at, b" W.,") {
        return Some(EastWest::W);
    }
    if goes_on(text, at, b" E.,") {
        return Some(EastWest::E);
    }
    None
}
