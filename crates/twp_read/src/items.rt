ghost use Rattle.std.specs.Prelude.{◌≡◌, ◌≤◌, ◌∷◌, ◌+◌, [], length, IfOk, OnOk};
ghost use Rattle.twp_grammar.specs.Items.{north_or_south, east_or_west};
ghost use Rattle.twp_grammar.specs.declared.item.Item.{Item};

use crate::watch::{ItemChange, change_item};
use std::alloc::{AllocError, Global};
use std::marker::Model;
use twp_grammar::{Item, Kind, Numeral, State, Step, Steps};
use twp_grid::{Corner, EastWest, NorthSouth, Side};

/// The items of the tokens so far. Contracts see them with the newest first.
#[derive(Drop)]
pub struct Items {
    pub(crate) items: Vec<Item>,
}

impl Model for Items {
    ghost use Rattle.std.specs.Prelude.{List, reverse};
    ghost use Rattle.twp_grammar.specs.declared.item.Item.{Item};

    ghost Value = { List Item };

    ghost view = { λ s. reverse s.items.items };
}

impl Items {
    ghost use Rattle.std.specs.Prelude.{reverse};
    ghost use Rattle.twp_read.specs.steps.TokenSteps.{with_newest, before_parts, take_step};
    ghost use Rattle.twp_read.specs.steps.TokenSteps.{take_number};
    ghost use Rattle.twp_read.specs.steps.TokenSteps.{take_all, take_township, take_north_south};
    ghost use Rattle.twp_read.specs.steps.TokenSteps.{take_east_west, take_token};

    /// No items yet, with room for this many.
    pub fn with_room(alloc: Global, room: usize) -> Result<Items, AllocError>
        ensures { IfOk result (λ items. items ≡ []) }
    {
        Ok(Items {
            items: Vec::with_capacity(alloc, room)?,
        })
    }

    /// The items, the oldest first.
    pub fn into_vec(self) -> Vec<Item>
        ensures { result.items ≡ reverse self }
    {
        let Items { items } = self;
        items
    }

    /// Adds an item.
    #[inline(always)]
    pub(crate) fn push(&mut self, item: Item) -> Result<(), AllocError>
        ensures { OnOk result (self.new ≡ item ∷ self.old) }
    {
        self.items.push(item)?;
        Ok(())
    }

    /// Changes the newest item, if there is one.
    #[inline(always)]
    pub(crate) fn change(&mut self, change: ItemChange) -> Result<(), AllocError>
        ensures { OnOk result (self.new ≡ with_newest change self.old) }
    {
        let Some(item) = self.items.last_mut() else {
            return Ok(());
        };
        change_item(item, change)
    }

    /// What a token that may follow in a state does to the items.
    #[inline(always)]
    pub fn take(
        &mut self,
        alloc: Global,
        state: State,
        kind: Kind,
        at: u32,
    ) -> Result<(), AllocError>
        ensures { OnOk result (self.new ≡ take_token state kind at self.old) }
    {
        match kind {
            Kind::T => self.take_township(at),
            Kind::NorthSouth(side) => self.take_north_south(alloc, state, side, at),
            Kind::EastWest(side) => self.take_east_west(alloc, state, side, at),
            Kind::Corner(corner) => self.take_step(alloc, state, Step::Quarter(corner), at),
            Kind::Number(value) => self.take_number(state, Numeral { value, at }),
            Kind::Lot => self.before_parts(state),
            Kind::Colon => self.before_parts(state),
            Kind::All => self.take_all(state, at),
            _ => Ok(()),
        }
    }

    /// The `T` of a heading, whose other parts are still to come.
    #[inline(never)]
    fn take_township(&mut self, at: u32) -> Result<(), AllocError>
        ensures { OnOk result (self.new ≡ take_township at self.old) }
    {
        self.push(Item::Heading {
            number: 0,
            north_south: NorthSouth::N,
            range: 0,
            east_west: EastWest::E,
            at,
        })
    }

    /// The side of a township, or a half.
    #[inline(always)]
    fn take_north_south(
        &mut self,
        alloc: Global,
        state: State,
        side: NorthSouth,
        at: u32,
    ) -> Result<(), AllocError>
        ensures { OnOk result (self.new ≡ take_north_south state side at self.old) }
    {
        match state {
            State::TownshipNumber => self.change(ItemChange::TownshipSide(side)),
            _ => self.take_step(alloc, state, Step::Half(north_or_south(side)), at),
        }
    }

    /// The side of a range, or a half.
    #[inline(always)]
    fn take_east_west(
        &mut self,
        alloc: Global,
        state: State,
        side: EastWest,
        at: u32,
    ) -> Result<(), AllocError>
        ensures { OnOk result (self.new ≡ take_east_west state side at self.old) }
    {
        match state {
            State::RangeNumber => self.change(ItemChange::RangeSide(side)),
            _ => self.take_step(alloc, state, Step::Half(east_or_west(side)), at),
        }
    }

    /// A step: the next one of the chain before it, or the first of a new chain.
    #[inline(always)]
    fn take_step(
        &mut self,
        alloc: Global,
        state: State,
        step: Step,
        at: u32,
    ) -> Result<(), AllocError>
        ensures { OnOk result (self.new ≡ take_step state step at self.old) }
    {
        if state.is_in_chain() {
            self.change(ItemChange::Grown(step))
        } else {
            self.before_parts(state)?;
            self.push_chain(alloc, step, at)
        }
    }

    /// A chain of one step.
    #[inline(always)]
    pub(crate) fn push_chain(
        &mut self,
        alloc: Global,
        step: Step,
        at: u32,
    ) -> Result<(), AllocError>
        ensures { OnOk result (self.new ≡ Item.Chain (step ∷ []) at ∷ self.old) }
    {
        let mut steps = Steps::none(alloc);
        steps.push(step)?;
        self.push(Item::Chain { steps, at })
    }

    /// A number of the heading, the first or the last number of a range of sections or lots.
    #[inline(never)]
    fn take_number(&mut self, state: State, number: Numeral) -> Result<(), AllocError>
        ensures { OnOk result (self.new ≡ take_number state number self.old) }
    {
        match state {
            State::Township | State::TownshipStop => {
                self.change(ItemChange::TownshipNumber(number.value))
            }
            State::Range | State::RangeStop => self.change(ItemChange::RangeNumber(number.value)),
            State::ListTo | State::LotTo => self.change(ItemChange::Last(number)),
            State::Lot | State::LotComma | State::LotLastComma | State::LotAnd => {
                self.push(Item::Lots {
                    first: number,
                    last: number,
                })
            }
            _ => self.push(Item::Sections {
                first: number,
                last: number,
                whole: true,
            }),
        }
    }

    /// All of a section is a part. After several sections, which are whole, it says nothing new.
    #[inline(never)]
    fn take_all(&mut self, state: State, at: u32) -> Result<(), AllocError>
        ensures { OnOk result (self.new ≡ take_all state at self.old) }
    {
        match state {
            State::ListNumber
            | State::ListLast
            | State::ListInclusive
            | State::ListComma
            | State::ListLastComma
            | State::ListColon => Ok(()),
            _ => {
                self.before_parts(state)?;
                self.push(Item::All { at })
            }
        }
    }

    /// With its first part a section becomes one that isn't whole.
    #[inline(always)]
    pub(crate) fn before_parts(&mut self, state: State) -> Result<(), AllocError>
        ensures { OnOk result (self.new ≡ before_parts state self.old) }
    {
        match state {
            State::SectionNumber | State::SectionComma => self.change(ItemChange::Parted),
            _ => Ok(()),
        }
    }
}

#[inline(always)]
fn north_or_south(side: NorthSouth) -> Side
    ensures { result ≡ north_or_south side }
{
    match side {
        NorthSouth::N => Side::N,
        NorthSouth::S => Side::S,
    }
}

#[inline(always)]
fn east_or_west(side: EastWest) -> Side
    ensures { result ≡ east_or_west side }
{
    match side {
        EastWest::E => Side::E,
        EastWest::W => Side::W,
    }
}
