//! What the reader's loop watches for, so that it can say that a text has no doubtful place. It looks at the
//! tokens that it takes one by one. What is taken as a whole, in its usual spelling, is never doubtful.
//! Also what a token changes in the newest item.
ghost use Rattle.std.specs.Prelude.{◌≡◌, Some, true, false, IsTrue, OnOk};
ghost use Rattle.twp_grammar.specs.Tokens.{seen};
ghost use Rattle.twp_read.specs.steps.Watching.{is_step, is_section, is_heading, is_lot_join};
ghost use Rattle.twp_read.specs.steps.Watching.{is_pending, word_after, clouds, joins_parts};
ghost use Rattle.twp_read.specs.steps.Watching.{begins_list, is_quiet, watch_after};
ghost use Rattle.twp_read.specs.steps.TokenSteps.{changed};

use crate::description::Reached;
use crate::doubt::{Clarity, begins_step, is_padded, is_singular};
use std::alloc::AllocError;
use twp_grammar::{Item, Kind, Numeral, State, Step, Token};
use twp_grid::{EastWest, NorthSouth};

/// The word whose numbers are read one by one, until it is known whether there are several.
#[derive(Clone, Copy)]
pub enum ListWord {
    /// None that needs it: a section, or several lots.
    Usual,
    /// `secs` or `sections`: several numbers are not doubtful.
    Sections,
    /// `lot`: several numbers are doubtful.
    Lot,
}

/// What was seen so far.
#[derive(Clone, Copy)]
pub struct Watch {
    pub word: ListWord,
    /// Whether `and` came right after a step.
    pub joins_parts: bool,
    /// Whether there may be another doubtful place.
    pub is_clouded: bool,
}

impl Watch {
    /// Nothing so far.
    #[inline(always)]
    pub fn begun() -> Watch
        ensures { result ≡ record { word = ListWord.Usual; joins_parts = false; is_clouded = false } }
    {
        Watch {
            word: ListWord::Usual,
            joins_parts: false,
            is_clouded: false,
        }
    }

    /// Whether what follows may be taken as a whole, in its usual spelling.
    #[inline(always)]
    pub fn is_usual(self) -> bool
        ensures { IsTrue result → self.word ≡ ListWord.Usual }
    {
        matches!(self.word, ListWord::Usual)
    }

    /// What was seen with one more token, which leads to a state.
    #[inline(always)]
    pub fn after(self, from: Reached, token: &Token<'_>, after: State) -> Watch
        ensures { result ≡ watch_after self from.state from.at (seen token.now) after }
    {
        if self.is_usual() && is_quiet(from.state, token.kind) {
            return self;
        }
        Watch {
            word: word_after(self.word, token, after),
            joins_parts: self.joins_parts || joins_parts(from.state, token.kind),
            is_clouded: self.is_clouded || clouds(self.word, from, token),
        }
    }

    /// Whether the text may have a doubtful place.
    #[inline(always)]
    pub fn clarity(self) -> Clarity
        ensures { result ≡ Clarity.Clear → (self.joins_parts ≡ false) × (self.is_clouded ≡ false) }
    {
        if self.joins_parts || self.is_clouded {
            Clarity::Unclear
        } else {
            Clarity::Clear
        }
    }
}

/// Whether a token says nothing new after a word that needs no watching.
#[inline(always)]
fn is_quiet(state: State, kind: Kind) -> bool
    ensures { result ≡ is_quiet state kind }
{
    match kind {
        Kind::Sec | Kind::Lot | Kind::And | Kind::To | Kind::Number(_) => false,
        Kind::NorthSouth(_) | Kind::EastWest(_) | Kind::Corner(_) => {
            !matches!(state, State::Step)
        }
        _ => true,
    }
}

/// The word whose numbers are read one by one, after one more token.
#[inline(always)]
fn word_after(word: ListWord, token: &Token<'_>, after: State) -> ListWord
    ensures { result ≡ word_after token.now.kind token.now.text.now (Some after) word }
{
    match token.kind {
        Kind::Sec if is_singular(token.text) => ListWord::Usual,
        Kind::Sec => ListWord::Sections,
        Kind::Lot if is_singular(token.text) => ListWord::Lot,
        Kind::Lot => ListWord::Usual,
        _ if is_pending(after) => word,
        _ => ListWord::Usual,
    }
}

/// Whether a token is `and` right after a step.
#[inline(always)]
fn joins_parts(state: State, kind: Kind) -> bool
    ensures { result ≡ joins_parts state kind }
{
    matches!(state, State::Step) && matches!(kind, Kind::And)
}

/// Whether a token is doubtful, or may become so, but for `and` after a step.
#[inline(always)]
fn clouds(word: ListWord, from: Reached, token: &Token<'_>) -> bool
    ensures { result ≡ clouds true word from.state from.at (seen token.now) token.now.kind }
{
    match token.kind {
        Kind::And | Kind::To => begins_list(word, from.state),
        Kind::Number(_) => {
            begins_list(word, from.state)
                || is_heading(from.state) && is_padded(token.text)
                || is_lot_join(from.state) && matches!(word, ListWord::Lot)
        }
        kind => begins_step(kind) && matches!(from.state, State::Step) && from.at < token.at,
    }
}

/// Whether another number makes a list of sections, after a word that isn't plural.
#[inline(always)]
fn begins_list(word: ListWord, state: State) -> bool
    ensures { result ≡ begins_list word state }
{
    is_section(state) && !matches!(word, ListWord::Sections)
}

/// Whether the tokens so far end with the number of a section, or with the comma after it.
#[inline(always)]
fn is_section(state: State) -> bool
    ensures { result ≡ is_section state }
{
    matches!(state, State::SectionNumber | State::SectionComma)
}

/// Whether the number of a heading follows.
#[inline(always)]
fn is_heading(state: State) -> bool
    ensures { result ≡ is_heading state }
{
    matches!(
        state,
        State::Township | State::TownshipStop | State::Range | State::RangeStop
    )
}

/// Whether another lot may follow the first one.
#[inline(always)]
fn is_lot_join(state: State) -> bool
    ensures { result ≡ is_lot_join state }
{
    matches!(state, State::LotComma | State::LotAnd | State::LotTo)
}

/// Whether it isn't known yet whether a second number follows.
#[inline(always)]
fn is_pending(state: State) -> bool
    ensures { result ≡ is_pending state }
{
    matches!(state, State::SectionStop | State::LotNumber)
        || is_section(state)
        || is_lot_join(state)
}

/// What a token says of the newest item.
#[derive(Clone, Copy, PartialEq, Eq)]
pub enum ItemChange {
    TownshipNumber(u16),
    TownshipSide(NorthSouth),
    RangeNumber(u16),
    RangeSide(EastWest),
    /// The last number of a range.
    Last(Numeral),
    /// Parts of the section follow.
    Parted,
    /// One more step, of which the last one is a part.
    Grown(Step),
}

/// Changes an item by what a token says of it.
#[inline(always)]
pub fn change_item(item: &mut Item, change: ItemChange) -> Result<(), AllocError>
    ensures { OnOk result (item.new ≡ changed change item.old) }
{
    match change {
        ItemChange::TownshipNumber(value) => {
            if let Item::Heading { number, .. } = item {
                *number = value;
            }
        }
        ItemChange::TownshipSide(side) => {
            if let Item::Heading { north_south, .. } = item {
                *north_south = side;
            }
        }
        ItemChange::RangeNumber(value) => {
            if let Item::Heading { range, .. } = item {
                *range = value;
            }
        }
        ItemChange::RangeSide(side) => {
            if let Item::Heading { east_west, .. } = item {
                *east_west = side;
            }
        }
        ItemChange::Last(number) => match item {
            Item::Sections { last, .. } => *last = number,
            Item::Lots { last, .. } => *last = number,
            _ => {}
        },
        ItemChange::Parted => {
            if let Item::Sections { whole, .. } = item {
                *whole = false;
            }
        }
        ItemChange::Grown(step) => {
            if let Item::Chain { steps, .. } = item {
                steps.push(step)?;
            }
        }
    }
    Ok(())
}
