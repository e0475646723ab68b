//! Numbers, and how a list of lots or of sections continues with them.
ghost use Rattle.std.specs.Prelude.{◌≡◌, ◌≤◌, ◌<◌, ◌+◌, ◌++◌, false, List, length, drop, codes};
ghost use Rattle.std.specs.Prelude.{IfOk, IfSome, IsTrue};
ghost use Rattle.twp_grammar.specs.Tokens.{is_white};
ghost use Rattle.twp_grammar.specs.declared.item.Item.{Item as TakenItem};
ghost use Rattle.twp_read.specs.steps.Usual.{IsNumberAfter, IsNumberToken, IsAfterWhite, Leads, entry_of};
ghost use Rattle.twp_read.specs.steps.Usual.{state_after, last_state_after, listed_in};
ghost use Rattle.twp_read.specs.steps.Usual.{listed_after_and, listed_after_to};
ghost use Rattle.twp_read.specs.steps.Usual.{joins_doubtfully};
ghost use Rattle.twp_read.specs.steps.Watching.{is_step};
ghost use Rattle.twp_grammar.specs.Sentences.{TEXT_LIMIT};

use crate::description::Reached;
use crate::items::Items;
use crate::usual::chain::goes_on;
use crate::watch::ItemChange;
use std::alloc::AllocError;
use twp_grammar::{Item, Kind, Numeral, State, after_white, byte_at, digits, lexeme_at};

/// How many bytes a comma has.
pub const COMMA: usize = 1;

/// A number, and the place after it.
#[derive(Clone, Copy)]
pub struct UsualNumber {
    pub numeral: Numeral,
    pub end: usize,
}

/// What a list is of.
#[derive(Clone, Copy)]
pub enum ListKind {
    Lots,
    Sections,
}

impl ListKind {
    /// What a list is of that continues in a state with a comma and a number.
    #[inline(always)]
    pub fn in_state(state: State) -> Option<ListKind>
        ensures { result ≡ listed_in state }
    {
        match state {
            State::LotNumber | State::LotLast | State::LotInclusive => Some(ListKind::Lots),
            State::ListNumber | State::ListLast | State::ListInclusive => Some(ListKind::Sections),
            _ => None,
        }
    }

    /// What a list is of whose next number comes after `and`.
    #[inline(always)]
    pub fn after_and(state: State) -> Option<ListKind>
        ensures { result ≡ listed_after_and state }
    {
        match state {
            State::LotAnd => Some(ListKind::Lots),
            State::ListAnd => Some(ListKind::Sections),
            _ => None,
        }
    }

    /// What a list is of that has a range whose last number comes after `to`.
    #[inline(always)]
    pub fn after_to(state: State) -> Option<ListKind>
        ensures { result ≡ listed_after_to state }
    {
        match state {
            State::LotTo => Some(ListKind::Lots),
            State::ListTo => Some(ListKind::Sections),
            _ => None,
        }
    }

    /// The state after the last number of a range.
    #[inline(always)]
    pub fn last_state(self) -> State
        ensures { result ≡ last_state_after self }
    {
        match self {
            ListKind::Lots => State::LotLast,
            ListKind::Sections => State::ListLast,
        }
    }

    /// The item of one of its numbers.
    #[inline(always)]
    pub fn entry(self, number: Numeral) -> Item
        ensures { result ≡ entry_of self number }
    {
        match self {
            ListKind::Lots => Item::Lots {
                first: number,
                last: number,
            },
            ListKind::Sections => Item::Sections {
                first: number,
                last: number,
                whole: true,
            },
        }
    }

    /// The state after one of its numbers.
    #[inline(always)]
    pub fn state(self) -> State
        ensures { result ≡ state_after self }
    {
        match self {
            ListKind::Lots => State::LotNumber,
            ListKind::Sections => State::ListNumber,
        }
    }
}

/// The number that is the next token of a text from a place on.
#[inline(always)]
pub fn number_after(text: &[u8], from: usize) -> Option<UsualNumber>
    requires place { from ≤ length text.now }
    requires limit { length text.now ≤ TEXT_LIMIT }
    ensures number { IfSome result (λ it. IsNumberAfter text.now from it.numeral it.end) }
    ensures token { IfSome result (λ it. IsNumberToken text.now from it.numeral it.end) }
    ensures within { IfSome result (λ it. it.end ≤ length text.now) }
    ensures forward { IfSome result (λ it. from < it.end) }
{
    number_at(text, after_white(text, from))
}

/// The number right at a place.
#[inline(always)]
pub fn number_at(text: &[u8], at: usize) -> Option<UsualNumber>
    requires place { at ≤ length text.now }
    requires limit { length text.now ≤ TEXT_LIMIT }
    ensures number { IfSome result (λ it. IsNumberAfter text.now at it.numeral it.end) }
    ensures token { IfSome result (λ it. IsNumberToken text.now at it.numeral it.end) }
    ensures here { IfSome result (λ it. it.numeral.at ≡ at) }
    ensures within { IfSome result (λ it. it.end ≤ length text.now) }
    ensures forward { IfSome result (λ it. at < it.end) }
{
    if !byte_at(text, at, 0).is_ascii_digit() {
        return None;
    }
    let number = digits(text, at);
    let Kind::Number(value) = number.kind else {
        return None;
    };
    Some(UsualNumber {
        numeral: Numeral {
            value,
            at: at as u32,
        },
        end: at + number.size,
    })
}

/// Passes over white space, but not after a step, where it may be doubtful.
#[inline(always)]
pub fn ahead(text: &[u8], from: Reached) -> Reached
    requires place { from.at ≤ length text.now }
    requires state { is_step from.state ≡ false }
    ensures leads { (items : List TakenItem)
        → Leads text.now from.at from.state items result.at result.state items }
    ensures same { result.state ≡ from.state }
{
    Reached {
        at: after_white(text, from.at),
        state: from.state,
    }
}

/// Passes over a comma and the white space after it, where a comma may follow the tokens so far.
#[inline(always)]
pub fn after_list_comma(text: &[u8], comma: Reached, next: usize) -> Reached
    requires spelled { drop comma.at text.now ≡ codes "," ++ drop (comma.at + 1) text.now }
    requires within { comma.at + 1 ≤ length text.now }
    requires next { IsAfterWhite text.now (comma.at + 1) next }
    ensures { (items : List TakenItem)
        → Leads text.now comma.at comma.state items result.at result.state items }
{
    match comma.state.next(Kind::Comma) {
        Some(state) => Reached { at: next, state },
        None => comma,
    }
}

/// Passes over the comma after the number of a section, and the white space after it.
#[inline(always)]
fn after_section_comma(text: &[u8], from: Reached) -> Reached
    requires { from.at ≤ length text.now }
    ensures { (items : List TakenItem)
        → Leads text.now from.at from.state items result.at result.state items }
{
    let State::SectionNumber = from.state else {
        return from;
    };
    if !goes_on(text, from.at, b",") {
        return from;
    }
    after_list_comma(text, from, after_white(text, from.at + COMMA))
}

/// The place after `and`, or after `to` or a word for it, in either case, if one is right there
/// and may follow the tokens so far.
#[inline(always)]
pub fn after_joining_word(text: &[u8], from: Reached) -> Option<Reached>
    requires { from.at ≤ length text.now }
    ensures leads { IfSome result (λ word. (items : List TakenItem)
        → Leads text.now from.at from.state items word.at word.state items) }
    ensures forward { IfSome result (λ word. from.at < word.at) }
{
    if !begins_joining_word(byte_at(text, from.at, 0)) {
        return None;
    }
    if may_join_doubtfully(from.state) {
        return None;
    }
    let word = lexeme_at(text, from.at);
    match word.kind {
        Kind::And => Some(Reached {
            at: from.at + word.size,
            state: from.state.next(Kind::And)?,
        }),
        Kind::To => Some(Reached {
            at: from.at + word.size,
            state: from.state.next(Kind::To)?,
        }),
        _ => None,
    }
}

/// Whether the word may be doubtful in a state: after a step, or after the number of a section.
#[inline(always)]
fn may_join_doubtfully(state: State) -> bool
    ensures { result ≡ joins_doubtfully state }
{
    matches!(
        state,
        State::Step | State::SectionNumber | State::SectionComma
    )
}

/// Whether `and`, `to`, `thru` or `through` may begin with a byte.
#[inline(always)]
fn begins_joining_word(byte: u8) -> bool
    ensures some { IsTrue result → 0 < byte }
    ensures dark { IsTrue result → is_white byte ≡ false }
{
    matches!(byte, b'a' | b't' | b'A' | b'T')
}

impl Items {
    /// Takes the numbers that a list of lots or of sections continues with, and what joins them.
    #[inline(always)]
    pub(crate) fn take_list(&mut self, text: &[u8], from: Reached) -> Result<Reached, AllocError>
        requires place { from.at ≤ length text.now }
        requires limit { length text.now ≤ TEXT_LIMIT }
        ensures { IfOk result
            (λ to. Leads text.now from.at from.state self.old to.at to.state self.new) }
    {
        if ListKind::in_state(from.state).is_none() {
            return Ok(after_section_comma(text, from));
        }
        let mut reached = self.take_numbers(text, from)?;
        'words: while let Some(word) = after_joining_word(text, reached) {
            let joined = self.take_joined(text, word)?;
            reached = self.take_numbers(text, joined)?;
        }
        Ok(reached)
    }

    /// Takes the numbers that a list continues with, as long as each follows a comma, and a comma
    /// after the last of them.
    #[inline(always)]
    fn take_numbers(&mut self, text: &[u8], from: Reached) -> Result<Reached, AllocError>
        requires place { from.at ≤ length text.now }
        requires limit { length text.now ≤ TEXT_LIMIT }
        ensures { IfOk result
            (λ to. Leads text.now from.at from.state self.old to.at to.state self.new) }
    {
        let Some(list) = ListKind::in_state(from.state) else {
            return Ok(from);
        };
        let mut reached = ahead(text, from);
        'numbers: while goes_on(text, reached.at, b",") {
            let next = after_white(text, reached.at + COMMA);
            let Some(number) = number_at(text, next) else {
                return Ok(after_list_comma(text, reached, next));
            };
            self.push(list.entry(number.numeral))?;
            let after = Reached {
                at: number.end,
                state: list.state(),
            };
            reached = ahead(text, after);
        }
        Ok(reached)
    }

    /// Takes the number after a word that joins it to a list, if one is there.
    #[inline(always)]
    fn take_joined(&mut self, text: &[u8], word: Reached) -> Result<Reached, AllocError>
        requires place { word.at ≤ length text.now }
        requires limit { length text.now ≤ TEXT_LIMIT }
        ensures { IfOk result
            (λ to. Leads text.now word.at word.state self.old to.at to.state self.new) }
    {
        let Some(number) = number_after(text, word.at) else {
            return Ok(word);
        };
        if let Some(list) = ListKind::after_and(word.state) {
            self.push(list.entry(number.numeral))?;
            return Ok(Reached {
                at: number.end,
                state: list.state(),
            });
        }
        let Some(list) = ListKind::after_to(word.state) else {
            return Ok(word);
        };
        self.change(ItemChange::Last(number.numeral))?;
        Ok(Reached {
            at: number.end,
            state: list.last_state(),
        })
    }
}
