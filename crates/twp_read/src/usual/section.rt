//! What a description says of a section, up to its first lot, and the first two of several sections, in their
//! usual spelling.
ghost use Rattle.std.specs.Prelude.{◌≡◌, ◌≤◌, ◌+◌, List, Some, length, IfOk, IfSome};
ghost use Rattle.twp_grammar.specs.declared.item.Item.{Item as TakenItem};
ghost use Rattle.twp_grammar.specs.Grammar.{number};
ghost use Rattle.twp_grammar.specs.Machine.{next};
ghost use Rattle.twp_grammar.specs.Sentences.{TEXT_LIMIT};
ghost use Rattle.twp_read.specs.steps.TokenSteps.{before_parts};
ghost use Rattle.twp_read.specs.steps.Usual.{Leads};

use crate::description::Reached;
use crate::items::Items;
use crate::usual::chain::goes_on;
use crate::usual::list::{COMMA, ListKind, number_after};
use std::alloc::AllocError;
use twp_grammar::{Item, State, after_white};

/// How many bytes `sec. ` has.
const SEC: usize = 5;

/// How many bytes `secs. ` has.
const SECS: usize = 6;

/// How many bytes `Section ` has.
const SECTION: usize = 8;

/// How many bytes `lots ` has.
const LOTS: usize = 5;

/// How many bytes `, lots ` has.
const COMMA_LOTS: usize = 7;

/// How many bytes a colon has.
const COLON: usize = 1;

impl Items {
    /// Takes a section as `sec. 5`, and the colon after it, or the first two of several sections.
    #[inline(always)]
    pub(crate) fn take_section(&mut self, text: &[u8], from: Reached) -> Result<Reached, AllocError>
        requires place { from.at ≤ length text.now }
        requires limit { length text.now ≤ TEXT_LIMIT }
        ensures { IfOk result
            (λ to. Leads text.now from.at from.state self.old to.at to.state self.new) }
    {
        let Some(word) = after_sec(text, from) else {
            return self.take_several(text, from);
        };
        let Some(number) = number_after(text, word.at) else {
            return Ok(from);
        };
        self.push(Item::Sections {
            first: number.numeral,
            last: number.numeral,
            whole: true,
        })?;
        if !goes_on(text, number.end, b":") {
            return Ok(Reached {
                at: number.end,
                state: State::SectionNumber,
            });
        }
        self.before_parts(State::SectionNumber)?;
        Ok(Reached {
            at: number.end + COLON,
            state: State::BeforePart,
        })
    }

    /// Takes the first two of several sections as `secs. 5, 6`. With one number alone, it isn't known yet
    /// whether the word is doubtful, and the reader's loop watches each token.
    #[inline(always)]
    fn take_several(&mut self, text: &[u8], from: Reached) -> Result<Reached, AllocError>
        requires place { from.at ≤ length text.now }
        requires limit { length text.now ≤ TEXT_LIMIT }
        ensures { IfOk result
            (λ to. Leads text.now from.at from.state self.old to.at to.state self.new) }
    {
        let state = from.state;
        if !state.begins_sections() {
            return Ok(from);
        }
        let word = after_white(text, from.at);
        if !goes_on(text, word, b"secs. ") {
            return Ok(from);
        }
        let Some(first) = number_after(text, word + SECS) else {
            return Ok(from);
        };
        if !goes_on(text, first.end, b",") {
            return Ok(from);
        }
        let Some(second) = number_after(text, first.end + COMMA) else {
            return Ok(from);
        };
        self.push(ListKind::Sections.entry(first.numeral))?;
        self.push(ListKind::Sections.entry(second.numeral))?;
        Ok(Reached {
            at: second.end,
            state: State::ListNumber,
        })
    }

    /// Takes the first of several lots as `lots 1`.
    #[inline(always)]
    pub(crate) fn take_lots(&mut self, text: &[u8], from: Reached) -> Result<Reached, AllocError>
        requires place { from.at ≤ length text.now }
        requires limit { length text.now ≤ TEXT_LIMIT }
        ensures { IfOk result
            (λ to. Leads text.now from.at from.state self.old to.at to.state self.new) }
    {
        let Some(word) = after_lots(text, from) else {
            return Ok(from);
        };
        let Some(number) = number_after(text, word) else {
            return Ok(from);
        };
        self.before_parts(from.state)?;
        self.push(ListKind::Lots.entry(number.numeral))?;
        Ok(Reached {
            at: number.end,
            state: State::LotNumber,
        })
    }
}

/// The place after the word that a section begins with, if it is spelled as `sec. ` or `Section `.
#[inline(always)]
fn after_sec(text: &[u8], from: Reached) -> Option<Reached>
    requires { from.at ≤ length text.now }
    ensures leads { IfSome result (λ word. (items : List TakenItem)
        → Leads text.now from.at from.state items word.at word.state items) }
    ensures number { IfSome result (λ word. next word.state number ≡ Some State.SectionNumber) }
{
    if !from.state.begins_sections() {
        return None;
    }
    let at = after_white(text, from.at);
    if goes_on(text, at, b"sec. ") {
        return Some(Reached {
            at: at + SEC,
            state: State::SectionStop,
        });
    }
    if goes_on(text, at, b"Section ") {
        return Some(Reached {
            at: at + SECTION,
            state: State::SectionWord,
        });
    }
    None
}

/// The place after the word that several lots begin with, if it is there as `lots `, or after
/// the number of a section as `, lots `.
#[inline(always)]
fn after_lots(text: &[u8], from: Reached) -> Option<usize>
    requires { from.at ≤ length text.now }
    ensures leads { IfSome result (λ word. (items : List TakenItem)
        → Leads text.now from.at from.state items word State.Lot
        (before_parts from.state items)) }
    ensures within { IfSome result (λ word. word ≤ length text.now) }
{
    match from.state {
        State::SectionNumber if goes_on(text, from.at, b", lots ") => Some(from.at + COMMA_LOTS),
        state if state.begins_part() && goes_on(text, from.at, b"lots ") => Some(from.at + LOTS),
        _ => None,
    }
}
