//! Parts in their usual spelling: their steps, what comes between them, and the period after the last.
ghost use Rattle.std.specs.Prelude.{◌≡◌, ◌≤◌, ◌<◌, ◌∷◌, ◌+◌, [], true, List, length, IfOk, IfSome};
ghost use Rattle.twp_grammar.specs.declared.item.Item.{Item as TakenItem};
ghost use Rattle.twp_grammar.specs.Machine.{is_in_chain};
ghost use Rattle.twp_grammar.specs.Sentences.{TEXT_LIMIT};
ghost use Rattle.twp_read.specs.steps.Usual.{Leads, IsStepAt};

use crate::description::Reached;
use crate::items::Items;
use crate::usual::chain::{UsualStep, goes_on, step_at, take_more_steps};
use std::alloc::{AllocError, Global};
use twp_grammar::{Kind, State, after_white};

/// How many bytes a half or a quarter has.
const FRACTION: usize = 3;

/// How many bytes `of the` has, with a space on either side.
const OF_THE: usize = 8;

/// How many bytes a comma has.
const COMMA: usize = 1;

/// How many bytes a comma has, with a space after it.
const COMMA_SPACE: usize = 2;

/// How many bytes `and` has, with a space after it.
const AND: usize = 4;

/// How many bytes a period has.
const STOP: usize = 1;

impl Items {
    /// Takes what comes next of a chain, and the parts after it, as long as each step is spelled
    /// in the usual way.
    #[inline(always)]
    pub(crate) fn take_parts(
        &mut self,
        alloc: Global,
        text: &[u8],
        from: Reached,
    ) -> Result<Reached, AllocError>
        requires place { from.at ≤ length text.now }
        requires limit { length text.now ≤ TEXT_LIMIT }
        ensures { IfOk result
            (λ to. Leads text.now from.at from.state self.old to.at to.state self.new) }
    {
        let begun = self.take_more(text, from)?;
        let mut reached = ahead_of_part(text, begun);
        while reached.state.begins_part() {
            if let Some(first) = step_at(text, reached.at) {
                self.before_parts(reached.state)?;
                reached = self.take_chain(alloc, text, reached.at, first)?;
            } else if let Some(after) = after_and(text, reached) {
                reached = after;
            } else {
                break;
            }
        }
        Ok(reached)
    }

    /// Takes what the newest item continues with, where it is a chain that may continue.
    #[inline(always)]
    fn take_more(&mut self, text: &[u8], from: Reached) -> Result<Reached, AllocError>
        requires { from.at ≤ length text.now }
        ensures { IfOk result
            (λ to. Leads text.now from.at from.state self.old to.at to.state self.new) }
    {
        if !from.state.is_in_chain() {
            return Ok(from);
        }
        let Some(item) = self.items.last_mut() else {
            return Ok(from);
        };
        take_more_steps(item, text, from)
    }

    /// Takes a chain whose first step is known, and the comma after it.
    #[inline(always)]
    fn take_chain(
        &mut self,
        alloc: Global,
        text: &[u8],
        at: usize,
        first: UsualStep,
    ) -> Result<Reached, AllocError>
        requires first { IsStepAt text.now at first.step first.size }
        requires limit { length text.now ≤ TEXT_LIMIT }
        ensures { IfOk result (λ to. Leads text.now (at + first.size) State.Step
            (TakenItem.Chain (first.step ∷ []) at ∷ self.old) to.at to.state self.new) }
    {
        self.push_chain(alloc, first.step, at as u32)?;
        self.take_more(text, after_chain_step(at + first.size))
    }
}

/// Passes over the half or the quarter that usually follows the letters of a step. It says nothing
/// more of the items; what is spelled in another way is left as it is.
#[inline(always)]
pub fn after_fraction(text: &[u8], from: Reached) -> Reached
    requires { from.at ≤ length text.now }
    ensures { (items : List TakenItem)
        → Leads text.now from.at from.state items result.at result.state items }
{
    match from.state {
        State::Side if goes_on(text, from.at, b"1/2") => after_chain_step(from.at + FRACTION),
        State::Corner if goes_on(text, from.at, b"1/4") => after_chain_step(from.at + FRACTION),
        _ => from,
    }
}

/// The place after a step.
#[inline(always)]
pub fn after_chain_step(at: usize) -> Reached
    ensures { result ≡ record { at = at; state = State.Step } }
{
    Reached {
        at,
        state: State::Step,
    }
}

/// The place after `of the`, if exactly these bytes follow a step.
#[inline(always)]
pub fn after_of_the(text: &[u8], end: Reached) -> Option<Reached>
    requires { end.at ≤ length text.now }
    ensures leads { IfSome result (λ after. (items : List TakenItem)
        → Leads text.now end.at end.state items after.at after.state items) }
    ensures chain { IfSome result (λ after. is_in_chain after.state ≡ true) }
    ensures forward { IfSome result (λ after. end.at < after.at) }
{
    match end.state {
        State::Step if goes_on(text, end.at, b" of the ") => Some(Reached {
            at: end.at + OF_THE,
            state: State::OfThe,
        }),
        _ => None,
    }
}

/// Passes over the white space before a part.
#[inline(always)]
pub fn ahead_of_part(text: &[u8], from: Reached) -> Reached
    requires { from.at ≤ length text.now }
    ensures { (items : List TakenItem)
        → Leads text.now from.at from.state items result.at result.state items }
{
    if !from.state.begins_part() {
        return from;
    }
    Reached {
        at: after_white(text, from.at),
        state: from.state,
    }
}

/// The place after the comma that follows a part, and after the space after the comma, or the end of
/// the line.
#[inline(always)]
pub fn after_comma(text: &[u8], end: Reached) -> Option<Reached>
    requires { end.at ≤ length text.now }
    ensures { IfSome result (λ after. (items : List TakenItem)
        → Leads text.now end.at end.state items after.at after.state items) }
{
    match end.state {
        State::Step if goes_on(text, end.at, b", ") => Some(Reached {
            at: end.at + COMMA_SPACE,
            state: State::PartComma,
        }),
        State::Step if goes_on(text, end.at, b",") => Some(Reached {
            at: after_white(text, end.at + COMMA),
            state: State::PartComma,
        }),
        _ => None,
    }
}

/// The place after `and`, if exactly these bytes follow the comma of a part.
#[inline(always)]
pub fn after_and(text: &[u8], comma: Reached) -> Option<Reached>
    requires { comma.at ≤ length text.now }
    ensures leads { IfSome result (λ after. (items : List TakenItem)
        → Leads text.now comma.at comma.state items after.at after.state items) }
    ensures forward { IfSome result (λ after. comma.at < after.at) }
{
    match comma.state {
        State::PartComma if goes_on(text, comma.at, b"and ") => Some(Reached {
            at: comma.at + AND,
            state: State::BeforePart,
        }),
        _ => None,
    }
}

/// Passes over the period that usually ends a description, where one may follow the tokens so far.
#[inline(always)]
pub fn after_stop(text: &[u8], from: Reached) -> Reached
    requires { from.at ≤ length text.now }
    ensures { (items : List TakenItem)
        → Leads text.now from.at from.state items result.at result.state items }
{
    if !goes_on(text, from.at, b".") {
        return from;
    }
    match from.state.next(Kind::Stop) {
        Some(state) => Reached {
            at: from.at + STOP,
            state,
        },
        None => from,
    }
}
