//! A chain that continues with steps in their usual spelling; such a step: its letters, and its fraction
//! right after them; and whether a text continues with given bytes.
ghost use Rattle.std.specs.Prelude.{◌≡◌, ◌≤◌, ◌∷◌, ℕ, List, length, true, IfOk, ◌+◌, [], IfSome};
ghost use Rattle.std.specs.Prelude.{◌++◌, drop, IsTrue};
ghost use Rattle.twp_grammar.specs.declared.item.Item.{Item};
ghost use Rattle.twp_grammar.specs.declared.item.Item.TheVariants.{Chain};
ghost use Rattle.twp_grammar.specs.Machine.{is_in_chain};
ghost use Rattle.twp_read.specs.steps.Usual.{Leads, IsStepAt, BeginWithStep, AreHalf, AreQuarter};
ghost use Rattle.twp_read.specs.steps.Usual.{letters_of};
ghost use Rattle.std.specs.Char.{is_ascii_lowercase};
ghost use Rattle.twp_grammar.specs.Tokens.{kind_among, words};

use crate::description::Reached;
use crate::usual::part::{after_comma, after_of_the};
use std::alloc::AllocError;
use twp_grammar::{Item, State, Step, Steps};
use twp_grid::{Corner, Side};

/// Takes the steps that a chain continues with, as long as each is spelled in the usual way: those
/// that come right after one another, and those after `of the`. Takes the comma after them, too.
#[inline(always)]
pub fn take_more_steps(item: &mut Item, text: &[u8], from: Reached) -> Result<Reached, AllocError>
    requires place { from.at ≤ length text.now }
    requires chain { is_in_chain from.state ≡ true }
    ensures { IfOk result (λ to. (items : List Item)
        → Leads text.now from.at from.state (item.old ∷ items)
        to.at to.state (item.new ∷ items)) }
{
    if let Item::Chain { steps, .. } = item {
        let adjoining = take_adjoining(steps, text, from)?;
        // Most parts end here, and no `of the` has to be looked for.
        if let Some(after) = after_comma(text, adjoining) {
            return Ok(after);
        }
        return take_steps_of(steps, text, adjoining);
    }
    Ok(from)
}

/// Takes the steps after `of the`, and those that come right after them, and the comma.
#[inline(always)]
fn take_steps_of(steps: &mut Steps, text: &[u8], from: Reached) -> Result<Reached, AllocError>
    requires place { from.at ≤ length text.now }
    requires chain { is_in_chain from.state ≡ true }
    ensures { IfOk result (λ to. (place : ℕ) (items : List Item)
        → Leads text.now from.at from.state (Chain steps.old place ∷ items)
        to.at to.state (Chain steps.new place ∷ items)) }
{
    let mut reached = from;
    'rows: loop {
        let row = take_row_of(steps, text, reached)?;
        if row.at == reached.at {
            return Ok(row);
        }
        reached = take_adjoining(steps, text, row)?;
        if let Some(after) = after_comma(text, reached) {
            return Ok(after);
        }
    }
}

/// Takes steps as long as each comes right after `of the`. No step is looked for right after them
/// until there is no further `of the`.
#[inline(always)]
fn take_row_of(steps: &mut Steps, text: &[u8], from: Reached) -> Result<Reached, AllocError>
    requires place { from.at ≤ length text.now }
    requires chain { is_in_chain from.state ≡ true }
    ensures within { IfOk result (λ to. to.at ≤ length text.now) }
    ensures forward { IfOk result (λ to. from.at ≤ to.at) }
    ensures chain { IfOk result (λ to. is_in_chain to.state ≡ true) }
    ensures leads { IfOk result (λ to. (place : ℕ) (items : List Item)
        → Leads text.now from.at from.state (Chain steps.old place ∷ items)
        to.at to.state (Chain steps.new place ∷ items)) }
{
    let mut reached = from;
    while let Some(after) = after_of_the(text, reached) {
        let Some(usual) = step_at(text, after.at) else {
            return Ok(after);
        };
        steps.push(usual.step)?;
        reached = Reached {
            at: after.at + usual.size,
            state: State::Step,
        };
    }
    Ok(reached)
}

/// Takes the steps that come right after one another.
#[inline(always)]
fn take_adjoining(steps: &mut Steps, text: &[u8], from: Reached) -> Result<Reached, AllocError>
    requires place { from.at ≤ length text.now }
    requires chain { is_in_chain from.state ≡ true }
    ensures within { IfOk result (λ to. to.at ≤ length text.now) }
    ensures forward { IfOk result (λ to. from.at ≤ to.at) }
    ensures chain { IfOk result (λ to. is_in_chain to.state ≡ true) }
    ensures leads { IfOk result (λ to. (place : ℕ) (items : List Item)
        → Leads text.now from.at from.state (Chain steps.old place ∷ items)
        to.at to.state (Chain steps.new place ∷ items)) }
{
    let mut reached = from;
    while let Some(usual) = step_at(text, reached.at) {
        steps.push(usual.step)?;
        reached = Reached {
            at: reached.at + usual.size,
            state: State::Step,
        };
    }
    Ok(reached)
}

/// How many bytes a half or a quarter has.
const FRACTION: usize = 3;

/// How many bytes the sign of a half or a quarter has.
const SIGN: usize = 2;

/// How many bytes the longest step in its usual spelling has.
const LONGEST: usize = 5;

/// The bit in which a lowercase letter differs from an uppercase one.
const SMALL: u8 = 0x20;

/// A step, and how many bytes its letters and its fraction have.
#[derive(Clone, Copy)]
pub struct UsualStep {
    pub step: Step,
    pub size: usize,
}

/// The step at a place, if its fraction comes right after its letters, as `1/2`, `1/4`
/// or one sign.
#[inline(always)]
pub fn step_at(text: &[u8], at: usize) -> Option<UsualStep>
    requires { at ≤ length text.now }
    ensures { IfSome result (λ usual. IsStepAt text.now at usual.step usual.size) }
{
    let (_, bytes) = text.split_at(at);
    if bytes.len() < LONGEST {
        return None;
    }
    step_of(bytes[0], bytes[1], bytes[2], bytes[3], bytes[4])
}

/// The step that five bytes begin with, if they do. U+00BC is the bytes C2 BC, and U+00BD is C2 BD:
/// the third byte of a step with a sign is never ASCII.
#[inline(always)]
fn step_of(first: u8, second: u8, third: u8, fourth: u8, fifth: u8) -> Option<UsualStep>
    ensures { IfSome result
        (λ usual. BeginWithStep first second third fourth fifth usual.step usual.size) }
{
    if third == b'1' && fourth == b'/' && fifth == b'4' {
        return quarter(first, second, FRACTION);
    }
    if second == b'1' && third == b'/' && fourth == b'2' {
        return half(first, FRACTION);
    }
    if third.is_ascii() {
        return None;
    }
    if third == 0xC2 && fourth == 0xBC {
        return quarter(first, second, SIGN);
    }
    if second == 0xC2 && third == 0xBD {
        return half(first, SIGN);
    }
    None
}

/// The half that a letter stands for, uppercase or lowercase, with this many bytes after it.
#[inline(always)]
fn half(first: u8, fraction: usize) -> Option<UsualStep>
    requires { fraction ≤ 3 }
    ensures { IfSome result (λ usual. AreHalf first usual.step × (usual.size ≡ 1 + fraction)) }
{
    let Some(side) = side_of(first | SMALL) else {
        return None;
    };
    Some(UsualStep {
        step: Step::Half(side),
        size: 1 + fraction,
    })
}

/// The quarter that two letters stand for, uppercase or lowercase, with this many bytes after them.
#[inline(always)]
fn quarter(first: u8, second: u8, fraction: usize) -> Option<UsualStep>
    requires { fraction ≤ 3 }
    ensures { IfSome result
        (λ usual. AreQuarter first second usual.step × (usual.size ≡ 2 + fraction)) }
{
    let Some(corner) = corner_of(first | SMALL, second | SMALL) else {
        return None;
    };
    Some(UsualStep {
        step: Step::Quarter(corner),
        size: 2 + fraction,
    })
}

/// The side that a lowercase letter stands for.
#[inline(always)]
fn side_of(small: u8) -> Option<Side>
    ensures kind { IfSome result
        (λ side. kind_among (small ∷ []) words ≡ letters_of (Step.Half side)) }
    ensures letter { IfSome result (λ _. is_ascii_lowercase small ≡ true) }
{
    match small {
        b'n' => Some(Side::N),
        b's' => Some(Side::S),
        b'e' => Some(Side::E),
        b'w' => Some(Side::W),
        _ => None,
    }
}

/// The corner that two lowercase letters stand for.
#[inline(always)]
fn corner_of(small: u8, after: u8) -> Option<Corner>
    ensures kind { IfSome result
        (λ corner. kind_among (small ∷ after ∷ []) words ≡ letters_of (Step.Quarter corner)) }
    ensures letter { IfSome result (λ _. is_ascii_lowercase small ≡ true) }
    ensures letter_after { IfSome result (λ _. is_ascii_lowercase after ≡ true) }
{
    match after {
        b'e' if small == b'n' => Some(Corner::NE),
        b'w' if small == b'n' => Some(Corner::NW),
        b'w' if small == b's' => Some(Corner::SW),
        b'e' if small == b's' => Some(Corner::SE),
        _ => None,
    }
}

/// Whether a text continues with these bytes at a place. Where they are known, each is compared with a
/// constant, and no call is made.
#[inline(always)]
pub fn goes_on(text: &[u8], at: usize, bytes: &[u8]) -> bool
    requires { at ≤ length text.now }
    ensures spelled { IsTrue result
        → drop at text.now ≡ bytes.now ++ drop (at + length bytes.now) text.now }
    ensures within { IsTrue result → at + length bytes.now ≤ length text.now }
{
    let (_, left) = text.split_at(at);
    if left.len() < bytes.len() {
        return false;
    }
    for index in 0..bytes.len() {
        if left[index] != bytes[index] {
            return false;
        }
    }
    true
}
