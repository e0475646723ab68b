//! Where the part of each township of a text begins and ends.
ghost use Rattle.std.specs.Prelude.{◌≡◌, ◌≢◌, ◌≤◌, [], ◌∷◌, length, IfOk, IfErr};
ghost use Rattle.twp_calls.specs.Answers.{ACCEPTED};
ghost use Rattle.twp_calls.specs.Splits.{IsSplit, IsSplitCall, part_between};
ghost use Rattle.twp_calls.specs.steps.SplitSteps.{AreHeadedParts, IsSplitStop};

use crate::answer::TownshipAnswer;
use crate::next_heading::next_heading;
use crate::unread::{TownshipStretch, put_stretches};
use std::alloc::{AllocError, Global};
use twp_answers::Stop;
use twp_grammar::{Kind, first_token};
use twp_grid::Refusal;

/// The most bytes of a text that is split.
const LIMIT: usize = 1_048_576;

/// The part of each township in a text with one description after another: where it begins and ends. It can
/// be given to the calls that take a description.
pub fn township_split(
    alloc: Global,
    description: &[u8],
    parts: &mut [TownshipStretch],
) -> TownshipAnswer
    ensures answer { IsSplitCall description.now parts.old parts.new result }
    ensures kept { result.verdict ≢ ACCEPTED → parts.new ≡ parts.old }
{
    match split_parts(alloc, description) {
        Ok(found) => put_stretches(found.as_slice(), parts),
        Err(stop) => TownshipAnswer::of_stop(stop),
    }
}

/// The parts of a text: all of it where it has no heading after its first token.
fn split_parts(alloc: Global, text: &[u8]) -> Result<Vec<TownshipStretch>, Stop>
    ensures split { IfOk result (λ it. IsSplit text.now it.items) }
    ensures refused { IfErr result (IsSplitStop text.now) }
{
    if text.len() > LIMIT {
        return Err(Stop::Refused(Refusal {
            number: 39,
            at: LIMIT as u32,
        }));
    }
    let Some(first) = first_token(text, 0) else {
        return Ok(one_part(alloc, text.len())?);
    };
    let from = first.at + first.text.len();
    if let Kind::T = first.kind {
        return Ok(headed_parts(alloc, text, from)?);
    }
    match next_heading(text, from) {
        Some(next) => Err(Stop::Refused(Refusal {
            number: 38,
            at: next.at as u32,
        })),
        None => Ok(one_part(alloc, text.len())?),
    }
}

/// The parts of a text whose first token begins a heading and ends at this place.
fn headed_parts(alloc: Global, text: &[u8], from: usize) -> Result<Vec<TownshipStretch>, AllocError>
    requires { from ≤ length text.now }
    ensures { IfOk result (λ it. AreHeadedParts text.now from it.items) }
{
    let mut parts = Vec::new(alloc);
    let mut start = 0;
    let mut at = from;
    'parts: loop {
        let Some(next) = next_heading(text, at) else {
            break;
        };
        parts.push(part_between(start, next.land_end))?;
        start = next.at;
        at = next.end;
    }
    parts.push(part_between(start, text.len()))?;
    Ok(parts)
}

/// One part, from the beginning of a text to its end.
fn one_part(alloc: Global, end: usize) -> Result<Vec<TownshipStretch>, AllocError>
    ensures { IfOk result (λ it. it.items ≡ part_between 0 end ∷ []) }
{
    let mut parts = Vec::new(alloc);
    parts.push(part_between(0, end))?;
    Ok(parts)
}

/// A part of a text.
fn part_between(start: usize, end: usize) -> TownshipStretch
    ensures { result ≡ part_between start end }
{
    TownshipStretch {
        start: start as u64,
        end: end as u64,
        ways: 0,
        reserved: 0,
    }
}
