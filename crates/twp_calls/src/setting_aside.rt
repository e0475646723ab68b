//! Finding phrases in a text that the caller says aren't land.
ghost use Rattle.std.specs.Prelude.{◌≡◌, ◌≢◌, ◌<◌, ◌≤◌, IfOk, MatchOption, map};
ghost use Rattle.twp_calls.specs.Answers.{ACCEPTED};
ghost use Rattle.twp_calls.specs.SetAsides.{AreDataOfSetAside, AreRanges, IsSetAsideCall, PHRASES_LIMIT};
ghost use Rattle.twp_calls.specs.SetAsides.{phrases_between};
ghost use Rattle.twp_calls.specs.ManyAnswers.{count_between};

use crate::answer::TownshipAnswer;
use crate::unread::{TownshipStretch, data_of_runs, put_stretches};
use crate::verdict::{NO_MEMORY, NO_RANGE};
use std::alloc::{AllocError, Global};
use twp_grid::Refusal;
use twp_phrases::{first_of_land, set_aside};

/// The most bytes of phrases, and the most phrases.
const PHRASES_LIMIT: usize = 65_536;

/// Where phrases stand in a text that the caller says aren't land, such as an office's own labels.
/// They are given as bytes in a row: the first phrase is from the first offset to the second, the
/// next from there to the third, and so on.
pub fn township_set_aside(
    alloc: Global,
    description: &[u8],
    phrases: &[u8],
    offsets: &[usize],
    aside: &mut [TownshipStretch],
) -> TownshipAnswer
    ensures answer { IsSetAsideCall description.now phrases.now offsets.now aside.old aside.new result }
    ensures kept { result.verdict ≢ ACCEPTED → aside.new ≡ aside.old }
{
    let count = offsets.len().saturating_sub(1);
    if phrases.len() > PHRASES_LIMIT || count > PHRASES_LIMIT {
        return TownshipAnswer::of_refusal(Refusal {
            number: 50,
            at: PHRASES_LIMIT as u32,
        });
    }
    let given = match phrases_between(alloc, phrases, offsets, count) {
        Ok(Some(given)) => given,
        Ok(None) => return TownshipAnswer::bare(NO_RANGE),
        Err(_) => return TownshipAnswer::bare(NO_MEMORY),
    };
    if let Some(index) = first_of_land(given.as_slice()) {
        return TownshipAnswer::of_refusal(Refusal {
            number: 51,
            at: index as u32 + 1,
        });
    }
    match stretches_of(alloc, description, given.as_slice()) {
        Ok(found) => put_stretches(found.as_slice(), aside),
        Err(_) => TownshipAnswer::bare(NO_MEMORY),
    }
}

/// The phrases between offsets. None if two of them enclose none of the bytes.
fn phrases_between<'a>(
    alloc: Global,
    bytes: &'a [u8],
    offsets: &[usize],
    count: usize,
) -> Result<Option<Vec<&'a [u8]>>, AllocError>
    requires { count ≡ count_between offsets.now }
    ensures { IfOk result (λ found. MatchOption found (¬ AreRanges bytes.now offsets.now)
        (λ given. AreRanges bytes.now offsets.now
        × (map (λ phrase. phrase.now) given.items ≡ phrases_between bytes.now offsets.now))) }
{
    let mut given = Vec::new(alloc);
    for index in 0..count {
        let Some(phrase) = bytes.get(offsets[index]..offsets[index + 1]) else {
            return Ok(None);
        };
        given.push(phrase)?;
    }
    Ok(Some(given))
}

/// The places of phrases in a text, as data.
fn stretches_of(
    alloc: Global,
    text: &[u8],
    phrases: &[&[u8]],
) -> Result<Vec<TownshipStretch>, AllocError>
    ensures { IfOk result (λ it.
        AreDataOfSetAside (map (λ phrase. phrase.now) phrases.now) text.now it.items) }
{
    let found = set_aside(alloc, text, phrases)?;
    data_of_runs(alloc, found.as_slice())
}
