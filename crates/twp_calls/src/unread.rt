//! What is unread of a text without readings, as plain data.
ghost use Rattle.std.specs.Prelude.{◌≡◌, ◌≢◌, ◌++◌, IfOk, map};
ghost use Rattle.twp_calls.specs.Answers.{ACCEPTED};
ghost use Rattle.twp_calls.specs.UnreadCalls.{AreStretchesPut, AreUnreadData, IsUnreadCall};
ghost use Rattle.twp_calls.specs.UnreadCalls.{ambiguous_data, run_data, ways_of};

use crate::answer::TownshipAnswer;
use crate::many::counted;
use crate::verdict::{ACCEPTED, NO_MEMORY, NO_ROOM};
use std::alloc::{AllocError, Global};
use twp_phrases::{Ambiguity, AmbiguousPhrase, Stretch, unread_in};

/// Some bytes of a text: the part of a township, unread words, or a phrase that can be read in two ways.
#[repr(C)]
#[derive(Clone, Copy)]
pub struct TownshipStretch {
    /// Where they begin in the text.
    pub start: u64,
    /// Where they end.
    pub end: u64,
    /// The number of the two ways to read a phrase; otherwise 0.
    pub ways: u32,
    /// Unused; always 0.
    pub reserved: u32,
}

/// What is unread of a text: its unread runs, and then the phrases that can be read in two ways. It is for
/// texts without readings.
pub fn township_unread(
    alloc: Global,
    description: &[u8],
    unread: &mut [TownshipStretch],
) -> TownshipAnswer
    ensures answer { IsUnreadCall description.now unread.old unread.new result }
    ensures kept { result.verdict ≢ ACCEPTED → unread.new ≡ unread.old }
{
    match data_of_unread(alloc, description) {
        Ok(found) => put_stretches(found.as_slice(), unread),
        Err(_) => TownshipAnswer::bare(NO_MEMORY),
    }
}

/// Puts stretches at the front of the room for them, or nothing if there is too little.
pub(crate) fn put_stretches(
    found: &[TownshipStretch],
    room: &mut [TownshipStretch],
) -> TownshipAnswer
    ensures put { AreStretchesPut found.now room.old room.new result }
    ensures kept { result.verdict ≢ ACCEPTED → room.new ≡ room.old }
{
    if room.len() < found.len() {
        return counted(NO_ROOM, found.len());
    }
    room[..found.len()].copy_from_slice(found);
    counted(ACCEPTED, found.len())
}

/// What is unread of a text, as data.
fn data_of_unread(alloc: Global, text: &[u8]) -> Result<Vec<TownshipStretch>, AllocError>
    ensures { IfOk result (λ it. AreUnreadData text.now it.items) }
{
    let found = unread_in(alloc, text)?;
    let mut list = data_of_runs(alloc, found.runs.as_slice())?;
    let more = data_of_ambiguous(alloc, found.ambiguous.as_slice())?;
    list.extend_from_slice(more.as_slice())?;
    Ok(list)
}

/// Unread runs as data.
pub(crate) fn data_of_runs(
    alloc: Global,
    runs: &[Stretch],
) -> Result<Vec<TownshipStretch>, AllocError>
    ensures { IfOk result (λ it. it.items ≡ map run_data runs.now) }
{
    runs.iter().map(|run| of_run(*run)).collect(alloc)
}

/// Ambiguous phrases as data.
fn data_of_ambiguous(
    alloc: Global,
    phrases: &[AmbiguousPhrase],
) -> Result<Vec<TownshipStretch>, AllocError>
    ensures { IfOk result (λ it. it.items ≡ map ambiguous_data phrases.now) }
{
    phrases
        .iter()
        .map(|phrase| of_ambiguous(*phrase))
        .collect(alloc)
}

/// An unread run as data.
fn of_run(run: Stretch) -> TownshipStretch
    ensures { result ≡ run_data run }
{
    TownshipStretch {
        start: run.start as u64,
        end: run.end as u64,
        ways: 0,
        reserved: 0,
    }
}

/// An ambiguous phrase as data.
fn of_ambiguous(phrase: AmbiguousPhrase) -> TownshipStretch
    ensures { result ≡ ambiguous_data phrase }
{
    TownshipStretch {
        start: phrase.place.start as u64,
        end: phrase.place.end as u64,
        ways: number_of_ways(phrase.ambiguity),
        reserved: 0,
    }
}

/// The number of the two ways to read a phrase.
fn number_of_ways(ambiguity: Ambiguity) -> u32
    ensures { result ≡ ways_of ambiguity }
{
    match ambiguity {
        Ambiguity::SectionOrHalf => 1,
        Ambiguity::LotOrHalf => 2,
        Ambiguity::QuarterOrSection => 3,
        Ambiguity::NumberOrFigure => 4,
        Ambiguity::RangeOrHalf => 5,
        Ambiguity::PartOrSection => 6,
    }
}
