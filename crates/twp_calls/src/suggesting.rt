//! The readings of a text that isn't a description, or can be read in several ways, on a plat with
//! the standard lots, or with any others.
ghost use Rattle.std.specs.Prelude.{◌≡◌, ◌≢◌, ◌≤◌, IfOk, length};
ghost use Rattle.twp_grid.specs.Lands.{lotting};
ghost use Rattle.twp_calls.specs.Answers.{ACCEPTED, NO_LOTS, NO_MEMORY};
ghost use Rattle.twp_calls.specs.Suggestions.{ArePut, IsPutAtFront, IsSuggestCall, IsSuggestedOn, rooms};
ghost use Rattle.twp_calls.specs.Suggestions.{assumes_of, copied_from, copied_to, manner_of, number_of};
ghost use Rattle.twp_calls.specs.Suggestions.{number_of_assumption};
ghost use Rattle.twp_calls.specs.steps.Suggesting.{AreChangesAdded, AreFoundFor, HasNoReadings, AreFoundReadings};
ghost use Rattle.twp_calls.specs.steps.Suggesting.{IsReadingAdded, change_data, shown, suggestion_of};

use crate::answer::TownshipAnswer;
use crate::suggestion::{TownshipChange, TownshipReading, TownshipSuggestion};
use crate::verdict::{ACCEPTED, NO_MEMORY, NO_ROOM};
use std::alloc::{AllocError, Global};
use twp_land::{Lotting, StandardLots};
use twp_phrases::Phrases;
use twp_suggest::{
    Assumption, Beyond, Change, Manner, Reading, Rule, assumption_of, beyond_of, readings_of,
};

/// What is to be written for the caller.
#[derive(Drop)]
struct FoundReadings {
    readings: Vec<TownshipReading>,
    changes: Vec<TownshipChange>,
    bytes: Vec<u8>,
    reason: Reason,
}

/// Why there are no readings: where the reason is in the bytes, and where it was found in the text.
/// Without one, each is 0.
#[derive(Clone, Copy)]
struct Reason {
    at: usize,
    length: usize,
    start: usize,
    end: usize,
}

/// No reason.
const NO_REASON: Reason = Reason {
    at: 0,
    length: 0,
    start: 0,
    end: 0,
};

/// The readings of a text as descriptions: where the text of each is, and its changes.
pub fn township_suggest(
    alloc: Global,
    description: &[u8],
    readings: &mut [TownshipReading],
    changes: &mut [TownshipChange],
    bytes: &mut [u8],
    suggestion: &mut TownshipSuggestion,
) -> TownshipAnswer
    ensures answer { IsSuggestCall description.now (rooms readings.old changes.old bytes.old)
        (rooms readings.new changes.new bytes.new) suggestion.new result }
    ensures kept { result.verdict ≢ ACCEPTED → (readings.new ≡ readings.old)
        × (changes.new ≡ changes.old) × (bytes.new ≡ bytes.old) }
    ensures unknown { result.verdict ≡ NO_MEMORY → suggestion.new ≡ suggestion.old }
{
    suggest_on(
        alloc,
        &StandardLots,
        description,
        readings,
        changes,
        bytes,
        suggestion,
    )
}

/// The same on a plat with any lots.
pub(crate) fn suggest_on<P: Lotting>(
    alloc: Global,
    lots: &P,
    description: &[u8],
    readings: &mut [TownshipReading],
    changes: &mut [TownshipChange],
    bytes: &mut [u8],
    suggestion: &mut TownshipSuggestion,
) -> TownshipAnswer
    ensures answer { IsSuggestedOn (lotting (P.layout lots.now)) description.now
        (rooms readings.old changes.old bytes.old)
        (rooms readings.new changes.new bytes.new) suggestion.new result }
    ensures kept { result.verdict ≢ ACCEPTED → (readings.new ≡ readings.old)
        × (changes.new ≡ changes.old) × (bytes.new ≡ bytes.old) }
    ensures unknown { result.verdict ≡ NO_MEMORY → suggestion.new ≡ suggestion.old }
    ensures on_plat { result.verdict ≢ NO_LOTS }
{
    let found = match found_in(alloc, description, lots) {
        Ok(found) => found,
        Err(_) => return TownshipAnswer::bare(NO_MEMORY),
    };
    *suggestion = sizes(&found);
    put_found(&found, readings, changes, bytes)
}

/// Puts what was found at the front of the rooms for it, if there is room for all of it.
fn put_found(
    found: &FoundReadings,
    readings: &mut [TownshipReading],
    changes: &mut [TownshipChange],
    bytes: &mut [u8],
) -> TownshipAnswer
    ensures put { ArePut (shown found.now) (rooms readings.old changes.old bytes.old)
        (rooms readings.new changes.new bytes.new) result }
    ensures kept { result.verdict ≢ ACCEPTED → (readings.new ≡ readings.old)
        × (changes.new ≡ changes.old) × (bytes.new ≡ bytes.old) }
    ensures answered { result.verdict ≢ NO_MEMORY }
    ensures on_plat { result.verdict ≢ NO_LOTS }
{
    if readings.len() < found.readings.len() {
        return TownshipAnswer::bare(NO_ROOM);
    }
    if changes.len() < found.changes.len() {
        return TownshipAnswer::bare(NO_ROOM);
    }
    if bytes.len() < found.bytes.len() {
        return TownshipAnswer::bare(NO_ROOM);
    }
    put_front(readings, found.readings.as_slice());
    put_front(changes, found.changes.as_slice());
    put_front(bytes, found.bytes.as_slice());
    TownshipAnswer::bare(ACCEPTED)
}

/// The readings of a text, as data, or why there are none.
fn found_in<P: Lotting>(
    alloc: Global,
    description: &[u8],
    lots: &P,
) -> Result<FoundReadings, AllocError>
    ensures { IfOk result (AreFoundReadings (lotting (P.layout lots.now)) description.now) }
{
    let readings = readings_of::<Phrases, P>(alloc, description, lots)?;
    if readings.is_empty() {
        return no_readings(alloc, description);
    }
    data_of(alloc, description, readings.as_slice())
}

/// No readings, and the reason, if there is one.
fn no_readings(alloc: Global, description: &[u8]) -> Result<FoundReadings, AllocError>
    ensures { IfOk result HasNoReadings }
{
    match beyond_of(alloc, description)? {
        Some(beyond) => reason_alone(alloc, beyond),
        None => Ok(nothing(alloc)),
    }
}

/// The reason, and no readings.
#[tactic(auto, using(crate::proofs::SuggestionFacts::reason_found))]
fn reason_alone(alloc: Global, beyond: Beyond) -> Result<FoundReadings, AllocError>
    ensures { IfOk result HasNoReadings }
{
    let mut bytes = Vec::new(alloc);
    bytes.extend_from_slice(beyond.reason.as_bytes())?;
    let reason = Reason {
        at: 0,
        length: bytes.len(),
        start: beyond.start,
        end: beyond.end,
    };
    Ok(FoundReadings {
        readings: Vec::new(alloc),
        changes: Vec::new(alloc),
        bytes,
        reason,
    })
}

/// No readings, and no reason.
#[tactic(auto, using(crate::proofs::SuggestionFacts::nothing_found))]
fn nothing(alloc: Global) -> FoundReadings
    ensures { HasNoReadings result }
{
    FoundReadings {
        readings: Vec::new(alloc),
        changes: Vec::new(alloc),
        bytes: Vec::new(alloc),
        reason: NO_REASON,
    }
}

/// Readings of a text, as data.
fn data_of(
    alloc: Global,
    text: &[u8],
    readings: &[Reading<'_>],
) -> Result<FoundReadings, AllocError>
    ensures { IfOk result (AreFoundFor text.now readings.now) }
{
    let mut made = Vec::new(alloc);
    let mut changes = Vec::new(alloc);
    let mut bytes = Vec::new(alloc);
    for reading in readings {
        add_reading(text, reading, &mut made, &mut changes, &mut bytes)?;
    }
    Ok(FoundReadings {
        readings: made,
        changes,
        bytes,
        reason: NO_REASON,
    })
}

/// Adds the data of a reading of a text.
fn add_reading(
    text: &[u8],
    reading: &Reading<'_>,
    readings: &mut Vec<TownshipReading>,
    changes: &mut Vec<TownshipChange>,
    bytes: &mut Vec<u8>,
) -> Result<(), AllocError>
    ensures { IfOk result (λ _. IsReadingAdded text.now reading.now
        (rooms readings.old.items changes.old.items bytes.old.items)
        (rooms readings.new.items changes.new.items bytes.new.items)) }
{
    let start = bytes.len();
    bytes.extend_from_slice(reading.text.as_slice())?;
    let first = changes.len();
    add_changes(text, reading.changes.as_slice(), changes, bytes)?;
    readings.push(TownshipReading {
        text: start as u64,
        text_length: reading.text.len() as u64,
        changes: first as u64,
        changes_length: reading.changes.len() as u64,
        manner: manner_number(reading.manner),
        reserved: 0,
    })?;
    Ok(())
}

/// Adds the data of the changes of a reading of a text.
fn add_changes(
    text: &[u8],
    list: &[Change<'_>],
    changes: &mut Vec<TownshipChange>,
    bytes: &mut Vec<u8>,
) -> Result<(), AllocError>
    ensures { IfOk result (λ _. AreChangesAdded text.now list.now changes.old.items changes.new.items
        bytes.old.items bytes.new.items) }
{
    for change in list {
        let written = bytes.len();
        bytes.extend_from_slice(change.written)?;
        changes.push(of_change(text, change, written))?;
    }
    Ok(())
}

/// The data of a change of a text, of which the bytes that are written begin at a place.
fn of_change(text: &[u8], change: &Change<'_>, written: usize) -> TownshipChange
    ensures { result ≡ change_data text.now change.now written }
{
    let (copied, copied_end) = copied_by(change.rule);
    TownshipChange {
        start: change.start as u64,
        end: change.end as u64,
        written: written as u64,
        written_length: change.written.len() as u64,
        copied: copied as u64,
        copied_end: copied_end as u64,
        rule: rule_number(change.rule),
        assumes: assumption_number(assumption_of(text, change)),
    }
}

/// Where a rule copies a number or a step from, or 0.
fn copied_by(rule: Rule) -> (usize, usize)
    ensures { result ≡ (copied_from rule, copied_to rule) }
{
    match rule {
        Rule::Copied(from, to) | Rule::CopiedStep(from, to) => (from, to),
        _ => (0, 0),
    }
}

/// The number of a rule.
fn rule_number(rule: Rule) -> u32
    ensures { result ≡ number_of rule }
{
    match rule {
        Rule::Half => 1,
        Rule::Quarter => 2,
        Rule::Direction => 3,
        Rule::Numeral => 4,
        Rule::Copied(_, _) => 5,
        Rule::CopiedStep(_, _) => 6,
        Rule::Damage => 7,
        Rule::Exception => 8,
        Rule::Zeros => 9,
        Rule::FractionDigit => 10,
        Rule::Heading => 11,
        Rule::SectionWord => 12,
        Rule::LotWord => 13,
        Rule::Through => 14,
        Rule::And => 15,
        Rule::Comma => 16,
        Rule::Semicolon => 17,
        Rule::OnePart => 18,
        Rule::Mark => 19,
        Rule::Word => 20,
        Rule::Repeated => 21,
        Rule::MovedSection => 22,
        Rule::MovedHeading => 23,
        Rule::Meridian => 24,
        Rule::Acreage => 25,
        Rule::Label => 26,
    }
}

/// The number of an assumption, or 0 for none.
fn assumption_number(assumption: Option<Assumption>) -> u32
    ensures { result ≡ number_of_assumption assumption }
{
    match assumption {
        None => 0,
        Some(Assumption::SameMeridian) => 1,
        Some(Assumption::SameAcreage) => 2,
        Some(Assumption::NotLand) => 3,
        Some(Assumption::SaidBefore) => 4,
        Some(Assumption::WrongLetter) => 5,
        Some(Assumption::NoMissingComma) => 6,
    }
}

/// The number of a manner.
fn manner_number(manner: Manner) -> u32
    ensures { result ≡ manner_of manner }
{
    match manner {
        Manner::Changed => 0,
        Manner::LotsNamed => 1,
        Manner::Remainder => 2,
    }
}

/// How much there is, and why there is nothing.
fn sizes(found: &FoundReadings) -> TownshipSuggestion
    ensures { result ≡ suggestion_of found.now }
{
    TownshipSuggestion {
        readings: found.readings.len() as u64,
        changes: found.changes.len() as u64,
        bytes: found.bytes.len() as u64,
        reason: found.reason.at as u64,
        reason_length: found.reason.length as u64,
        beyond: found.reason.start as u64,
        beyond_end: found.reason.end as u64,
    }
}

/// Puts a list at the front of the room for it.
fn put_front<T: Copy>(room: &mut [T], list: &[T])
    requires { length list.now ≤ length room.old }
    ensures { IsPutAtFront list.now room.old room.new }
{
    room[..list.len()].copy_from_slice(list);
}
