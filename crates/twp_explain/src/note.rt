//! Notes on accepted input: on a place of a description that can be read in two ways. A note names the
//! reading with its acres, and the way to write the other one with its acres.
ghost use Rattle.std.specs.Prelude.{◌≡◌, ◌≤◌, ◌<◌, Some, None, length, IfOk, IfSome, MatchOption};
ghost use Rattle.twp_diagnose.specs.Spots.{IsSpotAt};
ghost use Rattle.twp_read.specs.Doubts.{AreDoubts};
ghost use Rattle.twp_explain.specs.ShownNotes.{AreClear, IsNoteOf, IsNoteOfList, IsOfFirstTract};
ghost use Rattle.twp_explain.specs.ShownNotes.{IsSpotOfNote, ShowsNoteIn};
ghost use Rattle.twp_explain.specs.steps.ListDoubts.{AreOfList, Takes};

mod acres;
mod heading;
mod lists;
mod mark;
mod parts;
mod said;
mod sentence;
mod span;
mod spelled;

use crate::note::acres::Reckoner;
pub use crate::note::mark::without_mark;
use crate::note::sentence::sentence_of;
use crate::note::span::end_of_place;
use csv::ByteRecord;
use std::alloc::{AllocError, Global};
use twp_answers::{TRACTS_MOST, read_plat};
use twp_diagnose::{Given, Listed, Located, Location, Origin, message_at, text_in};
use twp_excerpt::{MessageParts, Span, Spot, write_escaped};
use twp_grid::Bytes;
use twp_notes::Records;
use twp_plat::{Account, Plat};
use twp_read::{Doubts, doubts_in};

/// What is noted of input that was accepted.
#[derive(Drop)]
pub struct Note {
    /// The offset in the text of the description.
    pub at: usize,
    /// The bytes of the place in its file.
    pub span: Span,
    /// On which line and in which column it begins.
    pub spot: Option<Spot>,
    /// Some lines, each with a line feed at its end.
    pub text: String,
    /// Where in the text its parts are.
    pub parts: MessageParts,
}

/// The most records of a list: the heading, and one for each tract.
const RECORDS_MOST: u32 = TRACTS_MOST + 1;

/// What is noted of a description that was accepted on the plat of field notes, by an account: its first
/// doubtful place. None if there is no such place.
pub fn note_land(
    alloc: Global,
    notes: &Given<'_>,
    description: &Given<'_>,
    account: Account,
) -> Result<Option<Note>, AllocError>
    ensures note { IfOk result (IsNoteOf description.now.bytes.now) }
    ensures spot { IfOk result (λ explained. IfSome explained (λ note.
        IsSpotAt description.now note.at note.spot)) }
    ensures shows { IfOk result (λ explained. IfSome explained (ShowsNoteIn description.now)) }
{
    let Some(doubts) = doubts_in(alloc, description.bytes)? else {
        return Ok(None);
    };
    let plat = plat_of(alloc, notes);
    note_on(alloc, plat.as_ref(), description, account, doubts)
}

/// The same on a plat that is kept.
pub fn note_description(
    alloc: Global,
    plat: &Plat,
    description: &Given<'_>,
    account: Account,
) -> Result<Option<Note>, AllocError>
    ensures note { IfOk result (IsNoteOf description.now.bytes.now) }
    ensures spot { IfOk result (λ explained. IfSome explained (λ note.
        IsSpotAt description.now note.at note.spot)) }
    ensures shows { IfOk result (λ explained. IfSome explained (ShowsNoteIn description.now)) }
{
    let Some(doubts) = doubts_in(alloc, description.bytes)? else {
        return Ok(None);
    };
    note_on(alloc, Some(plat), description, account, doubts)
}

/// The same without acres, for a description that was accepted on the plat of a lot table.
pub fn note_without_acres(
    alloc: Global,
    description: &Given<'_>,
) -> Result<Option<Note>, AllocError>
    ensures note { IfOk result (IsNoteOf description.now.bytes.now) }
    ensures spot { IfOk result (λ explained. IfSome explained (λ note.
        IsSpotAt description.now note.at note.spot)) }
    ensures shows { IfOk result (λ explained. IfSome explained (ShowsNoteIn description.now)) }
{
    let Some(doubts) = doubts_in(alloc, description.bytes)? else {
        return Ok(None);
    };
    note_on(alloc, None, description, Account::Exact, doubts)
}

/// What is noted of the first doubtful place of a description that is a file, on a plat if there is one.
fn note_on(
    alloc: Global,
    plat: Option<&Plat>,
    description: &Given<'_>,
    account: Account,
    doubts: Doubts,
) -> Result<Option<Note>, AllocError>
    ensures at { IfOk result (λ explained. MatchOption explained ⊥ (λ note. note.at ≡ doubts.first.at)) }
    ensures spot { IfOk result (λ explained. IfSome explained (λ note.
        IsSpotAt description.now note.at note.spot)) }
    ensures shows { IfOk result (λ explained. IfSome explained (ShowsNoteIn description.now)) }
{
    let reckoner = Reckoner { plat, account };
    let mut sentence = String::new(alloc);
    sentence.push_str("note: ")?;
    let origin = Origin::of_file(*description);
    let note = note_place(
        alloc,
        &reckoner,
        &origin,
        description.bytes,
        doubts,
        sentence,
    )?;
    Ok(Some(note))
}

/// What is noted of a list of tracts that was accepted on the plat of field notes: the first doubtful place
/// in a description.
pub fn note_list(
    alloc: Global,
    notes: &Given<'_>,
    tracts: &Given<'_>,
) -> Result<Option<Note>, AllocError>
    ensures note { IfOk result (IsNoteOfList tracts.now) }
    ensures shows { IfOk result (λ explained. IfSome explained (ShowsNoteIn tracts.now)) }
{
    let Some(found) = doubts_of_list(alloc, tracts.bytes)? else {
        return Ok(None);
    };
    let plat = plat_of(alloc, notes);
    note_tract(alloc, plat.as_ref(), tracts, found)
}

/// The same on a plat that is kept.
pub fn note_tracts(
    alloc: Global,
    plat: &Plat,
    tracts: &Given<'_>,
) -> Result<Option<Note>, AllocError>
    ensures note { IfOk result (IsNoteOfList tracts.now) }
    ensures shows { IfOk result (λ explained. IfSome explained (ShowsNoteIn tracts.now)) }
{
    let Some(found) = doubts_of_list(alloc, tracts.bytes)? else {
        return Ok(None);
    };
    note_tract(alloc, Some(plat), tracts, found)
}

/// The same without acres, for a list that was accepted on the plat of a lot table.
pub fn note_tracts_without_acres(
    alloc: Global,
    tracts: &Given<'_>,
) -> Result<Option<Note>, AllocError>
    ensures note { IfOk result (IsNoteOfList tracts.now) }
    ensures shows { IfOk result (λ explained. IfSome explained (ShowsNoteIn tracts.now)) }
{
    let Some(found) = doubts_of_list(alloc, tracts.bytes)? else {
        return Ok(None);
    };
    note_tract(alloc, None, tracts, found)
}

/// The plat of field notes, if they make one and there is memory for it.
fn plat_of(alloc: Global, notes: &Given<'_>) -> Option<Plat> {
    read_plat(alloc, &mut Bytes::new(notes.bytes)).ok()
}

/// The doubtful places of a list, and the record of the first.
#[derive(Clone, Copy)]
struct ListDoubts {
    /// The number of the record, from 1.
    number: u32,
    doubts: Doubts,
}

/// The doubtful places in the descriptions of a list of tracts.
#[inline(never)]
fn doubts_of_list(alloc: Global, bytes: &[u8]) -> Result<Option<ListDoubts>, AllocError>
    ensures { IfOk result (λ found.
        MatchOption found (AreClear bytes.now) (AreOfList bytes.now)) }
{
    let mut records = Records::new(alloc, bytes);
    let mut row = ByteRecord::new(alloc);
    let mut found = None;
    'records: for number in 1..RECORDS_MOST + 1 {
        if !records.read(&mut row)? {
            return Ok(found);
        }
        found = with_record(alloc, found, number, text_in(&row, 1))?;
    }
    Ok(found)
}

/// The doubtful places of a list with those in the description of one more record.
fn with_record(
    alloc: Global,
    found: Option<ListDoubts>,
    number: u32,
    description: &[u8],
) -> Result<Option<ListDoubts>, AllocError>
    ensures { IfOk result (Takes found number description.now) }
{
    match doubts_in(alloc, description)? {
        Some(doubts) => Ok(Some(with_more(found, number, doubts))),
        None => Ok(found),
    }
}

/// The doubtful places of a list with those of one more record.
fn with_more(found: Option<ListDoubts>, number: u32, doubts: Doubts) -> ListDoubts
    ensures some { IfSome found (λ first. (result.number ≡ first.number)
        × (result.doubts.first ≡ first.doubts.first)) }
    ensures none { found ≡ None → (result.number ≡ number)
        × (result.doubts.first ≡ doubts.first) }
{
    match found {
        None => ListDoubts { number, doubts },
        Some(first) => ListDoubts {
            number: first.number,
            doubts: Doubts {
                first: first.doubts.first,
                others: first
                    .doubts
                    .others
                    .saturating_add(doubts.others)
                    .saturating_add(1),
            },
        },
    }
}

/// What is noted of the first doubtful place of a list of tracts.
fn note_tract(
    alloc: Global,
    plat: Option<&Plat>,
    tracts: &Given<'_>,
    found: ListDoubts,
) -> Result<Option<Note>, AllocError>
    ensures note { AreOfList tracts.now.bytes.now found
        → IfOk result (λ explained. MatchOption explained ⊥ (IsOfFirstTract tracts.now)) }
    ensures shows { IfOk result (λ explained. IfSome explained (ShowsNoteIn tracts.now)) }
{
    let Some(listed) = Listed::numbered(alloc, *tracts, found.number)? else {
        return Ok(None);
    };
    let origin = Origin::of_field(*tracts, listed.span(1).start);
    let reckoner = Reckoner {
        plat,
        account: Account::Exact,
    };
    let mut sentence = String::new(alloc);
    sentence.push_str("note: tract ")?;
    write_escaped(listed.field(0), &mut sentence)?;
    sentence.push_str(": ")?;
    let note = note_place(
        alloc,
        &reckoner,
        &origin,
        listed.field(1),
        found.doubts,
        sentence,
    )?;
    Ok(Some(note))
}

/// What is noted of the first doubtful place of a text, with a sentence that has begun.
#[inline(never)]
fn note_place(
    alloc: Global,
    reckoner: &Reckoner<'_>,
    origin: &Origin<'_>,
    bytes: &[u8],
    doubts: Doubts,
    begun: String,
) -> Result<Note, AllocError>
    ensures at { IfOk result (λ note. note.at ≡ doubts.first.at) }
    ensures spot { IfOk result (IsSpotOfNote origin.now) }
    ensures shows { IfOk result (ShowsNoteIn origin.now.file) }
{
    let place = doubts.first;
    let sentence = sentence_of(alloc, reckoner, bytes, place, begun)?;
    let span = Span {
        start: origin.in_file(place.at),
        end: origin.in_file(end_of_place(bytes, place)),
    };
    let others = others_of(alloc, doubts.others)?;
    let Located { spot, text, parts } = message_at(
        alloc,
        &origin.file,
        Location::Part(span),
        sentence.as_str(),
        others.as_str(),
    )?;
    Ok(Note {
        at: place.at,
        span,
        spot,
        text,
        parts,
    })
}

/// How many more places there are; empty if there are no more.
fn others_of(alloc: Global, others: usize) -> Result<String, AllocError> {
    match others {
        0 => Ok(String::new(alloc)),
        1 => format!(in alloc; "1 more such place"),
        _ => format!(in alloc; "{others} more such places"),
    }
}
