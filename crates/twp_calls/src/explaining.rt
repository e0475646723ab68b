//! Explanations for C: of each refusal, as the other calls answer it, its line and column, a text, and
//! the parts of that text; of accepted input, the same of a note on a place that can be read in two ways.
ghost use Rattle.std.specs.Prelude.{◌≡◌, ◌≢◌, ◌<◌, true, false};
ghost use Rattle.twp_calls.specs.Answers.{ACCEPTED, IsRefused};
ghost use Rattle.twp_calls.specs.Calls.{IsVersionCall};
ghost use Rattle.twp_calls.specs.Explanations.{ExplainsNotes, ExplainsDescription, ExplainsList};
ghost use Rattle.twp_calls.specs.Explanations.{HasNoText, IsPutAt, located_at};
ghost use Rattle.twp_calls.specs.Names.{IsNameOf};
ghost use Rattle.twp_calls.specs.ShownTexts.{IsNotedInParts, IsShownInParts};
ghost use Rattle.twp_calls.specs.steps.Noting.{AnswersNoted, NotesInParts, PutsInParts};

use crate::answer::TownshipAnswer;
use crate::explanation::{TownshipExplanation, parts_of, parts_of_note};
use crate::plat::TownshipPlat;
use crate::reading::plat_of_notes;
use crate::text::put;
use crate::verdict::{ACCEPTED, NO_MEMORY, NO_PLAT};
use crate::version::VERSION;
use std::alloc::{AllocError, Global};
use twp_answers::{Stop, account_on, area_on};
use twp_diagnose::{Explanation, Given};
use twp_excerpt::Spot;
use twp_explain::{
    Note, explain_description, explain_notes, explain_tracts, note_description, note_tracts,
};
use twp_land::StandardLots;
use twp_phrases::Phrases;
use twp_plat::Account;
use twp_suggest::OnlyReading;

/// What a text is called that has no name of its own.
const UNNAMED: &str = "input";

/// Explains why field notes are refused, with the parts of the explanation.
pub fn township_explain_notes_parts(
    alloc: Global,
    notes: &[u8],
    name: &[u8],
    text: &mut [u8],
    explanation: &mut TownshipExplanation,
) -> TownshipAnswer
    ensures answer { ExplainsNotes notes.now text.old text.new result }
    ensures kept { ¬ IsRefused result.verdict → text.new ≡ text.old }
    ensures kept_parts { ¬ IsRefused result.verdict → explanation.new ≡ explanation.old }
    ensures shows { IsRefused result.verdict
        → IsShownInParts notes.now name.now text.old text.new explanation.new result }
{
    let refused = match plat_of_notes(alloc, notes) {
        Ok(_) => return TownshipAnswer::bare(ACCEPTED),
        Err(Stop::Failed(_)) => return TownshipAnswer::bare(NO_MEMORY),
        Err(Stop::Refused(refusal)) => TownshipAnswer::of_refusal(refusal),
    };
    match explain_notes(alloc, &given(name, notes)) {
        Ok(Some(explained)) => put_explained(alloc, refused, &explained, text, explanation),
        // What is refused has an explanation.
        Ok(None) => TownshipAnswer::bare(NO_MEMORY),
        Err(_) => TownshipAnswer::bare(NO_MEMORY),
    }
}

/// Explains why a description is refused, or notes a place of an accepted one that can be read in two
/// ways, with the parts of the explanation or of the note.
pub fn township_explain_description_parts(
    alloc: Global,
    plat: &TownshipPlat,
    description: &[u8],
    name: &[u8],
    text: &mut [u8],
    explanation: &mut TownshipExplanation,
) -> TownshipAnswer
    ensures answer { ExplainsDescription plat.now description.now text.old text.new result }
    ensures kept { HasNoText result.verdict → text.new ≡ text.old }
    ensures kept_parts { HasNoText result.verdict → explanation.new ≡ explanation.old }
    ensures kept_if_clear { result.verdict ≡ ACCEPTED → result.length ≡ 0
        → explanation.new ≡ explanation.old }
    ensures shows { IsRefused result.verdict
        → IsShownInParts description.now name.now text.old text.new explanation.new result }
    ensures notes { result.verdict ≡ ACCEPTED → 0 < result.length
        → IsNotedInParts description.now name.now text.old text.new explanation.new result }
{
    let Some(plat) = plat.plat() else {
        return TownshipAnswer::bare(NO_PLAT);
    };
    let file = given(name, description);
    let refused = match area_on(alloc, &plat, description, Account::Exact) {
        Ok(_) => return put_noted(
            note_description(alloc, &plat, &file, Account::Exact),
            text,
            explanation,
        ),
        Err(Stop::Failed(_)) => return TownshipAnswer::bare(NO_MEMORY),
        Err(Stop::Refused(refusal)) => TownshipAnswer::of_refusal(refusal),
    };
    let explained = explain_description::<OnlyReading<Phrases>, StandardLots>(
        alloc,
        plat.township(),
        &file,
        &StandardLots,
    );
    match explained {
        Ok(Some(explained)) => put_explained(alloc, refused, &explained, text, explanation),
        Ok(None) => TownshipAnswer::bare(NO_MEMORY),
        Err(_) => TownshipAnswer::bare(NO_MEMORY),
    }
}

/// Explains why a list of tracts is refused, or notes a place in a description of an accepted one that
/// can be read in two ways, with the parts of the explanation or of the note.
pub fn township_explain_list_parts(
    alloc: Global,
    plat: &TownshipPlat,
    list: &[u8],
    name: &[u8],
    text: &mut [u8],
    explanation: &mut TownshipExplanation,
) -> TownshipAnswer
    ensures answer { ExplainsList plat.now list.now text.old text.new result }
    ensures kept { HasNoText result.verdict → text.new ≡ text.old }
    ensures kept_parts { HasNoText result.verdict → explanation.new ≡ explanation.old }
    ensures kept_if_clear { result.verdict ≡ ACCEPTED → result.length ≡ 0
        → explanation.new ≡ explanation.old }
    ensures shows { IsRefused result.verdict
        → IsShownInParts list.now name.now text.old text.new explanation.new result }
    ensures notes { result.verdict ≡ ACCEPTED → 0 < result.length
        → IsNotedInParts list.now name.now text.old text.new explanation.new result }
{
    let Some(plat) = plat.plat() else {
        return TownshipAnswer::bare(NO_PLAT);
    };
    let file = given(name, list);
    let fault = match account_on(alloc, &plat, list) {
        Ok(_) => return put_noted(note_tracts(alloc, &plat, &file), text, explanation),
        Err(fault) => fault,
    };
    let Some(_) = fault.refusal() else {
        return TownshipAnswer::bare(NO_MEMORY);
    };
    let refused = TownshipAnswer::of_fault(fault);
    match explain_tracts::<OnlyReading<Phrases>>(alloc, &plat, &file) {
        Ok(Some(explained)) => put_explained(
            alloc,
            refused,
            &explained.explanation,
            text,
            explanation,
        ),
        Ok(None) => TownshipAnswer::bare(NO_MEMORY),
        Err(_) => TownshipAnswer::bare(NO_MEMORY),
    }
}

/// The version of the library.
pub fn township_version(text: &mut [u8]) -> TownshipAnswer
    ensures answer { IsVersionCall text.old text.new result }
    ensures kept { result.verdict ≢ ACCEPTED → text.new ≡ text.old }
{
    put(TownshipAnswer::bare(ACCEPTED), VERSION.as_bytes(), text)
}

/// A text by the name that was given for it, if that is one.
pub(crate) fn given<'a>(name: &'a [u8], bytes: &'a [u8]) -> Given<'a>
    ensures name { IsNameOf name.now result.name.now }
    ensures bytes { result.bytes.now ≡ bytes.now }
    ensures first_line { result.first_line ≡ 1 }
{
    let name = match str::from_utf8(name) {
        Ok(name) if !name.is_empty() => name,
        _ => UNNAMED,
    };
    Given {
        name,
        bytes,
        first_line: 1,
    }
}

/// Puts an explanation beside the refusal that it is of, and its parts.
pub(crate) fn put_explained(
    alloc: Global,
    refused: TownshipAnswer,
    explained: &Explanation,
    text: &mut [u8],
    explanation: &mut TownshipExplanation,
) -> TownshipAnswer
    ensures explained { PutsInParts refused explained.now text.old text.new explanation.new result }
    ensures kept { result.verdict ≢ refused.verdict → text.new ≡ text.old }
    ensures kept_parts { result.verdict ≢ refused.verdict → explanation.new ≡ explanation.old }
{
    let Ok(parts) = parts_of(alloc, explained) else {
        return TownshipAnswer::bare(NO_MEMORY);
    };
    let answer = put_message(refused, explained.spot, explained.text.as_bytes(), text);
    put_parts(answer.verdict == refused.verdict, parts, explanation);
    answer
}

/// Puts the parts of a text, if the text was put.
fn put_parts(is_put: bool, parts: TownshipExplanation, explanation: &mut TownshipExplanation)
    ensures put { is_put ≡ true → explanation.new ≡ parts }
    ensures kept { is_put ≡ false → explanation.new ≡ explanation.old }
{
    if is_put {
        *explanation = parts;
    }
}

/// Puts a note beside the verdict that accepts, and its parts, if there is one.
pub(crate) fn put_noted(
    noted: Result<Option<Note>, AllocError>,
    text: &mut [u8],
    explanation: &mut TownshipExplanation,
) -> TownshipAnswer
    ensures noted { AnswersNoted noted text.old text.new result }
    ensures kept { result.verdict ≢ ACCEPTED → text.new ≡ text.old }
    ensures parts { NotesInParts noted explanation.old explanation.new result }
    ensures kept_parts { result.verdict ≢ ACCEPTED → explanation.new ≡ explanation.old }
{
    match noted {
        Ok(Some(note)) => {
            let accepted = TownshipAnswer::bare(ACCEPTED);
            let answer = put_message(accepted, note.spot, note.text.as_bytes(), text);
            put_parts(
                answer.verdict == ACCEPTED,
                parts_of_note(&note),
                explanation,
            );
            answer
        }
        Ok(None) => TownshipAnswer::bare(ACCEPTED),
        Err(_) => TownshipAnswer::bare(NO_MEMORY),
    }
}

/// Puts a message beside an answer, with the line and the column of its place.
fn put_message(
    explained: TownshipAnswer,
    spot: Option<Spot>,
    message: &[u8],
    text: &mut [u8],
) -> TownshipAnswer
    ensures explained { IsPutAt explained spot message.now text.old text.new result }
    ensures kept { result.verdict ≢ explained.verdict → text.new ≡ text.old }
{
    let located_at = match spot {
        Some(spot) => at_spot(explained, spot.line, spot.column),
        None => at_spot(explained, 0, 0),
    };
    put(located_at, message, text)
}

/// An answer with a line and a column.
fn at_spot(explained: TownshipAnswer, line: u32, column: u32) -> TownshipAnswer
    ensures { result ≡ located_at explained line column }
{
    TownshipAnswer {
        line,
        column,
        ..explained
    }
}
