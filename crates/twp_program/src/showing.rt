//! The text on standard error after a run has ended, made from the bytes that it read: the
//! explanation of a refusal or, for accepted land, a note if a place in its description can be read
//! in two ways. It is left out if memory for it runs out.
ghost use Rattle.std.specs.Prelude.{◌≡◌, ◌≢◌, ◌↔◌, Ok, Some, IfSome, IsTrue};
ghost use Rattle.twp_answers.specs.declared.stop.Verdict.TheVariants.{Accepted};
ghost use Rattle.twp_explain.specs.Refusals.{first_refusal};
ghost use Rattle.twp_program.specs.KeptBytes.{copy_of};
ghost use Rattle.twp_program.specs.ShownExplanations.{AreJoinedNotes, IsExplanationOf, IsFile};
ghost use Rattle.twp_program.specs.ShownExplanations.{IsJoinedDescription, ShowsEither, ShowsNoted};
ghost use Rattle.twp_program.specs.ShownExplanations.{ShowsText};

use crate::files::{Kept, OpenedNotes, OpenedText};
use crate::joined::split_at_line_feed;
use std::alloc::Global;
use twp_answers::{Account, Ran, RunFault, Verdict};
use twp_diagnose::{Explanation, Given, Suggests};
use twp_explain::{Note, explain_land, explain_list, explain_plat, note_land, note_list};
use twp_read::Clarity;

/// The name of standard input in messages.
const STANDARD_INPUT: &str = "standard input";

/// Explains why a run on field notes alone refused them.
#[inline(never)]
pub(crate) fn show_plat<R: Eprint + AllocGlobal, N>(
    rt: &R,
    outcome: &Result<Verdict, RunFault>,
    notes: &OpenedNotes<Kept<N>>,
) {
    if let Some(verdict) = refused(outcome) {
        explain(rt, of_plat(rt.alloc(), notes, verdict));
    }
}

/// Explains why a run refused a description on the plat of field notes, or writes the note on one
/// that it accepted.
#[inline(never)]
pub(crate) fn show_land<S: Suggests, R: Eprint + AllocGlobal, N, D>(
    rt: &R,
    ran: &Ran,
    notes: &OpenedNotes<Kept<N>>,
    description: &OpenedText<Kept<D>>,
    account: Account,
) {
    if let Some(verdict) = refused(&ran.outcome) {
        explain(
            rt,
            of_land::<S, _, _>(rt.alloc(), notes, description, verdict),
        );
    } else if may_be_noted(ran) {
        show_note(rt, note_of_land(rt.alloc(), notes, description, account));
    }
}

/// Explains why a run refused a list of tracts on the plat of field notes, or writes the note on
/// one that it accepted.
#[inline(never)]
pub(crate) fn show_list<S: Suggests, R: Eprint + AllocGlobal, N, T>(
    rt: &R,
    ran: &Ran,
    notes: &OpenedNotes<Kept<N>>,
    tracts: &OpenedText<Kept<T>>,
) {
    if let Some(verdict) = refused(&ran.outcome) {
        explain(rt, of_list::<S, _, _>(rt.alloc(), notes, tracts, verdict));
    } else if may_be_noted(ran) {
        show_note(rt, note_of_list(rt.alloc(), notes, tracts));
    }
}

/// Explains why a run refused joined input, or writes the note on input that it accepted.
#[inline(never)]
pub(crate) fn show_joined<S: Suggests, R: Eprint + AllocGlobal, I>(
    rt: &R,
    ran: &Ran,
    input: &Kept<I>,
) {
    if let Some(verdict) = refused(&ran.outcome) {
        explain(rt, of_joined::<S, _>(rt.alloc(), input, verdict));
    } else if may_be_noted(ran) {
        show_note(rt, note_of_joined(rt.alloc(), input));
    }
}

/// The verdict of a run that refused its input.
fn refused(outcome: &Result<Verdict, RunFault>) -> Option<Verdict>
    ensures { IfSome result (λ verdict. (outcome.now ≡ Ok verdict) × (verdict ≢ Accepted)) }
{
    match outcome {
        Ok(Verdict::Accepted) | Err(_) => None,
        Ok(verdict) => Some(*verdict),
    }
}

/// Whether a run accepted its input, and a place in it may be doubtful.
fn may_be_noted(ran: &Ran) -> bool
    ensures { IsTrue result ↔ ((ran.now.outcome ≡ Ok Accepted)
        × (ran.now.clarity ≡ Clarity.Unclear)) }
{
    matches!(ran.outcome, Ok(Verdict::Accepted)) && ran.clarity == Clarity::Unclear
}

/// The note on a description.
fn note_of_land<N, D>(
    alloc: Global,
    notes: &OpenedNotes<Kept<N>>,
    description: &OpenedText<Kept<D>>,
    account: Account,
) -> Option<Note>
    ensures { IfSome result
        (ShowsNoted (IsFile description.now.name (copy_of description.now.source))) }
{
    note_land(alloc, &notes.given()?, &description.given()?, account).ok()?
}

/// The note on a list of tracts.
fn note_of_list<N, T>(
    alloc: Global,
    notes: &OpenedNotes<Kept<N>>,
    tracts: &OpenedText<Kept<T>>,
) -> Option<Note>
    ensures { IfSome result (ShowsNoted (IsFile tracts.now.name (copy_of tracts.now.source))) }
{
    note_list(alloc, &notes.given()?, &tracts.given()?).ok()?
}

/// The note on joined input.
fn note_of_joined<S>(alloc: Global, input: &Kept<S>) -> Option<Note>
    ensures { IfSome result (ShowsNoted (IsJoinedDescription (copy_of input.now))) }
{
    let JoinedTexts { description, notes } = joined_texts(input)?;
    note_land(alloc, &notes, &description, Account::Exact).ok()?
}

/// The explanation for field notes.
fn of_plat<N>(alloc: Global, notes: &OpenedNotes<Kept<N>>, verdict: Verdict) -> Option<Explanation>
    ensures explained { IfSome result (IsExplanationOf verdict) }
    ensures shows { IfSome result
        (ShowsText (IsFile notes.now.name (copy_of notes.now.source))) }
{
    explain_plat(alloc, &notes.given()?, verdict).ok()?
}

/// The explanation for field notes and a description.
fn of_land<S: Suggests, N, D>(
    alloc: Global,
    notes: &OpenedNotes<Kept<N>>,
    description: &OpenedText<Kept<D>>,
    verdict: Verdict,
) -> Option<Explanation>
    ensures explained { IfSome result (IsExplanationOf verdict) }
    ensures shows { IfSome result
        (ShowsEither (IsFile notes.now.name (copy_of notes.now.source))
        (IsFile description.now.name (copy_of description.now.source))) }
{
    explain_land::<S>(alloc, &notes.given()?, &description.given()?, verdict).ok()?
}

/// The explanation for field notes and a list of tracts.
fn of_list<S: Suggests, N, T>(
    alloc: Global,
    notes: &OpenedNotes<Kept<N>>,
    tracts: &OpenedText<Kept<T>>,
    verdict: Verdict,
) -> Option<Explanation>
    ensures explained { IfSome result (λ explanation.
        first_refusal verdict ≡ Some explanation.refusal) }
    ensures shows { IfSome result
        (ShowsEither (IsFile notes.now.name (copy_of notes.now.source))
        (IsFile tracts.now.name (copy_of tracts.now.source))) }
{
    explain_list::<S>(alloc, &notes.given()?, &tracts.given()?, verdict).ok()?
}

/// The explanation for joined input.
fn of_joined<S: Suggests, I>(
    alloc: Global,
    input: &Kept<I>,
    verdict: Verdict,
) -> Option<Explanation>
    ensures explained { IfSome result (IsExplanationOf verdict) }
    ensures shows { IfSome result (ShowsEither (AreJoinedNotes (copy_of input.now))
        (IsJoinedDescription (copy_of input.now))) }
{
    let JoinedTexts { description, notes } = joined_texts(input)?;
    explain_land::<S>(alloc, &notes, &description, verdict).ok()?
}

/// The texts of joined input.
#[derive(Clone, Copy)]
struct JoinedTexts<'a> {
    /// The description: its first line.
    description: Given<'a>,
    /// The field notes: what comes after that line.
    notes: Given<'a>,
}

/// The texts of joined input, unless there was no memory to keep it.
fn joined_texts<S>(input: &Kept<S>) -> Option<JoinedTexts<'_>>
    ensures description { IfSome result (λ texts.
        IsJoinedDescription (copy_of input.now) texts.description) }
    ensures notes { IfSome result (λ texts. AreJoinedNotes (copy_of input.now) texts.notes) }
{
    let (description, notes) = split_at_line_feed(input.kept()?);
    Some(JoinedTexts {
        description: Given {
            name: STANDARD_INPUT,
            bytes: description,
            first_line: 1,
        },
        notes: Given {
            name: STANDARD_INPUT,
            bytes: notes,
            first_line: 2,
        },
    })
}

/// Writes an explanation, if there is one. A fault of standard error changes nothing.
fn explain<R: Eprint>(rt: &R, explanation: Option<Explanation>) {
    if let Some(explanation) = explanation {
        let _ = eprint!(rt; "{}", explanation.text);
    }
}

/// Writes a note, if there is one. A fault of standard error changes nothing.
fn show_note<R: Eprint>(rt: &R, note: Option<Note>) {
    if let Some(note) = note {
        let _ = eprint!(rt; "{}", note.text);
    }
}
