ghost use Rattle.std.specs.Prelude.{◌≡◌, ◌≢◌, ◌+◌, ◌↔◌, ℕ, List, Some, true, false};
ghost use Rattle.std.specs.Prelude.{OnOk, OnErr, IfOk, IfErr, IsErrOf, IsOkUnless, is_err};
ghost use Rattle.std.specs.Io.KnownBytes.{Appends};
ghost use Rattle.twp_grid.specs.Devices.{TakesAtMost};
ghost use Rattle.twp_grid.specs.declared.refusal.Refusal.{Refusal};
ghost use Rattle.twp_notes.specs.FieldNotes.{NOTES_MOST};
ghost use Rattle.twp_grid.specs.Devices.{TakesFirst};
ghost use Rattle.twp_read.specs.Doubts.{HasNoDoubtfulPlace};
ghost use Rattle.twp_read.specs.declared.doubt.Clarity.{Clarity};
ghost use Rattle.twp_read.specs.TextFaults.{TEXT_LIMIT};
ghost use Rattle.twp_answers.specs.Answers.{IsRefusal, refusal_line};
ghost use Rattle.twp_answers.specs.Answers.{HasAcres, IsAcresAnswer, acres_line};
ghost use Rattle.twp_answers.specs.AccountAnswers.{HasAcresBy, IsAcresAnswerBy};
ghost use Rattle.twp_answers.specs.PlatAnswers.{IsPlatAnswer};
ghost use Rattle.twp_answers.specs.NormalAnswers.{IsNormalAnswer};
ghost use Rattle.twp_answers.specs.ReportAnswers.{IsReportAnswer};
ghost use Rattle.twp_answers.specs.ClearTracts.{IsClearList};
ghost use Rattle.twp_answers.specs.Tracts.{TRACTS_LIMIT};
ghost use Rattle.twp_answers.specs.Uses.{Reads, used};
ghost use Rattle.twp_answers.specs.Runs.{AppendsFront, IsAnswered, IsRun, RunsOnPlat};

use crate::runs::answer::{Answer, Ran, write_whole};
use crate::runs::{acres_answer, normal_answer, plat_answer, report_answer};
use crate::stop::{RunFault, Verdict};
use std::alloc::Global;
use twp_grid::{Sink, Source};
use twp_plat::Account;

/// Writes the acres of the land described, if the field notes make a plat and the parts of the
/// description lie on it without overlapping: the exact sum of interpolated areas over the land's
/// places, rounded once to hundredths, half up, however the land is described. Otherwise it writes
/// the numbered refusal of the first fault, at its place.
///
/// The whole answer is computed before its first byte is written.
pub fn run_acres<N: Source, D: Source, W: Sink>(
    alloc: Global,
    notes: &mut N,
    description: &mut D,
    out: &mut W,
) -> Result<Verdict, RunFault>
    requires notes { N.has_failed notes.old ≡ false }
    requires description { D.has_failed description.old ≡ false }
    requires out { W.has_failed out.old ≡ false }

    // For any two texts: the acres of the land described, if there is such land ..
    ensures acres { (n d : List ℕ)
        → N.remaining notes.old ≡ Some n → D.remaining description.old ≡ Some d
        → (hundredths : ℕ) → HasAcres n d hundredths
        → IsAnswered (W.contents out.old) (W.contents out.new)
        (acres_line hundredths) Verdict.Accepted result }

    // .. and the numbered refusal of the first fault, at its place, if there is none.
    ensures refusals { (n d : List ℕ)
        → N.remaining notes.old ≡ Some n → D.remaining description.old ≡ Some d
        → (refusal : Refusal) → IsRefusal n d refusal
        → IsAnswered (W.contents out.old) (W.contents out.new)
        (refusal_line refusal) (Verdict.Refused refusal) result }

    // As for each run on two texts: it gives one of the two answers, whether or not the bytes of
    // the devices are known; it returns a fault if a device fails; and it reads no further than
    // necessary.
    ensures run { RunsOnPlat IsAcresAnswer TEXT_LIMIT
        (used (N.remaining notes.old) (N.remaining notes.new) (N.has_failed notes.new))
        (used (D.remaining description.old) (D.remaining description.new)
        (D.has_failed description.new))
        (used (W.contents out.old) (W.contents out.new) (W.has_failed out.new))
        (description.new ≡ description.old) result }
{
    run_acres_noting(alloc, notes, description, out, Account::Exact).outcome
}

/// Writes the acres of the land described as `run_acres` does, but counts each whole lot by the
/// account: at its exact area, or at the acreage that the plat shows for it, which is already
/// rounded; then other land counts at its nominal area (this project's rule).
///
/// The whole answer is computed before its first byte is written.
pub fn run_acres_as<N: Source, D: Source, W: Sink>(
    alloc: Global,
    notes: &mut N,
    description: &mut D,
    out: &mut W,
    account: Account,
) -> Result<Verdict, RunFault>
    requires notes { N.has_failed notes.old ≡ false }
    requires description { D.has_failed description.old ≡ false }
    requires out { W.has_failed out.old ≡ false }

    // As for each run on two texts, with the acres by the account, or the refusal.
    ensures run { RunsOnPlat (IsAcresAnswerBy account) TEXT_LIMIT
        (used (N.remaining notes.old) (N.remaining notes.new) (N.has_failed notes.new))
        (used (D.remaining description.old) (D.remaining description.new)
        (D.has_failed description.new))
        (used (W.contents out.old) (W.contents out.new) (W.has_failed out.new))
        (description.new ≡ description.old) result }
{
    run_acres_noting(alloc, notes, description, out, account).outcome
}

/// Writes the acres of the land described, by an account, and notes whether the description may have a
/// place that can be read in two ways. By the exact account, its clauses are those of `run_acres`. The
/// program calls this function; `run_acres` and `run_acres_as` return its outcome.
pub fn run_acres_noting<N: Source, D: Source, W: Sink>(
    alloc: Global,
    notes: &mut N,
    description: &mut D,
    out: &mut W,
    account: Account,
) -> Ran
    requires notes { N.has_failed notes.old ≡ false }
    requires description { D.has_failed description.old ≡ false }
    requires out { W.has_failed out.old ≡ false }

    // For any two texts: the acres of the land described, by the account, if there is such land ..
    ensures acres { (n d : List ℕ)
        → N.remaining notes.old ≡ Some n → D.remaining description.old ≡ Some d
        → (hundredths : ℕ) → HasAcresBy account n d hundredths
        → IsAnswered (W.contents out.old) (W.contents out.new)
        (acres_line hundredths) Verdict.Accepted result.outcome }

    // .. and the numbered refusal of the first fault, at its place, if there is none.
    ensures refusals { (n d : List ℕ)
        → N.remaining notes.old ≡ Some n → D.remaining description.old ≡ Some d
        → (refusal : Refusal) → IsRefusal n d refusal
        → IsAnswered (W.contents out.old) (W.contents out.new)
        (refusal_line refusal) (Verdict.Refused refusal) result.outcome }

    // As for each run on two texts.
    ensures run { RunsOnPlat (IsAcresAnswerBy account) TEXT_LIMIT
        (used (N.remaining notes.old) (N.remaining notes.new) (N.has_failed notes.new))
        (used (D.remaining description.old) (D.remaining description.new)
        (D.has_failed description.new))
        (used (W.contents out.old) (W.contents out.new) (W.has_failed out.new))
        (description.new ≡ description.old) result.outcome }

    // What is noted as clear has no doubtful place.
    ensures clear { (d : List ℕ) → D.remaining description.old ≡ Some d
        → result.clarity ≡ Clarity.Clear → HasNoDoubtfulPlace d }
{
    match acres_answer::answer_of(alloc, notes, description, account) {
        Ok(answer) => Ran {
            outcome: write_answer(out, &answer),
            clarity: answer.clarity,
        },
        Err(fault) => Ran::failed(fault),
    }
}

/// Writes the plat that field notes make: for each section, the acreage of its lots and of the
/// section, and at the end that of the township. Each figure is an exact area, rounded once. If the
/// notes make no plat, it writes the numbered refusal of the first fault, at its place.
///
/// The whole answer is computed before its first byte is written.
pub fn run_plat<N: Source, W: Sink>(
    alloc: Global,
    notes: &mut N,
    out: &mut W,
) -> Result<Verdict, RunFault>
    requires notes { N.has_failed notes.old ≡ false }
    requires out { W.has_failed out.old ≡ false }

    // The printed plat of known notes, or the refusal; a verdict if no device fails and memory does
    // not run out.
    ensures told { (n : List ℕ) → N.remaining notes.old ≡ Some n
        → IsRun (IsPlatAnswer n) (W.contents out.old) (W.contents out.new) result }
    ensures answers { N.has_failed notes.new ≡ false → W.has_failed out.new ≡ false
        → IsOkUnless result RunFault.Memory }

    // The same, whether or not the bytes of the devices are known.
    ensures ran { Reads (N.remaining notes.old) (λ n.
        IsRun (IsPlatAnswer n) (W.contents out.old) (W.contents out.new) result) }

    // A device's fault is returned exactly if that device failed in this call.
    ensures read { IsErrOf result RunFault.Read ↔ (N.has_failed notes.new ≡ true) }
    ensures write { IsErrOf result RunFault.Write ↔ (W.has_failed out.new ≡ true) }

    // Reading ends at most one byte past the limit.
    ensures most { TakesAtMost (N.remaining notes.old)
        (N.remaining notes.new) (NOTES_MOST + 1) }

    // It ends exactly there or at the end of the input, if the reader does not fail and memory does
    // not run out.
    ensures exact { N.has_failed notes.new ≡ false → result ≢ Err RunFault.Memory
        → TakesFirst (N.remaining notes.old) (N.remaining notes.new) (NOTES_MOST + 1) }
{
    let answer = plat_answer::answer_of(alloc, notes)?;
    write_answer(out, &answer)
}

/// Writes the canonical text of the land described: one text for the same land, however it was
/// described. If the notes make no plat, or the description names no land on it, it writes the
/// numbered refusal of the first fault, at its place.
///
/// The whole answer is computed before its first byte is written.
pub fn run_normal<N: Source, D: Source, W: Sink>(
    alloc: Global,
    notes: &mut N,
    description: &mut D,
    out: &mut W,
) -> Result<Verdict, RunFault>
    requires notes { N.has_failed notes.old ≡ false }
    requires description { D.has_failed description.old ≡ false }
    requires out { W.has_failed out.old ≡ false }

    // As for each run on two texts, with the canonical text of the land described, or the refusal.
    ensures run { RunsOnPlat IsNormalAnswer TEXT_LIMIT
        (used (N.remaining notes.old) (N.remaining notes.new) (N.has_failed notes.new))
        (used (D.remaining description.old) (D.remaining description.new)
        (D.has_failed description.new))
        (used (W.contents out.old) (W.contents out.new) (W.has_failed out.new))
        (description.new ≡ description.old) result }
{
    run_normal_noting(alloc, notes, description, out).outcome
}

/// Writes the canonical text of the land described as `run_normal` does, and notes whether the description
/// may have a place that can be read in two ways.
pub fn run_normal_noting<N: Source, D: Source, W: Sink>(
    alloc: Global,
    notes: &mut N,
    description: &mut D,
    out: &mut W,
) -> Ran
    requires notes { N.has_failed notes.old ≡ false }
    requires description { D.has_failed description.old ≡ false }
    requires out { W.has_failed out.old ≡ false }

    // As for each run on two texts, with the canonical text of the land described, or the refusal.
    ensures run { RunsOnPlat IsNormalAnswer TEXT_LIMIT
        (used (N.remaining notes.old) (N.remaining notes.new) (N.has_failed notes.new))
        (used (D.remaining description.old) (D.remaining description.new)
        (D.has_failed description.new))
        (used (W.contents out.old) (W.contents out.new) (W.has_failed out.new))
        (description.new ≡ description.old) result.outcome }

    // What is noted as clear has no doubtful place.
    ensures clear { (d : List ℕ) → D.remaining description.old ≡ Some d
        → result.clarity ≡ Clarity.Clear → HasNoDoubtfulPlace d }
{
    match normal_answer::answer_of(alloc, notes, description) {
        Ok(answer) => Ran {
            outcome: write_answer(out, &answer),
            clarity: answer.clarity,
        },
        Err(fault) => Ran::failed(fault),
    }
}

/// Writes the account of a list of tracts, if the field notes make a plat and the list is a list of
/// tracts on it: for each tract its acres, then those of all places in at least one tract, and then
/// those of all others. Each figure is an exact area, rounded once. Otherwise it writes the
/// numbered refusal of the first fault; if that is a refused description, a second line gives the
/// refusal of the description.
///
/// The whole answer is computed before its first byte is written.
pub fn run_report<N: Source, T: Source, W: Sink>(
    alloc: Global,
    notes: &mut N,
    tracts: &mut T,
    out: &mut W,
) -> Result<Verdict, RunFault>
    requires notes { N.has_failed notes.old ≡ false }
    requires tracts { T.has_failed tracts.old ≡ false }
    requires out { W.has_failed out.old ≡ false }

    // As for each run on two texts, with the account of the list, or the refusal.
    ensures run { RunsOnPlat IsReportAnswer TRACTS_LIMIT
        (used (N.remaining notes.old) (N.remaining notes.new) (N.has_failed notes.new))
        (used (T.remaining tracts.old) (T.remaining tracts.new) (T.has_failed tracts.new))
        (used (W.contents out.old) (W.contents out.new) (W.has_failed out.new))
        (tracts.new ≡ tracts.old) result }
{
    run_report_noting(alloc, notes, tracts, out).outcome
}

/// Writes the account of a list of tracts as `run_report` does, and notes whether a description in it may
/// have a place that can be read in two ways.
pub fn run_report_noting<N: Source, T: Source, W: Sink>(
    alloc: Global,
    notes: &mut N,
    tracts: &mut T,
    out: &mut W,
) -> Ran
    requires notes { N.has_failed notes.old ≡ false }
    requires tracts { T.has_failed tracts.old ≡ false }
    requires out { W.has_failed out.old ≡ false }

    // As for each run on two texts, with the account of the list, or the refusal.
    ensures run { RunsOnPlat IsReportAnswer TRACTS_LIMIT
        (used (N.remaining notes.old) (N.remaining notes.new) (N.has_failed notes.new))
        (used (T.remaining tracts.old) (T.remaining tracts.new) (T.has_failed tracts.new))
        (used (W.contents out.old) (W.contents out.new) (W.has_failed out.new))
        (tracts.new ≡ tracts.old) result.outcome }

    // In a list that is noted as clear, no description of a tract has a doubtful place.
    ensures clear { (t : List ℕ) → T.remaining tracts.old ≡ Some t
        → result.clarity ≡ Clarity.Clear → IsClearList t }
{
    match report_answer::answer_of(alloc, notes, tracts) {
        Ok(answer) => Ran {
            outcome: write_answer(out, &answer),
            clarity: answer.clarity,
        },
        Err(fault) => Ran::failed(fault),
    }
}

/// Writes an answer, and returns its verdict.
fn write_answer<W: Sink>(out: &mut W, answer: &Answer) -> Result<Verdict, RunFault>
    requires { W.has_failed out.old ≡ false }
    ensures verdict { IfOk result (λ verdict. verdict ≡ answer.now.verdict) }
    ensures whole { OnOk result
        (Appends (W.contents out.old) (W.contents out.new) answer.now.text.items) }
    ensures front { OnErr result
        (AppendsFront (W.contents out.old) (W.contents out.new) answer.now.text.items) }
    ensures write { IfErr result (λ fault. fault ≡ RunFault.Write) }
    ensures failed { W.has_failed out.new ≡ is_err result }
{
    match write_whole(out, answer.text.as_slice()) {
        Ok(()) => Ok(answer.verdict),
        Err(_) => Err(RunFault::Write),
    }
}
