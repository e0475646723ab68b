//! The subcommands. Each runs on its opened files, whatever devices they are, and so does the
//! program without arguments; the functions that open the files only pass them on.
ghost use Rattle.std.specs.Prelude.{◌≡◌, IfErr, IfOk, false};
ghost use Rattle.twp_read.specs.TextFaults.{TEXT_LIMIT};
ghost use Rattle.twp_answers.specs.AccountAnswers.{IsAcresAnswerBy};
ghost use Rattle.twp_answers.specs.NormalAnswers.{IsNormalAnswer};
ghost use Rattle.twp_answers.specs.PlatAnswers.{IsPlatAnswer};
ghost use Rattle.twp_answers.specs.ReportAnswers.{IsReportAnswer};
ghost use Rattle.twp_answers.specs.Uses.{used};
ghost use Rattle.twp_answers.specs.Runs.{RunsOnPlat};
ghost use Rattle.twp_answers.specs.Tracts.{TRACTS_LIMIT};
ghost use Rattle.twp_program.specs.Endings.{FailsOn, IsVerdictOf, RunsOnNotes};

use crate::files::{Name, OpenedNotes, OpenedText, open_notes, open_text};
use crate::program::{Failure, outcome_of};
use crate::showing::{show_land, show_list, show_plat};
use crate::task::Task;
use std::alloc::Global;
use std::io;
use std::rt::Files;
use twp_answers::{
    Account, Ran, RunFault, Verdict, run_acres_noting, run_normal_noting, run_plat,
    run_report_noting,
};
use twp_diagnose::Suggests;
use twp_grid::{Device, Sink, Source};

/// Opens the files of a task, in order, and runs it.
pub(crate) fn run_task<S: Suggests, R: Files + Print + Eprint + AllocGlobal>(
    rt: &R,
    task: Task,
) -> Result<Verdict, Failure>
    ensures answers { IfOk result (IsVerdictOf task) }
    ensures fails { IfErr result (FailsOn task) }
{
    match task {
        Task::Plat { notes } => open_plat(rt, notes),
        Task::Acres {
            notes,
            description,
            account,
        } => open_acres::<S, R>(rt, notes, description, account),
        Task::Normal { notes, description } => open_normal::<S, R>(rt, notes, description),
        Task::Report { notes, tracts } => open_report::<S, R>(rt, notes, tracts),
    }
}

/// `plat NOTES`
#[inline(never)]
fn open_plat<R: Files + Print + Eprint + AllocGlobal>(
    rt: &R,
    notes: Name,
) -> Result<Verdict, Failure>
    ensures answers { IfOk result (IsVerdictOf (Task.Plat notes)) }
    ensures fails { IfErr result (FailsOn (Task.Plat notes)) }
{
    let mut notes = open_notes(rt, notes)?;
    let mut out = Device::new(io::writer(rt));
    let outcome = plat(rt.alloc(), &mut notes, &mut out);
    show_plat(rt, &outcome, &notes);
    outcome_of(outcome)
}

/// `acres [--account ACCOUNT] NOTES DESCRIPTION`
#[inline(never)]
fn open_acres<S: Suggests, R: Files + Print + Eprint + AllocGlobal>(
    rt: &R,
    notes: Name,
    description: Name,
    account: Account,
) -> Result<Verdict, Failure>
    ensures answers { IfOk result (IsVerdictOf (Task.Acres notes description account)) }
    ensures fails { IfErr result (FailsOn (Task.Acres notes description account)) }
{
    let mut notes = open_notes(rt, notes)?;
    let mut description = open_text(rt, description)?;
    let mut out = Device::new(io::writer(rt));
    let ran = acres(rt.alloc(), &mut notes, &mut description, &mut out, account);
    show_land::<S, _, _, _>(rt, &ran, &notes, &description, account);
    outcome_of(ran.outcome)
}

/// `normal NOTES DESCRIPTION`
#[inline(never)]
fn open_normal<S: Suggests, R: Files + Print + Eprint + AllocGlobal>(
    rt: &R,
    notes: Name,
    description: Name,
) -> Result<Verdict, Failure>
    ensures answers { IfOk result (IsVerdictOf (Task.Normal notes description)) }
    ensures fails { IfErr result (FailsOn (Task.Normal notes description)) }
{
    let mut notes = open_notes(rt, notes)?;
    let mut description = open_text(rt, description)?;
    let mut out = Device::new(io::writer(rt));
    let ran = normal(rt.alloc(), &mut notes, &mut description, &mut out);
    show_land::<S, _, _, _>(rt, &ran, &notes, &description, Account::Exact);
    outcome_of(ran.outcome)
}

/// `report NOTES TRACTS`
#[inline(never)]
fn open_report<S: Suggests, R: Files + Print + Eprint + AllocGlobal>(
    rt: &R,
    notes: Name,
    tracts: Name,
) -> Result<Verdict, Failure>
    ensures answers { IfOk result (IsVerdictOf (Task.Report notes tracts)) }
    ensures fails { IfErr result (FailsOn (Task.Report notes tracts)) }
{
    let mut notes = open_notes(rt, notes)?;
    let mut tracts = open_text(rt, tracts)?;
    let mut out = Device::new(io::writer(rt));
    let ran = report(rt.alloc(), &mut notes, &mut tracts, &mut out);
    show_list::<S, _, _, _>(rt, &ran, &notes, &tracts);
    outcome_of(ran.outcome)
}

/// Writes the plat of opened notes.
#[inline(never)]
fn plat<N: Source, W: Sink>(
    alloc: Global,
    notes: &mut OpenedNotes<N>,
    out: &mut W,
) -> Result<Verdict, RunFault>
    requires notes { N.has_failed notes.old.source ≡ false }
    requires out { W.has_failed out.old ≡ false }
    ensures { RunsOnNotes IsPlatAnswer
        (used (N.remaining notes.old.source) (N.remaining notes.new.source)
        (N.has_failed notes.new.source))
        (used (W.contents out.old) (W.contents out.new) (W.has_failed out.new)) result }
{
    run_plat(alloc, &mut notes.source, out)
}

/// Writes the acres of an opened description on the plat of opened notes, by an account.
#[inline(never)]
fn acres<N: Source, D: Source, W: Sink>(
    alloc: Global,
    notes: &mut OpenedNotes<N>,
    description: &mut OpenedText<D>,
    out: &mut W,
    account: Account,
) -> Ran
    requires notes { N.has_failed notes.old.source ≡ false }
    requires description { D.has_failed description.old.source ≡ false }
    requires out { W.has_failed out.old ≡ false }
    ensures { RunsOnPlat (IsAcresAnswerBy account) TEXT_LIMIT
        (used (N.remaining notes.old.source) (N.remaining notes.new.source)
        (N.has_failed notes.new.source))
        (used (D.remaining description.old.source) (D.remaining description.new.source)
        (D.has_failed description.new.source))
        (used (W.contents out.old) (W.contents out.new) (W.has_failed out.new))
        (description.new.source ≡ description.old.source) result.outcome }
{
    run_acres_noting(
        alloc,
        &mut notes.source,
        &mut description.source,
        out,
        account,
    )
}

/// Writes the canonical text of an opened description on the plat of opened notes.
#[inline(never)]
fn normal<N: Source, D: Source, W: Sink>(
    alloc: Global,
    notes: &mut OpenedNotes<N>,
    description: &mut OpenedText<D>,
    out: &mut W,
) -> Ran
    requires notes { N.has_failed notes.old.source ≡ false }
    requires description { D.has_failed description.old.source ≡ false }
    requires out { W.has_failed out.old ≡ false }
    ensures { RunsOnPlat IsNormalAnswer TEXT_LIMIT
        (used (N.remaining notes.old.source) (N.remaining notes.new.source)
        (N.has_failed notes.new.source))
        (used (D.remaining description.old.source) (D.remaining description.new.source)
        (D.has_failed description.new.source))
        (used (W.contents out.old) (W.contents out.new) (W.has_failed out.new))
        (description.new.source ≡ description.old.source) result.outcome }
{
    let (source, text) = (&mut notes.source, &mut description.source);
    run_normal_noting(alloc, source, text, out)
}

/// Writes the account of an opened list of tracts on the plat of opened notes.
#[inline(never)]
fn report<N: Source, T: Source, W: Sink>(
    alloc: Global,
    notes: &mut OpenedNotes<N>,
    tracts: &mut OpenedText<T>,
    out: &mut W,
) -> Ran
    requires notes { N.has_failed notes.old.source ≡ false }
    requires tracts { T.has_failed tracts.old.source ≡ false }
    requires out { W.has_failed out.old ≡ false }
    ensures { RunsOnPlat IsReportAnswer TRACTS_LIMIT
        (used (N.remaining notes.old.source) (N.remaining notes.new.source)
        (N.has_failed notes.new.source))
        (used (T.remaining tracts.old.source) (T.remaining tracts.new.source)
        (T.has_failed tracts.new.source))
        (used (W.contents out.old) (W.contents out.new) (W.has_failed out.new))
        (tracts.new.source ≡ tracts.old.source) result.outcome }
{
    run_report_noting(alloc, &mut notes.source, &mut tracts.source, out)
}
