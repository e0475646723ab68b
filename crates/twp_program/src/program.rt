//! The program over the host's capabilities, which `main` passes to it; and how it ends, with its exit
//! status.
ghost use Rattle.std.specs.Prelude.{◌≡◌, map, string_bytes, IfErr, IfOk};
ghost use Rattle.twp_program.specs.Endings.{EndsAs, EndsProgram, IsJoinedVerdict, IsRunFailure};
ghost use Rattle.twp_program.specs.Endings.{IsWordsFault};
ghost use Rattle.twp_program.specs.Statuses.{IsStatusOf, words_fault, ending_of, ending_of_fault};
ghost use Rattle.twp_program.specs.Statuses.{failing, status_of};

use crate::files::{Kept, Name};
use crate::joined::run_joined_noting;
use crate::showing::show_joined;
use crate::subcommand::run_task;
use crate::task::{TaskFault, read_task};
use std::env::Env;
use std::io::ErrorKind;
use std::rt::Files;
use std::{env, io};
use thiserror::Error;
use twp_answers::{RunFault, Verdict};
use twp_diagnose::Suggests;
use twp_grid::Device;

/// Runs the program, and reports on standard error why there is no answer. It returns the ending
/// and its status together. `S` says what the explanation of a refused text may suggest at its end.
pub fn run<S: Suggests, R: Env + Files + Input + Print + Eprint + AllocGlobal>(rt: &R) -> Ended
    ensures ends { EndsProgram result.ending }
    ensures status { IsStatusOf result.ending result.status }
{
    let ending = carry_out::<S, R>(rt);
    let status = conclude(rt, &ending);
    Ended { ending, status }
}

/// Does the task that the words of the command line ask for, or answers standard input if there are
/// no words.
fn carry_out<S: Suggests, R: Env + Files + Input + Print + Eprint + AllocGlobal>(rt: &R) -> Ending
    ensures { EndsProgram result }
{
    match words_of(rt) {
        Ok(words) if words.len() > 1 => run_words::<S, R>(rt, words),
        Ok(_) => Ending::after(run_standard_input::<S, R>(rt)),
        Err(fault) => Ending::Failed(Failure::Run(fault)),
    }
}

/// The words of the command line, the first of which is the program's name. A word that is not text
/// cannot be read.
fn words_of<R: Env + AllocGlobal>(rt: &R) -> Result<Vec<String>, RunFault>
    ensures { IfErr result IsWordsFault }
{
    match env::args(rt) {
        Ok(words) => {
            // One by one, because `collect` would continue when the room for all of them is
            // refused.
            let mut all = Vec::new(rt.alloc());
            for word in words {
                all.push(word)?;
            }
            Ok(all)
        }
        Err(error) => Err(fault_of_words(error.kind())),
    }
}

/// Why the words cannot be obtained, as the host reports it.
fn fault_of_words(kind: ErrorKind) -> RunFault
    ensures { result ≡ words_fault kind }
{
    match kind {
        ErrorKind::OutOfMemory => RunFault::Memory,
        _ => RunFault::Read,
    }
}

/// Runs on the joined input from standard input.
#[inline(never)]
fn run_standard_input<S: Suggests, R: Input + Print + Eprint + AllocGlobal>(
    rt: &R,
) -> Result<Verdict, Failure>
    ensures answers { IfOk result IsJoinedVerdict }
    ensures fails { IfErr result IsRunFailure }
{
    let mut input = Kept::new(rt.alloc(), Device::new(rt.reader()));
    let mut out = Device::new(io::writer(rt));
    let ran = run_joined_noting(rt.alloc(), &mut input, &mut out);
    show_joined::<S, _, _>(rt, &ran, &input);
    outcome_of(ran.outcome)
}

/// Does the task that the words of a command line ask for, the first of which is the program's
/// name.
#[inline(never)]
pub fn run_words<S: Suggests, R: Files + Print + Eprint + AllocGlobal>(
    rt: &R,
    words: Vec<String>,
) -> Ending
    ensures { EndsAs (map string_bytes words.items) result }
{
    match read_task(rt.alloc(), words) {
        Ok(task) => Ending::after(run_task::<S, R>(rt, task)),
        Err(fault) => Ending::after_fault(fault),
    }
}

/// Prints any report, and returns the status: help on standard output, and on standard error the
/// misuse of the command line, or why there is no answer.
fn conclude<R: Print + Eprint>(rt: &R, ending: &Ending) -> u8
    ensures { IsStatusOf ending.now result }
{
    match ending {
        Ending::Answered(_) => {}
        Ending::Helps { text } => {
            if print!(rt; "{text}").is_err() {
                return conclude_failure(rt, &Failure::Run(RunFault::Write));
            }
        }
        Ending::Misused { text } => {
            let _ = eprint!(rt; "{text}");
        }
        Ending::Failed(failure) => return conclude_failure(rt, failure),
    }
    ending.status()
}

/// Reports why there is no answer, and returns the status for that.
fn conclude_failure<R: Eprint>(rt: &R, failure: &Failure) -> u8
    ensures { result ≡ 3 }
{
    let _ = eprintln!(rt; "township: {failure}");
    NO_ANSWER
}

/// How the program ends.
#[derive(Drop)]
pub enum Ending {
    /// A run gave an answer, and wrote it.
    Answered(Verdict),
    /// Help was asked for, which is in the text.
    Helps { text: String },
    /// The command line was misused, as the text says.
    Misused { text: String },
    /// There is no answer.
    Failed(Failure),
}

/// How the program ended, and its exit status.
#[derive(Drop)]
pub struct Ended {
    /// How it ended.
    pub ending: Ending,
    /// The status of that ending.
    pub status: u8,
}

/// Why the program has no answer.
#[derive(Debug, Drop, Error)]
pub enum Failure {
    /// A file can't be opened.
    #[error("cannot open {name}")]
    Open { name: Name },
    /// A run gave no verdict, or the same fault occurred in reading the words of the command line
    /// or writing its help.
    #[error("{0}")]
    Run(RunFault),
}

/// The outcome of a run, as the program's.
pub fn outcome_of(ran: Result<Verdict, RunFault>) -> Result<Verdict, Failure>
    ensures { result ≡ failing ran }
{
    match ran {
        Ok(verdict) => Ok(verdict),
        Err(fault) => Err(Failure::Run(fault)),
    }
}

/// The status if there is no answer.
pub const NO_ANSWER: u8 = 3;

impl Ending {
    /// How the program ends after a run.
    pub fn after(outcome: Result<Verdict, Failure>) -> Ending
        ensures { result ≡ ending_of outcome }
    {
        match outcome {
            Ok(verdict) => Ending::Answered(verdict),
            Err(failure) => Ending::Failed(failure),
        }
    }

    /// How the program ends if the words of its command line are not a task.
    pub fn after_fault(fault: TaskFault) -> Ending
        ensures { result ≡ ending_of_fault fault }
    {
        match fault {
            TaskFault::Usage { text } => Ending::Misused { text },
            TaskFault::Help { text } => Ending::Helps { text },
            TaskFault::Memory => Ending::Failed(Failure::Run(RunFault::Memory)),
        }
    }

    /// The exit status of the program: 0 if the input was accepted or help was asked for, 1 if the
    /// input was refused, 2 if the command line was misused, and 3 if there is no answer.
    pub fn status(&self) -> u8
        ensures { result ≡ status_of self.now }
    {
        match self {
            Ending::Answered(Verdict::Accepted) | Ending::Helps { .. } => 0,
            Ending::Answered(Verdict::Refused(_) | Verdict::TractRefused { .. }) => 1,
            Ending::Misused { .. } => 2,
            Ending::Failed(_) => NO_ANSWER,
        }
    }
}
