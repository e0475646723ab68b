ghost use Rattle.std.specs.Prelude.{◌≡◌, IfErr, IfOk, Some, map, option_map, string_bytes};
ghost use Rattle.std.specs.Prelude.{codes};
ghost use Rattle.clap.specs.Words.{first_of, found_of, kind_of, rows_of, subcommand_rows_of};
ghost use Rattle.twp_program.specs.Commands.{account_name};
ghost use Rattle.twp_program.specs.steps.Parses.{HasAccountName, HasValue, IsWhole, ShowsAs};
ghost use Rattle.twp_program.specs.Tasks.{IsFaultOf, IsTaskIn, IsTaskOf};

use crate::command::township;
use crate::files::Name;
use clap::error::ErrorKind;
use clap::{ArgMatches, Error as ParseError};
use std::alloc::{AllocError, AllocFailed, Global};
use thiserror::Error;
use twp_plat::Account;

/// What the program is asked to do.
#[derive(Drop)]
pub enum Task {
    /// Write the plat of field notes.
    Plat {
        /// The file of the notes.
        notes: Name,
    },
    /// Write the acres of a description of land on the plat of field notes.
    Acres {
        /// The file of the notes.
        notes: Name,
        /// The file of the description.
        description: Name,
        /// How each whole lot counts.
        account: Account,
    },
    /// Write the canonical spelling of a description of land on the plat of field notes.
    Normal {
        /// The file of the notes.
        notes: Name,
        /// The file of the description.
        description: Name,
    },
    /// Write the account of a list of tracts on the plat of field notes.
    Report {
        /// The file of the notes.
        notes: Name,
        /// The file of the list.
        tracts: Name,
    },
}

/// Why the words of a command line are not a task.
#[derive(Debug, Drop, Error)]
pub enum TaskFault {
    /// The words do not follow the command's rules. The text says why, and gives the usage.
    #[error("{text}")]
    Usage { text: String },
    /// The words ask for help, which is in the text.
    #[error("{text}")]
    Help { text: String },
    /// Memory ran out.
    #[error("out of memory")]
    Memory,
}

/// Reads the words of a command line. The first is the program's name.
#[inline(never)]
pub fn read_task(alloc: Global, words: Vec<String>) -> Result<Task, TaskFault>
    ensures task { IfOk result (IsTaskOf (map string_bytes words.items)) }
    ensures fault { IfErr result (IsFaultOf (map string_bytes words.items)) }
{
    task_of_words(alloc, words.as_slice())
}

/// Reads borrowed words.
fn task_of_words(alloc: Global, words: &[String]) -> Result<Task, TaskFault>
    ensures task { IfOk result (IsTaskOf (map string_bytes words.now)) }
    ensures fault { IfErr result (IsFaultOf (map string_bytes words.now)) }
{
    let command = township(alloc)?;
    match command.try_get_matches_from(words) {
        Ok(matches) => Ok(task_of(alloc, &matches)?),
        Err(error) => Err(fault_of(alloc, &error)),
    }
}

/// The task of a parse that succeeded.
fn task_of(alloc: Global, matches: &ArgMatches<'_>) -> Result<Task, AllocError>
    requires whole { IsWhole (subcommand_rows_of matches.now) }
    ensures task { IfOk result (IsTaskIn (subcommand_rows_of matches.now)) }
{
    let Some((name, found)) = matches.subcommand() else {
        unreachable!()
    };
    let notes = name_of(alloc, found, "NOTES")?;
    if name == "plat" {
        return Ok(Task::Plat { notes });
    }
    if name == "report" {
        let tracts = name_of(alloc, found, "TRACTS")?;
        return Ok(Task::Report { notes, tracts });
    }
    let description = name_of(alloc, found, "DESCRIPTION")?;
    if name == "acres" {
        let account = account_of(found);
        return Ok(Task::Acres {
            notes,
            description,
            account,
        });
    }
    Ok(Task::Normal { notes, description })
}

/// The value of a word that has one.
fn name_of(alloc: Global, found: &ArgMatches<'_>, word: &str) -> Result<Name, AllocError>
    requires value { HasValue word.now (rows_of (found_of found.now)) }
    ensures name { IfOk result (λ name.
        first_of word.now (rows_of (found_of found.now)) ≡ Some name) }
{
    let Some(text) = value_of(found, word) else {
        unreachable!()
    };
    Name::new(alloc, text)
}

/// The account that the option names.
fn account_of(found: &ArgMatches<'_>) -> Account
    requires { HasAccountName (rows_of (found_of found.now)) }
    ensures { first_of (codes "ACCOUNT") (rows_of (found_of found.now))
        ≡ Some (account_name result) }
{
    if value_of(found, "ACCOUNT") == Some("plat") {
        Account::Plat
    } else {
        Account::Exact
    }
}

/// The value of a word, if it has one.
fn value_of<'a>(found: &ArgMatches<'a>, word: &str) -> Option<&'a str>
    ensures { option_map (λ s. s.now) result ≡ first_of word.now (rows_of (found_of found.now)) }
{
    found.get_str(word)
}

/// The fault of a parse that gave no matches.
fn fault_of(alloc: Global, error: &ParseError) -> TaskFault
    ensures { ShowsAs (kind_of error.now) result }
{
    let kind = error.kind();
    if kind == ErrorKind::OutOfMemory {
        return TaskFault::Memory;
    }
    match error.to_string(alloc) {
        Ok(text) if kind == ErrorKind::DisplayHelp => TaskFault::Help { text },
        Ok(text) => TaskFault::Usage { text },
        Err(_) => TaskFault::Memory,
    }
}

impl From<AllocError> for TaskFault {
    ghost use Rattle.std.specs.Prelude.{◌≡◌};
    ghost use Rattle.twp_program.specs.declared.task.TaskFault.TheVariants.{Memory};

    ghost from_gives = { λ _ fault. fault ≡ Memory };

    fn from(_fault: AllocError) -> TaskFault {
        TaskFault::Memory
    }
}

impl<T: Drop> From<AllocFailed<T>> for TaskFault {
    ghost use Rattle.std.specs.Prelude.{◌≡◌};
    ghost use Rattle.twp_program.specs.declared.task.TaskFault.TheVariants.{Memory};

    ghost from_gives = { λ _ fault. fault ≡ Memory };

    fn from(_fault: AllocFailed<T>) -> TaskFault {
        TaskFault::Memory
    }
}
