ghost use Rattle.std.specs.Prelude.{◌≡◌, ◌∷◌, [], IfOk, false, codes};
ghost use Rattle.clap.specs.Words.{app_of, rule_of, shape_of};
ghost use Rattle.clap.specs.declared.builder.command.Command.TheViews.{out-Command as fields_of};
ghost use Rattle.twp_program.specs.Commands.{IsTownship, IsTownshipWith};
ghost use Rattle.twp_program.specs.steps.CommandParts.{IsAccountOption, IsAcres};
ghost use Rattle.twp_program.specs.Commands.{required_word};
ghost use Rattle.twp_program.specs.Commands.{normal as the_normal, plat as the_plat};
ghost use Rattle.twp_program.specs.Commands.{report as the_report};

use clap::{Arg, Command};
use std::alloc::{AllocError, Global};

/// The program's name in help and usage, whatever the name of its file.
const NAME: &str = "township";

/// The end of the help text: how to call the program.
const EXAMPLES: &str = "Examples:
  township plat notes.csv
  township acres notes.csv land.txt
  township normal notes.csv land.txt
  township report notes.csv tracts.csv

With no arguments, township reads standard input: a description of land on the
first line, and then the field notes. It prints the acres.";

/// The end of the help text of `acres`.
const ACRES_EXAMPLES: &str = "Examples:
  township acres notes.csv land.txt
  township acres --account plat notes.csv land.txt";

/// The accounts, as the command line names them.
static ACCOUNTS: [&str; 2] = ["exact", "plat"];

/// The command line of the program: one of its subcommands, and its files.
pub(crate) fn township<'a>(alloc: Global) -> Result<Command<'a>, AllocError>
    ensures { IfOk result (λ command. IsTownship (app_of command)) }
{
    without_report(alloc)?.subcommand(report(alloc)?)
}

/// The command line without `report`.
fn without_report<'a>(alloc: Global) -> Result<Command<'a>, AllocError>
    ensures { IfOk result (λ command. IsTownshipWith (the_normal ∷ []) (app_of command)) }
{
    measures(alloc)?.subcommand(normal(alloc)?)
}

/// The command line with the subcommands that write the acres of a plat or of one description.
fn measures<'a>(alloc: Global) -> Result<Command<'a>, AllocError>
    ensures { IfOk result (λ command. IsTownshipWith [] (app_of command)) }
{
    Command::new(alloc, NAME)
        .about(
            "Draws a township's plat from its field notes, and gives the acres of land described on it",
        )
        .after_help(EXAMPLES)
        .bin_name(NAME)?
        .subcommand_required(true)
        .subcommand(plat(alloc)?)?
        .subcommand(acres(alloc)?)
}

/// `plat NOTES`
fn plat<'a>(alloc: Global) -> Result<Command<'a>, AllocError>
    ensures local { IfOk result (λ command. (fields_of command).has_globals ≡ false) }
    ensures shape { IfOk result (λ command. shape_of command
        ≡ the_plat) }
{
    Command::new(alloc, "plat")
        .about("Print the acres of each lot, of each section, and of the whole township")
        .arg(notes(alloc))
}

/// `acres [--account ACCOUNT] NOTES DESCRIPTION`
fn acres<'a>(alloc: Global) -> Result<Command<'a>, AllocError>
    ensures local { IfOk result (λ command. (fields_of command).has_globals ≡ false) }
    ensures shape { IfOk result (λ command. IsAcres (shape_of command)) }
{
    Command::new(alloc, "acres")
        .about("Print the acres of the land described")
        .after_help(ACRES_EXAMPLES)
        .arg(notes(alloc))?
        .arg(description(alloc))?
        .arg(account(alloc))
}

/// `normal NOTES DESCRIPTION`
fn normal<'a>(alloc: Global) -> Result<Command<'a>, AllocError>
    ensures local { IfOk result (λ command. (fields_of command).has_globals ≡ false) }
    ensures shape { IfOk result (λ command. shape_of command
        ≡ the_normal) }
{
    Command::new(alloc, "normal")
        .about("Print the one canonical spelling of the land described")
        .arg(notes(alloc))?
        .arg(description(alloc))
}

/// `report NOTES TRACTS`
fn report<'a>(alloc: Global) -> Result<Command<'a>, AllocError>
    ensures local { IfOk result (λ command. (fields_of command).has_globals ≡ false) }
    ensures shape { IfOk result (λ command. shape_of command
        ≡ the_report) }
{
    Command::new(alloc, "report")
        .about("Print the acres of each tract in a list, of all of them, and of what remains")
        .arg(notes(alloc))?
        .arg(tracts(alloc))
}

/// The file of field notes.
fn notes<'a>(alloc: Global) -> Arg<'a>
    ensures local { result.global ≡ false }
    ensures rule { rule_of result ≡ required_word (codes "NOTES") }
{
    Arg::new(alloc, "NOTES")
        .required(true)
        .help("Field notes of the township's 84 section lines, as CSV")
}

/// The file of a description.
fn description<'a>(alloc: Global) -> Arg<'a>
    ensures local { result.global ≡ false }
    ensures rule { rule_of result ≡ required_word (codes "DESCRIPTION") }
{
    Arg::new(alloc, "DESCRIPTION")
        .required(true)
        .help("Description of land, such as: sec. 5, lot 1.")
}

/// The file of a list of tracts.
fn tracts<'a>(alloc: Global) -> Arg<'a>
    ensures local { result.global ≡ false }
    ensures rule { rule_of result ≡ required_word (codes "TRACTS") }
{
    Arg::new(alloc, "TRACTS").required(true).help(
        "List of tracts, as CSV: a name and a description in each record",
    )
}

/// The option that names an account.
fn account<'a>(alloc: Global) -> Arg<'a>
    ensures local { result.global ≡ false }
    ensures rule { IsAccountOption (rule_of result) }
{
    Arg::new(alloc, "ACCOUNT")
        .long("account")
        .value_parser(ACCOUNTS.as_slice())
        .default_value("exact")
        .help("Count each whole lot by its exact area, or by the acres printed on the plat")
}
