//! The program `township`: it reads the field notes of a township, and with them a description of
//! land or a list of tracts, and writes a plat, acreage, a canonical description, or an account, or
//! otherwise a refusal. With no command-line arguments, it reads a description and field notes from
//! standard input.
#![tactic(auto)]

use std::process::ExitCode;
use twp_phrases::Phrases;
use twp_suggest::OnlyReading;

fn main(rt: HostRuntime) -> ExitCode {
    ExitCode::from(twp_program::run::<OnlyReading<Phrases>, _>(&rt).status)
}
