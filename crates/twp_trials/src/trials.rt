//! All trials, on the plat of the field notes on standard input. Each calculation is in a comment
//! beside its call. After an empty line, standard input has descriptions, whose readings come last.

mod blocks;
mod descriptions;
mod faults;
mod figures;
mod fronts;
mod lands;
mod parcels;
mod words;

use crate::readings;
use bstr::ByteSlice;
use std::alloc::Global;
use std::io;
use std::process::ExitCode;
use twp_grid::Bytes;
use twp_notes::Notes;
use twp_plat::Plat;

/// Makes each call, and prints its answer; and after an empty line, the readings of the descriptions.
pub fn try_all(rt: &HostRuntime) -> io::Result<ExitCode> {
    let input = readings::read_input(rt)?;
    let Some((notes, descriptions)) = input.as_slice().split_once_str(b"\n\n") else {
        return unusable(rt);
    };
    let Some(plat) = plat_of(rt.alloc(), notes) else {
        return unusable(rt);
    };
    blocks::try_blocks(rt)?;
    lands::try_counts(rt)?;
    lands::try_both_kinds(rt)?;
    figures::try_figures(rt, &plat)?;
    words::try_words(rt)?;
    descriptions::try_descriptions(rt, &plat)?;
    fronts::try_fronts(rt, &plat)?;
    parcels::try_parcels(rt, &plat)?;
    faults::try_faults(rt)?;
    rt.println("")?;
    readings::print_each(rt, descriptions)?;
    Ok(ExitCode::SUCCESS)
}

/// How the trials end if standard input isn't what they need.
fn unusable(rt: &HostRuntime) -> io::Result<ExitCode> {
    eprintln!(rt;
        "twp_trials: standard input must be field notes that make a plat, an empty line, and descriptions"
    )?;
    Ok(ExitCode::from(2))
}

/// The plat of field notes.
fn plat_of(alloc: Global, notes: &[u8]) -> Option<Plat> {
    let notes = Notes::read(alloc, &mut Bytes::new(notes)).ok()?;
    Plat::protract(&notes).ok()
}
