//! Each run, on such devices.

use crate::devices::device::{Reader, Writer};
use std::io;
use std::io::{Error, ErrorKind};
use twp_answers::{
    Account, RunFault, Verdict, run_acres, run_acres_as, run_normal, run_plat, run_report,
};
use twp_grid::Device;
use twp_program::run_joined;

/// Makes a call, and prints how it ended. The run of the plat and that of joined input do not use
/// the second reader.
pub fn run(
    rt: &HostRuntime,
    call: &str,
    notes: Reader,
    second: Reader,
    out: Writer,
) -> io::Result<()> {
    let alloc = rt.alloc();
    let mut notes = Device::new(notes);
    let mut second = Device::new(second);
    let mut out = Device::new(out);
    let outcome = match call {
        "acres" => run_acres(alloc, &mut notes, &mut second, &mut out),
        "acres-by-plat" => run_acres_as(alloc, &mut notes, &mut second, &mut out, Account::Plat),
        "plat" => run_plat(alloc, &mut notes, &mut out),
        "normal" => run_normal(alloc, &mut notes, &mut second, &mut out),
        "report" => run_report(alloc, &mut notes, &mut second, &mut out),
        "joined" => run_joined(alloc, &mut notes, &mut out),
        _ => return Err(Error::from(ErrorKind::InvalidInput)),
    };
    print_outcome(rt, outcome)?;
    println!(rt; ", calls: {} and {}", notes.get().calls, second.get().calls)
}

/// Begins the line after the answer.
fn print_outcome(rt: &HostRuntime, outcome: Result<Verdict, RunFault>) -> io::Result<()> {
    match outcome {
        Ok(Verdict::Accepted) => rt.print("\n= accepted"),
        Ok(Verdict::Refused(refusal)) => {
            print!(rt; "\n= refused {} at {}", refusal.number, refusal.at)
        }
        Ok(Verdict::TractRefused { at, inner }) => {
            print!(rt; "\n= tract {at} refused {} at {}", inner.number, inner.at)
        }
        Err(fault) => print!(rt; "\n= {fault}"),
    }
}
