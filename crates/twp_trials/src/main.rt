//! Calls that `township` does not make, or whose answers it does not show separately.
//!
//! - Without words, it makes all trials, and prints a line for each; and after an empty line, the
//!   readings of descriptions. The file `stdout` beside `src/` contains the expected lines, which
//!   were worked out by hand. Standard input is the field notes of the uneven township,
//!   `samples/b1.csv`; and after an empty line, the descriptions.
//! - With the name of a call, it makes this call alone: `tests/program/growths.sh` refuses it
//!   memory, and `tests/program/test_calls.py` compares its answer.
//! - With the word `devices`, it makes the runs that standard input asks for, on devices that fail or
//!   are slow, for `tests/program/test_devices.py`.
//! - With the word `readings`, it prints the readings of the descriptions on standard input, for
//!   `tests/descriptions` and `bench/readings.sh`.
//! - With the word `unread`, it prints why those without a reading have none, for
//!   `tests/descriptions/unread.py`.
//! - With a kind of land, or `text`, it does work whose instructions `make bench` counts.
#![tactic(auto)]

mod counted;
mod devices;
mod mixed;
mod readings;
mod single;
mod trials;
mod unread;

use counted::LandTask;
use std::process::ExitCode;
use std::{env, io};

fn main(rt: HostRuntime) -> io::Result<ExitCode> {
    let mut words = env::args(&rt)?;
    let _program = words.next();
    let Some(first) = words.next() else {
        return trials::try_all(&rt);
    };
    match first.as_str() {
        "text" => {
            counted::read_text(&rt)?;
            return Ok(ExitCode::SUCCESS);
        }
        "devices" => {
            devices::run_lines(&rt)?;
            return Ok(ExitCode::SUCCESS);
        }
        "readings" => {
            readings::read_lines(&rt)?;
            return Ok(ExitCode::SUCCESS);
        }
        "unread" => {
            unread::read_lines(&rt)?;
            return Ok(ExitCode::SUCCESS);
        }
        _ => {}
    }
    let (Some(second), third) = (words.next(), words.next()) else {
        return misused(&rt);
    };
    let Some(third) = third else {
        return ended(&rt, single::read(&rt, first.as_str(), second.as_str())?);
    };
    match LandTask::of_words(first.as_str(), second.as_str(), third.as_str()) {
        Some(task) => {
            rt.println(task.tally())?;
            Ok(ExitCode::SUCCESS)
        }
        None => {
            let is_made = single::write(&rt, first.as_str(), second.as_str(), third.as_str())?;
            ended(&rt, is_made)
        }
    }
}

/// How the program ends that was asked for a call, which was made if there is such a call.
fn ended(rt: &HostRuntime, is_made: bool) -> io::Result<ExitCode> {
    if is_made {
        return Ok(ExitCode::SUCCESS);
    }
    misused(rt)
}

/// How the program ends if its words ask for nothing that it does.
fn misused(rt: &HostRuntime) -> io::Result<ExitCode> {
    eprintln!(rt;
        "twp_trials [CALL INPUT [ROOM] | devices | readings | unread | grid|lanes WORK TIMES | text]: see src/main.rt"
    )?;
    Ok(ExitCode::from(2))
}
