//! Runs whose devices fail in midstream, or give and take a few bytes a call. Each line of standard
//! input is a run, as 15 words between spaces:
//!
//! - the call: `acres`, `acres-by-plat`, `plat`, `normal`, `report`, or `joined`;
//! - the files whose bytes its two readers give; the second is not read by a call that reads one;
//! - for each of the readers, in this order: `once` or `endless`, whether it gives its file once or
//!   again and again; the most bytes that it gives a call; the call that fails, counted from 1; and
//!   the error;
//! - for the writer: how many bytes it takes in all, and the most that it takes a call; and the
//!   error with which it takes no more, and that with which it is flushed.
//!
//! An error is `interrupted`, `broken-pipe`, or `none`. The bytes that the writer takes are printed
//! as they are, and after them a line that begins with `= `: how the run ended, and how often it
//! called each reader.

mod device;
mod running;
mod words;

use device::{Reader, Writer};
use std::{fs, io};
use words::next;

/// Makes the call of each line of standard input.
pub fn run_lines(rt: &HostRuntime) -> io::Result<()> {
    for line in rt.lines(rt.alloc()) {
        run_line(rt, line?.as_str())?;
    }
    Ok(())
}

/// Makes the call of a line.
fn run_line(rt: &HostRuntime, line: &str) -> io::Result<()> {
    let mut words = line.split_whitespace();
    let call = next(&mut words);
    let notes = fs::read(rt, next(&mut words))?;
    let second = fs::read(rt, next(&mut words))?;
    let notes = Reader::of_words(notes.as_slice(), &mut words);
    let second = Reader::of_words(second.as_slice(), &mut words);
    running::run(rt, call, notes, second, Writer::of_words(rt, &mut words))
}
