//! Calls that write into a vector, which is printed as they leave it.

use crate::single::showing::{ANSWERED, OUT_OF_MEMORY, explain, start};
use std::alloc::AllocError;
use std::{fs, io};
use twp_grid::Bytes;
use twp_measure::{Length, write_acres};
use twp_notes::Notes;

/// The contents of the vector before the call.
const HELD: &[u8] = b"held: ";

/// Makes a call that writes into a vector, if there is one with this name, and returns whether there
/// is. The vector contains some bytes, and has room for a number of others. If the input is not
/// valid, prints why.
pub fn write(rt: &HostRuntime, call: &str, input: &str, room: &str) -> io::Result<bool> {
    let Ok(room) = room.parse::<u8>() else {
        return Ok(false);
    };
    match call {
        "write-acres" => write_hundredths(rt, input, room)?,
        "write-length" => write_length(rt, input, room)?,
        "write-notes" => write_notes(rt, input, room)?,
        _ => return Ok(false),
    }
    Ok(true)
}

/// Writes a number of hundredths of an acre.
fn write_hundredths(rt: &HostRuntime, input: &str, room: u8) -> io::Result<()> {
    let Ok(hundredths) = input.parse::<u64>() else {
        return rt.println("no hundredths");
    };
    let mut vector = held(rt, room)?;
    start(rt)?;
    let outcome = write_acres(hundredths, &mut vector);
    tell_left(rt, outcome, vector)
}

/// Writes a length.
fn write_length(rt: &HostRuntime, input: &str, room: u8) -> io::Result<()> {
    let length = match Length::read(input.as_bytes()) {
        Ok(length) => length,
        Err(fault) => return rt.println(fault),
    };
    let mut vector = held(rt, room)?;
    start(rt)?;
    let outcome = length.write(&mut vector);
    tell_left(rt, outcome, vector)
}

/// Writes the field notes of a file.
fn write_notes(rt: &HostRuntime, file: &str, room: u8) -> io::Result<()> {
    let text = fs::read(rt, file)?;
    let notes = match Notes::read(rt.alloc(), &mut Bytes::new(text.as_slice())) {
        Ok(notes) => notes,
        Err(fault) => return rt.println(fault),
    };
    let mut vector = held(rt, room)?;
    start(rt)?;
    let outcome = notes.write(&mut vector);
    tell_left(rt, outcome, vector)
}

/// The vector before a call.
fn held(rt: &HostRuntime, room: u8) -> io::Result<Vec<u8>> {
    let mut vector = Vec::with_capacity(rt.alloc(), HELD.len() + usize::from(room))?;
    vector.extend_from_slice(HELD)?;
    Ok(vector)
}

/// Prints how a call ended, and what it left in the vector.
fn tell_left(rt: &HostRuntime, outcome: Result<(), AllocError>, vector: Vec<u8>) -> io::Result<()> {
    let answer = match outcome {
        Ok(()) => ANSWERED,
        Err(_) => OUT_OF_MEMORY,
    };
    explain(rt, answer, vector.as_slice())
}
