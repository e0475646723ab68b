//! One call that allocates memory, on an input whose answer is known: it prints the answer, and the
//! bytes that the call left.
//!
//! Everything that a call needs is made before the line `calling` is written, and its answer is
//! written as soon as it is known. So any growth between the process's first write and its second
//! is due to the call.

mod explaining;
mod reading;
mod showing;
mod spelling;
mod writing;

use std::{fs, io};
pub use writing::write;

/// Makes a call that reads a file, if there is one with this name, and returns whether there is.
pub fn read(rt: &HostRuntime, call: &str, file: &str) -> io::Result<bool> {
    let text = fs::read(rt, file)?;
    match call {
        "read-notes" => reading::read_notes(rt, text.as_slice())?,
        "read-description" => reading::read_description(rt, text.as_slice())?,
        "spell" => spelling::spell_land(rt, text.as_slice())?,
        "explain-lots" => explaining::explain_table(rt, text.as_slice())?,
        _ => return Ok(false),
    }
    Ok(true)
}
