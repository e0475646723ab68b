//! Calls that make a value, which is printed as its text.

use crate::single::showing::{ANSWERED, start};
use std::io;
use std::io::Write;
use twp_grid::Bytes;
use twp_notes::Notes;
use twp_read::Description;

/// Reads field notes, and prints them as they are written, or why they are not valid.
pub fn read_notes(rt: &HostRuntime, text: &[u8]) -> io::Result<()> {
    start(rt)?;
    match Notes::read(rt.alloc(), &mut Bytes::new(text)) {
        Ok(notes) => {
            rt.println(ANSWERED)?;
            let mut written = Vec::new(rt.alloc());
            notes.write(&mut written)?;
            io::writer(rt).write_all(written.as_slice())
        }
        Err(fault) => rt.println(fault),
    }
}

/// Reads a description, and prints how many items it has, or why it is not valid.
pub fn read_description(rt: &HostRuntime, text: &[u8]) -> io::Result<()> {
    start(rt)?;
    match Description::read(rt.alloc(), text) {
        Ok(description) => {
            rt.println(ANSWERED)?;
            rt.println(description.items().len())
        }
        Err(fault) => rt.println(fault),
    }
}
