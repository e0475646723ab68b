//! Why descriptions have no reading. Each description is on a line, with the escapes of `readings`. For each
//! without a reading, a line with its number is printed, and what would help an examiner: each unread run,
//! each ambiguous phrase with its two ways, and the phrase that lots and aliquot parts can't describe, with
//! the reason.
use crate::readings::{print_escaped, read_input, without_escapes};
use bstr::ByteSlice;
use std::io;
use twp_land::StandardLots;
use twp_phrases::{Phrases, unread_in};
use twp_suggest::{beyond_of, readings_of};

/// Prints why the description on each line of standard input has no reading, if it has none.
pub fn read_lines(rt: &HostRuntime) -> io::Result<()> {
    let input = read_input(rt)?;
    for (index, line) in input.as_slice().lines_with_terminator().enumerate() {
        if let [line @ .., b'\n'] = line {
            let text = without_escapes(rt.alloc(), line)?;
            let readings = readings_of::<Phrases, StandardLots>(
                rt.alloc(),
                text.as_slice(),
                &StandardLots,
            )?;
            if readings.is_empty() {
                rt.println(index.saturating_add(1))?;
                print_unread(rt, text.as_slice())?;
            }
        }
    }
    Ok(())
}

/// Prints what is unread of a description, and what of it is ambiguous or can't be described.
fn print_unread(rt: &HostRuntime, text: &[u8]) -> io::Result<()> {
    let unread = unread_in(rt.alloc(), text)?;
    for run in &unread.runs {
        print!(rt; "  unread ")?;
        print_escaped(rt, text.get(run.start..run.end).unwrap_or(b""))?;
    }
    for phrase in &unread.ambiguous {
        print!(rt; "  ambiguous {} ", phrase.ambiguity.words())?;
        print_escaped(
            rt,
            text.get(phrase.place.start..phrase.place.end)
                .unwrap_or(b""),
        )?;
    }
    if let Some(beyond) = beyond_of(rt.alloc(), text)? {
        print!(rt; "  beyond {} ", beyond.reason)?;
        print_escaped(rt, text.get(beyond.start..beyond.end).unwrap_or(b""))?;
    }
    Ok(())
}
