//! The readings of descriptions. Each description is on a line, with `\n` for a line feed and `\t` for a
//! tab. For each, a line with the number of its readings is printed, and each reading: its text on a
//! line, and a line for each of its assumptions.

use bstr::ByteSlice;
use std::alloc::{AllocError, Global};
use std::io::{self, Read};
use twp_excerpt::write_escaped;
use twp_land::StandardLots;
use twp_phrases::Phrases;
use twp_suggest::{Assumption, Change, Reading, assumption_of, phrase_of, readings_of};

/// Prints the readings of the description on each line of standard input.
pub fn read_lines(rt: &HostRuntime) -> io::Result<()> {
    let input = read_input(rt)?;
    print_each(rt, input.as_slice())
}

/// Prints the readings of the description on each line.
pub fn print_each(rt: &HostRuntime, lines: &[u8]) -> io::Result<()> {
    for line in lines.lines_with_terminator() {
        if let [line @ .., b'\n'] = line {
            let text = without_escapes(rt.alloc(), line)?;
            print_readings(rt, text.as_slice())?;
        }
    }
    Ok(())
}

/// The text of a line, with a line feed for `\n` and a tab for `\t`.
pub fn without_escapes(alloc: Global, line: &[u8]) -> Result<Vec<u8>, AllocError> {
    let mut text = Vec::with_capacity(alloc, line.len())?;
    if line.find_byte(b'\\').is_none() {
        text.extend_from_slice(line)?;
        return Ok(text);
    }
    let mut is_escape = false;
    for byte in line {
        match *byte {
            b'n' if is_escape => text.push(b'\n')?,
            b't' if is_escape => text.push(b'\t')?,
            b'\\' if !is_escape => {}
            other => {
                if is_escape {
                    text.push(b'\\')?;
                }
                text.push(other)?;
            }
        }
        is_escape = *byte == b'\\' && !is_escape;
    }
    Ok(text)
}

/// The bytes of standard input, at most 4 MiB.
pub fn read_input(rt: &HostRuntime) -> io::Result<Vec<u8>> {
    let mut input = Vec::new(rt.alloc());
    let mut reader = rt.reader();
    let mut piece = [0; 4_096];
    for _ in 0..1_024 {
        let count = reader.read(&mut piece)?;
        if count == 0 {
            break;
        }
        input.extend_from_slice(&piece[..count])?;
    }
    Ok(input)
}

/// The readings of a description: a function of its own, so that bench/readings.sh can count what it takes.
#[inline(never)]
fn read_text(alloc: Global, text: &[u8]) -> Result<Vec<Reading<'_>>, AllocError> {
    readings_of::<Phrases, StandardLots>(alloc, text, &StandardLots)
}

/// Prints the readings of a description.
fn print_readings(rt: &HostRuntime, text: &[u8]) -> io::Result<()> {
    let readings = read_text(rt.alloc(), text)?;
    rt.println(readings.len())?;
    for reading in readings.as_slice() {
        print_escaped(rt, reading.text.as_slice().trim_ascii())?;
        print_assumptions(rt, text, reading.changes.as_slice())?;
    }
    Ok(())
}

/// Prints what changes assume, each phrase once for an assumption.
fn print_assumptions(rt: &HostRuntime, text: &[u8], changes: &[Change<'_>]) -> io::Result<()> {
    for (index, change) in changes.iter().enumerate() {
        if let Some(assumption) = assumption_of(text, change) {
            let phrase = phrase_of(text, change).trim_ascii();
            let earlier = changes.get(..index).unwrap_or(&[]);
            if !is_said(text, earlier, assumption, phrase) {
                print_assumption(rt, assumption, phrase)?;
            }
        }
    }
    Ok(())
}

/// Whether some changes assume this of the same phrase.
fn is_said(text: &[u8], changes: &[Change<'_>], assumption: Assumption, phrase: &[u8]) -> bool {
    for change in changes {
        if assumption_of(text, change) == Some(assumption)
            && phrase_of(text, change).trim_ascii() == phrase
        {
            return true;
        }
    }
    false
}

/// Prints an assumption, and the phrase that it is about.
fn print_assumption(rt: &HostRuntime, assumption: Assumption, phrase: &[u8]) -> io::Result<()> {
    let mut shown = String::new(rt.alloc());
    write_escaped(phrase, &mut shown)?;
    let (words, shown) = (assumption.words(), shown.as_str());
    if assumption.is_of_left_out() {
        println!(rt; "  without `{shown}`: {words}")
    } else {
        println!(rt; "  `{shown}`: {words}")
    }
}

/// Prints a text on a line. Most are printed as they are.
pub fn print_escaped(rt: &HostRuntime, text: &[u8]) -> io::Result<()> {
    if text
        .iter()
        .all(|byte| matches!(*byte, b' '..=b'[' | b']'..=b'~'))
    {
        if let Ok(shown) = str::from_utf8(text) {
            return rt.println(shown);
        }
    }
    let mut shown = String::new(rt.alloc());
    write_escaped(text, &mut shown)?;
    rt.println(shown.as_str())
}
