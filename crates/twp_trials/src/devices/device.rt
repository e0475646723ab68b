//! Readers and writers that fail at a call, and give or take a few bytes a call. As a `Device`,
//! each is a source or a sink whose bytes are not known.

use crate::devices::words::{error, next, number};
use std::io;
use std::io::{Error, ErrorKind, Read, Write};
use std::str::SplitWhitespace;

/// Gives bytes, and counts its calls.
#[derive(Drop)]
pub struct Reader<'a> {
    /// The bytes that are still to be given.
    bytes: &'a [u8],
    /// The bytes that are given after these, again and again, if there are any.
    again: &'a [u8],
    /// The most bytes that it gives a call.
    most: usize,
    /// The call that fails, counted from 1. A reader that is called again continues as if nothing
    /// had happened.
    failing: usize,
    /// How it fails. `None` means that it gives no byte, which is not an error.
    error: Option<ErrorKind>,
    pub calls: usize,
}

impl<'a> Reader<'a> {
    /// Gives a text as the next words say.
    pub fn of_words(text: &'a [u8], words: &mut SplitWhitespace) -> Reader<'a> {
        Reader {
            bytes: text,
            again: if next(words) == "endless" { text } else { b"" },
            most: number(words),
            failing: number(words),
            error: error(words),
            calls: 0,
        }
    }
}

impl Read for Reader<'_> {
    fn read(&mut self, buf: &mut [u8]) -> io::Result<usize> {
        self.calls = self.calls.saturating_add(1);
        if self.calls == self.failing {
            fail(self.error)?;
            return Ok(0);
        }
        let count = buf.len().min(self.most).min(self.bytes.len());
        let (front, rest) = self.bytes.split_at(count);
        buf[..count].copy_from_slice(front);
        self.bytes = if rest.is_empty() { self.again } else { rest };
        Ok(count)
    }
}

/// Takes bytes, and prints them.
#[derive(Drop)]
pub struct Writer<'a> {
    rt: &'a HostRuntime,
    /// How many more bytes it takes.
    room: usize,
    /// The most bytes that it takes a call.
    most: usize,
    /// How it fails when there is no room. `None` means that it takes no byte, which is not an
    /// error.
    full: Option<ErrorKind>,
    /// How it fails when it is flushed, if it does.
    flushed: Option<ErrorKind>,
}

impl<'a> Writer<'a> {
    /// Takes bytes as the next words say.
    pub fn of_words(rt: &'a HostRuntime, words: &mut SplitWhitespace) -> Writer<'a> {
        Writer {
            rt,
            room: number(words),
            most: number(words),
            full: error(words),
            flushed: error(words),
        }
    }
}

impl Write for Writer<'_> {
    fn write(&mut self, buf: &[u8]) -> io::Result<usize> {
        if self.room == 0 && !buf.is_empty() {
            fail(self.full)?;
            return Ok(0);
        }
        let count = buf.len().min(self.most).min(self.room);
        io::writer(self.rt).write_all(&buf[..count])?;
        self.room -= count;
        Ok(count)
    }

    fn flush(&mut self) -> io::Result<()> {
        fail(self.flushed)
    }
}

/// Fails, if there is an error.
fn fail(error: Option<ErrorKind>) -> io::Result<()> {
    match error {
        Some(kind) => Err(Error::from(kind)),
        None => Ok(()),
    }
}
