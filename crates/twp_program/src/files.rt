//! The files that a task names, opened; their names; and a copy of the bytes that are read from them.
ghost use Rattle.std.specs.Prelude.{◌≡◌, IfErr, IfOk, IfSome, false, ◌++◌};
ghost use Rattle.twp_grid.specs.Devices.{device_failed};
ghost use Rattle.twp_program.specs.KeptBytes.{copy_of, inner_source};
ghost use Rattle.twp_program.specs.ShownExplanations.{IsFile};

use crate::program::Failure;
use std::alloc::{AllocError, Global};
use std::marker::Model;
use std::rt::Files;
use std::{fmt, fs};
use twp_diagnose::Given;
use twp_grid::{Device, DeviceFault, Source};

/// Field notes, opened. The two files of a task have different types, so that no call can mistake
/// one for the other.
#[derive(Drop)]
pub(crate) struct OpenedNotes<S> {
    pub(crate) name: Name,
    pub(crate) source: S,
}

/// The second file of a task, a description or a list of tracts, opened.
#[derive(Drop)]
pub(crate) struct OpenedText<S> {
    pub(crate) name: Name,
    pub(crate) source: S,
}

/// Opens the file of the notes.
pub(crate) fn open_notes<R: Files + AllocGlobal>(
    rt: &R,
    name: Name,
) -> Result<OpenedNotes<Kept<Device<R::File>>>, Failure>
    ensures open { IfOk result (λ notes. device_failed (inner_source notes.source) ≡ false) }
    ensures names { IfErr result (λ failure. failure ≡ Failure.Open name) }
{
    match open(rt, &name) {
        Some(source) => Ok(OpenedNotes { name, source }),
        None => Err(Failure::Open { name }),
    }
}

/// Opens the file of a description or of a list of tracts.
pub(crate) fn open_text<R: Files + AllocGlobal>(
    rt: &R,
    name: Name,
) -> Result<OpenedText<Kept<Device<R::File>>>, Failure>
    ensures open { IfOk result (λ text. device_failed (inner_source text.source) ≡ false) }
    ensures names { IfErr result (λ failure. failure ≡ Failure.Open name) }
{
    match open(rt, &name) {
        Some(source) => Ok(OpenedText { name, source }),
        None => Err(Failure::Open { name }),
    }
}

/// Opens a file to read it, and to keep the bytes that are read. `None` if it cannot be opened.
fn open<R: Files + AllocGlobal>(rt: &R, name: &Name) -> Option<Kept<Device<R::File>>>
    ensures { IfSome result (λ file. device_failed (inner_source file) ≡ false) }
{
    match fs::open(rt, name.text()) {
        Ok(file) => Some(Kept::new(rt.alloc(), Device::new(file))),
        Err(_) => None,
    }
}

impl<S> OpenedNotes<Kept<S>> {
    /// The bytes that were read from the notes, unless memory to keep them ran out.
    pub(crate) fn given(&self) -> Option<Given<'_>>
        ensures { IfSome result (IsFile self.now.name (copy_of self.now.source)) }
    {
        given(&self.name, &self.source)
    }
}

impl<S> OpenedText<Kept<S>> {
    /// The bytes that were read from the text, unless memory to keep them ran out.
    pub(crate) fn given(&self) -> Option<Given<'_>>
        ensures { IfSome result (IsFile self.now.name (copy_of self.now.source)) }
    {
        given(&self.name, &self.source)
    }
}

/// The bytes that were read from a file, which begin with its first line.
fn given<'a, S>(name: &'a Name, source: &'a Kept<S>) -> Option<Given<'a>>
    ensures { IfSome result (IsFile name.now (copy_of source.now)) }
{
    let bytes = source.kept()?;
    Some(Given {
        name: name.text(),
        bytes,
        first_line: 1,
    })
}

/// The name of a file, as it is given in a word of the command line: any text, including the empty
/// one.
#[derive(Debug, Drop)]
pub struct Name {
    text: String,
}

impl Model for Name {
    ghost use Rattle.std.specs.Prelude.{ℕ, List, string_bytes};

    ghost Value = { List ℕ };

    ghost view = { λ name. string_bytes name.text };
}

impl Name {
    ghost use Rattle.std.specs.Prelude.{◌≡◌, IfOk};

    /// The name that is written like this.
    pub(crate) fn new(alloc: Global, text: &str) -> Result<Name, AllocError>
        ensures { IfOk result (λ name. name ≡ text.now) }
    {
        let text = String::from_str(alloc, text)?;
        Ok(Name { text })
    }

    /// The name as text.
    pub fn text(&self) -> &str
        ensures { result.now ≡ self.now }
    {
        self.text.as_str()
    }
}

impl fmt::Display for Name {
    fn fmt<W: fmt::Write>(&self, f: &mut fmt::Formatter<W>) -> fmt::Result {
        f.write_str(self.text())
    }
}

/// How many bytes to reserve for a copy at the start, because growing copies them once more. With
/// this many, the host maps them beside the heap, where they grow without being copied.
const ROOM: usize = 131_072;

/// How many bytes are added to a copy at once. So few are moved by wide loads, and many more would
/// be moved a byte at a time.
const PIECE: usize = 4_000;

/// A source that keeps a copy of the bytes that it gives, because some files can be read only once.
/// If memory for the copy runs out, the copy is dropped, and the source gives its bytes as before.
#[derive(Drop)]
pub struct Kept<S> {
    source: S,
    copy: Option<Vec<u8>>,
}

impl<S> Kept<S> {
    ghost use Rattle.std.specs.Prelude.{[], Some, option_map};
    ghost use Rattle.twp_program.specs.KeptBytes.{copy_of, inner_source, GrowsOrIsLost};

    /// A source that gives the bytes of another, and has kept nothing yet.
    pub fn new(alloc: Global, source: S) -> Kept<S>
        ensures source { inner_source result ≡ source }
        ensures copy { GrowsOrIsLost (Some []) (copy_of result) [] }
    {
        Kept {
            source,
            copy: Vec::with_capacity(alloc, ROOM).ok(),
        }
    }

    /// The bytes given so far, unless memory for them ran out.
    pub fn kept(&self) -> Option<&[u8]>
        ensures { option_map (λ bytes. bytes.now) result ≡ copy_of self.now }
    {
        match &self.copy {
            Some(copy) => Some(copy.as_slice()),
            None => None,
        }
    }

    /// Adds the given bytes to the copy.
    fn keep(&mut self, bytes: &[u8])
        ensures source { inner_source self.new ≡ inner_source self.old }
        ensures copy { GrowsOrIsLost (copy_of self.old) (copy_of self.new) bytes.now }
    {
        let Some(copy) = &mut self.copy else { return };
        if add(copy, bytes).is_err() {
            self.copy = None;
        }
    }
}

/// Adds bytes to a copy, piece by piece.
fn add(copy: &mut Vec<u8>, bytes: &[u8]) -> Result<(), AllocError>
    ensures { IfOk result (λ _. copy.new.items ≡ copy.old.items ++ bytes.now) }
{
    let mut at = 0;
    'pieces: while at < bytes.len() {
        let end = bytes.len().min(at.saturating_add(PIECE));
        copy.extend_from_slice(&bytes[at..end])?;
        at = end;
    }
    Ok(())
}

impl<S: Source> Source for Kept<S> {
    ghost use Rattle.std.specs.Prelude.{◌≤◌, false, length, take, IfOk, MatchResult, is_err};
    ghost use Rattle.std.specs.Io.KnownBytes.{ReadConsumes};
    ghost use Rattle.twp_program.specs.KeptBytes.{copy_of, inner_source, GrowsOrIsLost};

    ghost remaining = { λ kept. S.remaining (inner_source kept) };

    ghost has_failed = { λ kept. S.has_failed (inner_source kept) };

    fn fill(&mut self, buffer: &mut [u8]) -> Result<usize, DeviceFault>
        requires { S.has_failed (inner_source self.old) ≡ false }
        ensures within { IfOk result (λ n. n ≤ length buffer.new) }
        ensures bytes { ReadConsumes (S.remaining (inner_source self.old))
            (S.remaining (inner_source self.new)) result buffer.new }
        ensures fails { S.has_failed (inner_source self.new) ≡ is_err result }
        ensures kept { MatchResult result
            (λ n. GrowsOrIsLost (copy_of self.old) (copy_of self.new) (take n buffer.new))
            (λ _. copy_of self.new ≡ copy_of self.old) }
    {
        let count = self.source.fill(buffer)?;
        self.keep(&buffer[..count]);
        Ok(count)
    }

    fn failed(&self) -> bool {
        self.source.failed()
    }
}
