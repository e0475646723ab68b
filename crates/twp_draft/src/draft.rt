//! A draft: the phrases that were found in a text so far, and the changes in them.

use crate::again::Again;
use crate::numerals::WrittenNumber;
use crate::phrase::{IndexRange, Placed};
use crate::steps::{PlacedStep, Thereof};
use std::alloc::{AllocError, Global};
use twp_asides::{Pieces, plus};
use twp_rules::{Change, Rule};

/// What the search has to know of the last phrase that names sections.
#[derive(Clone, Copy)]
pub struct LastSection {
    /// The index of its first piece.
    pub first: usize,
    pub numbers: IndexRange,
}

/// The phrases of a text so far.
#[derive(Drop)]
pub struct Draft<'a> {
    pub pieces: Pieces<'a>,
    /// The phrases from left to right. What becomes of each is settled when all of them are known.
    pub phrases: Vec<Placed>,
    /// The changes in them. One by which white space within a part is left out may be of several bytes, each
    /// of which is to be left out by a change of its own.
    pub changes: Vec<Change<'a>>,
    pub steps: Vec<PlacedStep>,
    pub numbers: Vec<WrittenNumber>,
    /// What is said again.
    pub again: Again<'a>,
    /// For each part that is called fractional, and so has to include lots, the index after it.
    pub fractional: Vec<usize>,
    /// An excepted part that may be of the section, or of the part before it.
    pub thereof: Option<Thereof>,
    /// The last section, or sections, that were found.
    pub last_section: Option<LastSection>,
    /// Whether text was left out as a remark.
    pub has_remark: bool,
    /// Whether something was found that makes the text unsure, or that isn't land.
    pub is_unsure: bool,
    /// Whether memory was refused for something, which is then missing.
    pub(crate) lacks_memory: bool,
}

/// There is room from the start for this many phrases, changes, steps, and numbers: most texts have fewer.
const PHRASES_FIRST: usize = 8;

const CHANGES_FIRST: usize = 16;

const STEPS_FIRST: usize = 8;

const NUMBERS_FIRST: usize = 8;

/// How many changes, steps, and numbers a draft had at a point to which it can be shrunk.
#[derive(Clone, Copy)]
pub struct Checkpoint {
    pub(crate) changes: usize,
    pub(crate) steps: usize,
    pub(crate) numbers: usize,
}

impl Checkpoint {
    /// How many more steps there are than there were.
    pub fn steps_after(self, from: Checkpoint) -> usize {
        self.steps.saturating_sub(from.steps)
    }
}

impl<'a> Draft<'a> {
    /// The draft of a text that isn't cut into pieces yet, so that no memory is needed.
    pub fn new(alloc: Global, text: &'a [u8]) -> Draft<'a> {
        Draft {
            pieces: Pieces::uncut(alloc, text),
            phrases: Vec::new(alloc),
            changes: Vec::new(alloc),
            steps: Vec::new(alloc),
            numbers: Vec::new(alloc),
            again: Again {
                said: Vec::new(alloc),
                changes: Vec::new(alloc),
            },
            fractional: Vec::new(alloc),
            thereof: None,
            last_section: None,
            has_remark: false,
            is_unsure: false,
            lacks_memory: false,
        }
    }

    /// Cuts the text into pieces, and makes room for what is found in most texts.
    pub fn begin(&mut self) -> Result<(), AllocError> {
        self.pieces.cut()?;
        self.phrases.reserve(PHRASES_FIRST)?;
        self.changes.reserve(CHANGES_FIRST)?;
        self.steps.reserve(STEPS_FIRST)?;
        self.numbers.reserve(NUMBERS_FIRST)
    }

    /// A checkpoint at what there is now.
    pub fn checkpoint(&self) -> Checkpoint {
        Checkpoint {
            changes: self.changes.len(),
            steps: self.steps.len(),
            numbers: self.numbers.len(),
        }
    }

    /// Forgets what was added after a checkpoint.
    pub fn shrink(&mut self, checkpoint: Checkpoint) {
        self.changes.truncate(checkpoint.changes);
        self.steps.truncate(checkpoint.steps);
        self.numbers.truncate(checkpoint.numbers);
    }

    /// Forgets the changes that were added after a checkpoint.
    pub fn shrink_changes(&mut self, checkpoint: Checkpoint) {
        self.changes.truncate(checkpoint.changes);
    }

    /// Fails if memory was refused for something that was to be added. A single addition doesn't fail: the
    /// search for phrases continues without what is missing, and its caller checks once at the end.
    pub fn all_added(&self) -> Result<(), AllocError> {
        if self.lacks_memory {
            return Err(AllocError);
        }
        Ok(())
    }

    /// Adds a change.
    fn add_change(&mut self, change: Change<'a>) {
        if self.changes.push(change).is_err() {
            self.lacks_memory = true;
        }
    }

    /// Adds a step of an aliquot part.
    pub fn add_step(&mut self, step: PlacedStep) {
        if self.steps.push(step).is_err() {
            self.lacks_memory = true;
        }
    }

    /// Adds a number.
    pub fn add_number(&mut self, number: WrittenNumber) {
        if self.numbers.push(number).is_err() {
            self.lacks_memory = true;
        }
    }

    /// Adds the index after a part that is called fractional.
    pub fn add_fractional(&mut self, index: usize) {
        if self.fractional.push(index).is_err() {
            self.lacks_memory = true;
        }
    }

    /// Writes something instead of the bytes from one place up to another.
    pub fn write(&mut self, start: usize, end: usize, written: &'static [u8], rule: Rule) {
        self.add_change(Change {
            start,
            end,
            written,
            rule,
        });
    }

    /// Writes bytes of the text, from one place up to another, at a place where they aren't. If the text has
    /// no such bytes, it isn't sure.
    pub(crate) fn copy(&mut self, place: usize, from: usize, to: usize) {
        let Some(written) = self.pieces.text.get(from..to) else {
            return self.doubt();
        };
        self.add_change(Change {
            start: place,
            end: place,
            written,
            rule: Rule::Copied(from, to),
        });
    }

    /// Writes something instead of a piece.
    pub fn replace(&mut self, index: usize, written: &'static [u8], rule: Rule) {
        let pieces = &self.pieces;
        let start = pieces.start(index);
        let end = pieces.end(index);
        self.write(start, end, written, rule)
    }

    /// Leaves out the pieces from one index up to another.
    pub fn leave_out(&mut self, first: usize, end: usize, rule: Rule) {
        let pieces = &self.pieces;
        let start = pieces.start(first);
        let stop = pieces.end_before(end);
        self.write(start, stop, b"", rule)
    }

    /// Leaves out so many bytes at the beginning of a piece, or all of it if it has no more.
    pub fn leave_out_front(&mut self, index: usize, count: usize, rule: Rule) {
        let (start, end) = (self.pieces.start(index), self.pieces.end(index));
        if start <= end {
            let place = start + count.min(end - start);
            self.write(start, place, b"", rule);
        }
    }

    /// Leaves out the last byte of a piece.
    pub fn leave_out_last(&mut self, index: usize, rule: Rule) {
        let (start, end) = (self.pieces.start(index), self.pieces.end(index));
        if start < end {
            self.write(end - 1, end, b"", rule);
        }
    }

    /// Leaves out each piece from one index up to another.
    pub fn leave_out_each(&mut self, first: usize, end: usize, rule: Rule) {
        for index in first..end {
            self.leave_out(index, plus(index, 1), rule);
        }
    }

    /// Notes that the text isn't sure.
    pub fn doubt(&mut self) {
        self.is_unsure = true;
    }
}
