//! What phrases of a text say again, as in parentheses.

use crate::draft::{Checkpoint, Draft};
use crate::phrase::IndexRange;
use std::alloc::Global;
use std::mem;
use twp_rules::Change;

/// Land that is repeated, as in parentheses: the bytes of the text that name it.
#[derive(Clone, Copy)]
pub struct Said {
    /// Where they begin.
    pub start: usize,
    /// Where they end.
    pub end: usize,
    /// The changes in them, among those of what is said again.
    pub changes: IndexRange,
}

/// What phrases of a text say again.
#[derive(Drop)]
pub struct Again<'a> {
    pub said: Vec<Said>,
    /// The changes in it, whose places are counted from where it begins.
    pub changes: Vec<Change<'a>>,
}

impl<'a> Draft<'a> {
    /// Notes that some pieces say land again, with the changes that were added after a checkpoint.
    pub fn add_said(&mut self, first: usize, end: usize, from: Checkpoint) {
        let start = self.pieces.start(first);
        let before = self.again.changes.len();
        for index in from.changes..self.changes.len() {
            if let Some(change) = self.changes.get(index).copied() {
                self.add_said_change(change, start);
            }
        }
        let said = Said {
            start,
            end: self.pieces.end_before(end),
            changes: IndexRange {
                first: before,
                end: self.again.changes.len(),
            },
        };
        if self.again.said.push(said).is_err() {
            self.lacks_memory = true;
        }
    }

    /// Takes the repetitions out of the draft.
    pub fn take_again(&mut self, alloc: Global) -> Again<'a> {
        let nothing = Again {
            said: Vec::new(alloc),
            changes: Vec::new(alloc),
        };
        mem::replace(&mut self.again, nothing)
    }

    /// Adds a change in what is said again, which begins at a place. If the change is before it, the text
    /// isn't sure.
    fn add_said_change(&mut self, change: Change<'a>, place: usize) {
        let (Some(start), Some(end)) = (
            change.start.checked_sub(place),
            change.end.checked_sub(place),
        ) else {
            return self.doubt();
        };
        if self
            .again
            .changes
            .push(Change {
                start,
                end,
                ..change
            })
            .is_err()
        {
            self.lacks_memory = true;
        }
    }
}
