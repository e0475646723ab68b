//! The phrases of a draft.

use crate::draft::{Checkpoint, Draft};
use crate::phrase::{Form, IndexRange, Phrase, PhraseKind, Placed, Role};

impl<'a> Draft<'a> {
    /// A phrase of some pieces, with what was added after a checkpoint.
    pub fn phrase(&self, kind: PhraseKind, first: usize, end: usize, from: Checkpoint) -> Phrase {
        Phrase {
            kind,
            form: Form::Plain,
            first,
            end,
            changes: IndexRange {
                first: from.changes,
                end: self.changes.len(),
            },
            steps: IndexRange {
                first: from.steps,
                end: self.steps.len(),
            },
            numbers: IndexRange {
                first: from.numbers,
                end: self.numbers.len(),
            },
        }
    }

    /// The kind of the last phrase.
    pub fn last_kind(&self) -> Option<PhraseKind> {
        match self.phrases.last() {
            Some(placed) => Some(placed.phrase.kind),
            None => None,
        }
    }

    /// Adds a phrase.
    pub fn add_phrase(&mut self, phrase: Phrase) {
        let role = match phrase.kind {
            PhraseKind::Nothing(_) => Role::LeftOut,
            _ => Role::Kept(0),
        };
        let placed = Placed {
            phrase,
            role,
            section: None,
        };
        if self.phrases.push(placed).is_err() {
            self.lacks_memory = true;
        }
    }

    /// Adds a phrase of some pieces, with what was added after a checkpoint: the index after it. The search
    /// returns only this index, since each function that passed a phrase on would clear room for it, and copy
    /// it.
    pub fn add(&mut self, kind: PhraseKind, first: usize, end: usize, from: Checkpoint) -> usize {
        let phrase = self.phrase(kind, first, end, from);
        self.add_phrase(phrase);
        end
    }

    /// Forgets the phrase that was added last.
    pub fn drop_phrase(&mut self) {
        if let Some(count) = self.phrases.len().checked_sub(1) {
            self.phrases.truncate(count);
        }
    }

    /// Notes how the phrase that was added last is written.
    pub fn note_form(&mut self, form: Form) {
        if let Some(placed) = self.phrases.last_mut() {
            placed.phrase.form = form;
        }
    }
}
