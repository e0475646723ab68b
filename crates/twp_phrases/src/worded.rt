//! Sides and corners in words: `North Half`, `North East Quarter`, `Southwest one-quarter`.

use crate::finder::Finder;
use crate::fractions::rule_of;
use twp_asides::{letters_of, plus};
use twp_grammar::Kind;
use twp_rules::Rule;
use twp_words::{Size, written_step};

/// A side or a corner in words.
#[derive(Clone, Copy)]
struct Direction {
    letters: &'static [u8],
    /// The index of the second word, if it is in two.
    second: Option<usize>,
    /// The index after it.
    end: usize,
}

impl<'a> Finder<'a> {
    /// The step in words at an index.
    pub(crate) fn step_in_words(&mut self, index: usize) -> Option<usize> {
        let direction = self.direction_in_words(index)?;
        let size = if direction.letters.len() == 1 {
            Size::Half
        } else {
            Size::Quarter
        };
        let start = self.draft.pieces.start(index);
        let written = written_step(direction.letters);
        let checkpoint = self.draft.checkpoint();
        self.write_letters(index, &direction);
        if let Some(stop) = self.fraction(direction.end, size) {
            self.push_step(start, stop, written);
            return Some(stop);
        }
        let word = self.after_one(direction.end);
        if !size.is_word(self.draft.pieces.lower(word)) {
            self.draft.shrink(checkpoint);
            return None;
        }
        let end = self.draft.pieces.end_before(direction.end);
        let stop = self.draft.pieces.end(word);
        self.draft.write(end, stop, size.fraction(), rule_of(size));
        self.push_step_to(start, stop, written);
        Some(plus(word, 1))
    }

    /// The side or the corner at an index, in a word or in two, as in `north east`.
    fn direction_in_words(&self, index: usize) -> Option<Direction> {
        let pieces = &self.draft.pieces;
        let next = plus(index, 1);
        if let Some(letters) = self.short_side(index) {
            return Some(Direction {
                letters,
                second: None,
                end: plus(next, 1),
            });
        }
        let letters = letters_of(pieces.lower(index))?;
        let second = plus(next, usize::from(pieces.is(next, b"-")));
        let is_two = (pieces.is(index, b"north") || pieces.is(index, b"south"))
            && pieces.is_second_word(second);
        if !is_two {
            return Some(Direction {
                letters,
                second: None,
                end: next,
            });
        }
        Some(Direction {
            letters: self.corner_in_words(index, second),
            second: Some(second),
            end: plus(second, 1),
        })
    }

    /// The letter of an abbreviation with a period for a side at an index, as in `No. half`.
    fn short_side(&self, index: usize) -> Option<&'static [u8]> {
        let pieces = &self.draft.pieces;
        let stop = plus(index, 1);
        let half = plus(stop, 1);
        let is_half = matches!(pieces.kind(half), Kind::Half) || pieces.is(half, b"half");
        if !pieces.is(stop, b".") || !pieces.is_joined(stop) || !is_half {
            return None;
        }
        if pieces.is(index, b"no") {
            return Some(b"N");
        }
        if pieces.is(index, b"so") {
            return Some(b"S");
        }
        None
    }

    /// Writes the letters of a side or a corner.
    fn write_letters(&mut self, index: usize, direction: &Direction) {
        let pieces = &self.draft.pieces;
        let (start, end) = (pieces.start(index), pieces.end(index));
        let Some(second) = direction.second else {
            let stop = pieces.end_before(direction.end);
            return self
                .draft
                .write(start, stop, direction.letters, Rule::Direction);
        };
        let second_start = pieces.start(second);
        self.write_direction(index);
        self.leave_out_bytes(end, second_start);
        self.write_direction(second);
    }

    /// The index of the word for a fraction, after `one` and a hyphen.
    fn after_one(&self, index: usize) -> usize {
        let pieces = &self.draft.pieces;
        if !pieces.is(index, b"one") {
            return index;
        }
        let next = plus(index, 1);
        plus(next, usize::from(pieces.is(next, b"-")))
    }

    /// Writes the letter of the word for a side at an index.
    fn write_direction(&mut self, index: usize) {
        let letters = letters_of(self.draft.pieces.lower(index)).unwrap_or(b"");
        self.draft.replace(index, letters, Rule::Direction)
    }

    /// The letters of the corner that two words name.
    fn corner_in_words(&self, index: usize, second: usize) -> &'static [u8] {
        let pieces = &self.draft.pieces;
        match (pieces.is(index, b"north"), pieces.is(second, b"east")) {
            (true, true) => b"NE",
            (true, false) => b"NW",
            (false, true) => b"SE",
            (false, false) => b"SW",
        }
    }
}
