//! `except`, and words like it: `less and except`, `save and except`, `L&E`.

use crate::finder::Finder;
use twp_asides::plus;
use twp_draft::{Checkpoint, Phrase, PhraseKind, Thereof};
use twp_grammar::Kind;
use twp_rules::Rule;
use twp_words::excepts_land;

impl<'a> Finder<'a> {
    /// `except`, or words like it, at an index.
    #[inline(never)]
    pub(crate) fn except(&mut self, index: usize) -> Option<usize> {
        let from = self.draft.checkpoint();
        let pieces = &self.draft.pieces;
        let Some(end) = self.after_except(index) else {
            return None;
        };
        if pieces.is(index, b"l") {
            let start = pieces.start(index);
            let stop = pieces.end_before(end);
            self.draft.write(start, stop, b" except ", Rule::Exception);
        } else {
            self.draft.replace(index, b" except ", Rule::Exception);
            for place in plus(index, 1)..end {
                let is_mark = self.draft.pieces.is(place, b".");
                let rule = if is_mark { Rule::Mark } else { Rule::Word };
                self.draft.leave_out(place, plus(place, 1), rule);
            }
        }
        Some(self.draft.add(PhraseKind::Except, index, end, from))
    }

    /// The index after words for an exception at an index.
    pub(crate) fn after_except(&self, index: usize) -> Option<usize> {
        let pieces = &self.draft.pieces;
        let second = plus(index, 1);
        let third = plus(index, 2);
        let is_short = pieces.is(second, b"&")
            || (pieces.is(second, b"/") && pieces.is_joined(third));
        if pieces.is(index, b"l") && is_short && pieces.is(third, b"e") {
            return Some(plus(third, 1));
        }
        if (pieces.is(index, b"less") || pieces.is(index, b"save"))
            && (pieces.is(second, b"and") || pieces.is(second, b"&"))
            && (pieces.is(third, b"except") || pieces.is(third, b"excepting"))
        {
            return Some(plus(third, 1));
        }
        if excepts_land(pieces.lower(index)) {
            return Some(if self.goes_with_except(index) {
                third
            } else {
                second
            });
        }
        if pieces.is(index, b"but") {
            return if pieces.is(second, b"not") {
                Some(third)
            } else if self.is_after_all_land(index) {
                Some(second)
            } else {
                None
            };
        }
        if pieces.is(index, b"with")
            && pieces.is(second, b"the")
            && pieces.is(third, b"exception")
        {
            return Some(plus(third, 2));
        }
        None
    }

    /// Whether a word or a period follows a word for an exception at an index, and belongs to it.
    fn goes_with_except(&self, index: usize) -> bool {
        let pieces = &self.draft.pieces;
        let second = plus(index, 1);
        pieces.is(second, b"for")
            || pieces.is(second, b"therefrom")
            || pieces.is(second, b"of")
            || (pieces.is(second, b".")
                && (pieces.is(index, b"exc")
                    || pieces.is(index, b"ex")
                    || pieces.is(index, b"excl")))
    }

    /// Whether `but` at an index is after all of a section, and before land, as in `all but Lot 4`.
    fn is_after_all_land(&self, index: usize) -> bool {
        let pieces = &self.draft.pieces;
        let land = plus(index, 1);
        (pieces.follows(index, b"all") || pieces.follows(index, b"everything"))
            && (pieces.begins_part(land) || matches!(pieces.kind(land), Kind::Lot))
    }

    /// Adds to an excepted part with `thereof` after it the steps of the part from which it is excepted, as
    /// in `NW1/4, except the SW1/4 thereof`. It is doubted if that may be another.
    pub(crate) fn add_steps_of_whole(&mut self, first: usize, end: usize, from: Checkpoint) {
        let part = self.draft.phrase(PhraseKind::Part, first, end, from);
        let whole = match self.whole_before_except() {
            Whole::Section => return,
            Whole::Part(whole) => whole,
            Whole::Unsure => return self.draft.doubt(),
        };
        if self.draft.ends_with_steps_of(part, whole) {
            return self.note_thereof(part, whole);
        }
        if !self.is_surely_of(part, whole) {
            return self.draft.doubt();
        }
        let place = self.draft.pieces.end_before(end);
        for index in whole.steps.first..whole.steps.end {
            if let Some(step) = self.draft.steps.get(index).copied() {
                let rule = Rule::CopiedStep(step.start, step.end);
                self.draft.write(place, place, step.written, rule);
                self.draft.add_step(step);
            }
        }
    }

    /// Notes that a part with `thereof` may be of the section, or of the part before it. Only one such part
    /// is sure.
    fn note_thereof(&mut self, part: Phrase, whole: Phrase) {
        if self.draft.thereof.is_some() {
            self.draft.doubt();
        }
        self.draft.thereof = Some(Thereof {
            end: part.end,
            steps: whole.steps,
        });
    }

    /// The land before an exception, which is the last phrase: the only part of its section.
    fn whole_before_except(&self) -> Whole {
        let mut whole = Whole::Section;
        let mut is_first = true;
        let mut has_section = self.begins_with_section();
        for placed in self.draft.phrases.iter().rev() {
            let phrase = placed.phrase;
            match phrase.kind {
                PhraseKind::Except if is_first => is_first = false,
                PhraseKind::Nothing(_) | PhraseKind::Heading => {}
                // A section is after its land, or before it.
                PhraseKind::Sections if matches!(whole, Whole::Section) && !has_section => {
                    has_section = true;
                }
                PhraseKind::Sections => break,
                PhraseKind::Part if !is_first && matches!(whole, Whole::Section) => {
                    whole = Whole::Part(phrase);
                }
                PhraseKind::All if !is_first && matches!(whole, Whole::Section) => return whole,
                _ => return Whole::Unsure,
            }
        }
        whole
    }

    /// Whether the land of the text follows its sections.
    fn begins_with_section(&self) -> bool {
        for placed in &self.draft.phrases {
            let phrase = &placed.phrase;
            if !matches!(phrase.kind, PhraseKind::Nothing(_) | PhraseKind::Heading) {
                return phrase.kind == PhraseKind::Sections;
            }
        }
        false
    }

    /// Whether a part is surely of another, and not of the section: the part is a half, or the other has
    /// quarters alone, with the last of which the part doesn't end.
    fn is_surely_of(&self, part: Phrase, whole: Phrase) -> bool {
        let all = self.draft.steps_of(whole);
        for step in all {
            if step.written.ends_with(b"2") {
                return matches!(self.draft.steps_of(part), [half] if half.written.ends_with(b"2"));
            }
        }
        match (self.draft.steps_of(part), all) {
            ([_], _) => true,
            ([.., one], [.., other]) => one.written != other.written,
            _ => false,
        }
    }
}

/// The land from which something is excepted.
#[derive(Clone, Copy)]
enum Whole {
    /// A section.
    Section,
    /// An aliquot part.
    Part(Phrase),
    /// Several, or it isn't sure.
    Unsure,
}
