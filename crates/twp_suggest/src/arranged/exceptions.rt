//! Land that is excepted from one of several parts, as in `S/2, NW/4 less SW/4`.

use crate::arranged::plan::Plan;
use twp_asides::plus;
use twp_draft::{Form, Phrase, PhraseKind, Placed};
use twp_grammar::Kind;

/// The most phrases among which a part is looked for that is excepted as a whole.
const PHRASES_MOST: usize = 64;

impl<'a> Plan<'a> {
    /// Doubts land that is excepted from one of several parts, and isn't of the last of them: it may be a
    /// part of that, as in `S/2, NW/4 less SW/4`.
    pub(crate) fn doubt_exceptions(&mut self, list: &[Placed]) {
        let mut last: Option<Phrase> = None;
        let mut count: usize = 0;
        let mut is_first = false;
        for index in 0..list.len() {
            let phrase = list[index].phrase;
            // An `of` before white space, as in `N/2 of N/2 SW/4, less NWNW`, may end with either part.
            if phrase.form == Form::WithOf && goes_on(list, index) {
                self.draft.doubt();
            }
            match phrase.kind {
                PhraseKind::Sections => count = 0,
                PhraseKind::Nothing(_) | PhraseKind::Heading => {}
                PhraseKind::Except => is_first = true,
                PhraseKind::Part if is_first && count > 1 && !goes_on(list, index) => {
                    is_first = false;
                    if !self.may_hold(last, phrase) {
                        self.draft.doubt();
                    }
                }
                _ if is_first => is_first = false,
                _ => {
                    count = plus(count, 1);
                    last = Some(phrase);
                }
            }
        }
    }

    /// Whether the part at an index, after a comma, can't be excepted with the land before it, as in
    /// `W/2E/2 less SWSE, E/2W/2`: the parts from which that is excepted have no land in common with it.
    pub(crate) fn is_land_after_exception(&self, list: &[Placed], index: usize) -> bool {
        let (Some(placed), Some(before)) = (list.get(index), index.checked_sub(1)) else {
            return false;
        };
        let Some(last) = list.get(before) else {
            return false;
        };
        let phrase = placed.phrase;
        phrase.kind == PhraseKind::Part
            && last.phrase.kind == PhraseKind::Part
            && !goes_on(list, index)
            && self.draft.pieces.is(last.phrase.end, b",")
            && phrase.first == plus(last.phrase.end, 1)
            && self.is_apart_from_whole(&list[..before], phrase)
    }

    /// Whether an exception is among the last phrases, and the parts of its section before it, of
    /// which there are some, have no land in common with a part.
    fn is_apart_from_whole(&self, list: &[Placed], part: Phrase) -> bool {
        let mut is_excepted = true;
        let mut has_part = false;
        for placed in list.iter().rev().take(PHRASES_MOST) {
            let phrase = placed.phrase;
            match phrase.kind {
                // A comma before the exception sets it apart, with all that is listed after it.
                PhraseKind::Except
                    if is_excepted && !self.draft.pieces.follows(phrase.first, b",") => {
                    is_excepted = false;
                }
                PhraseKind::Except => return false,
                PhraseKind::Part if !is_excepted => {
                    if self.draft.do_overlap(phrase, part) {
                        return false;
                    }
                    has_part = true;
                }
                PhraseKind::Lots | PhraseKind::All if !is_excepted => return false,
                PhraseKind::Sections => return !is_excepted && has_part,
                _ => {}
            }
        }
        false
    }

    /// Doubts a part after `and` and a list of lots that are excepted from a part, if that list has
    /// an `and` of its own, as in `N/2 less Lots 1 & 2 and S/2NE/4`: the part may be kept.
    pub(crate) fn doubt_part_after_lots(&mut self, list: &[Placed]) {
        let mut is_excepting = false;
        let mut has_part = false;
        let mut lots: Option<usize> = None;
        for index in 0..list.len() {
            let phrase = list[index].phrase;
            let is_joined = match lots {
                Some(end) => self.has_kind(end, phrase.first, Kind::And),
                None => false,
            };
            match phrase.kind {
                PhraseKind::Except => is_excepting = true,
                PhraseKind::Sections => {
                    is_excepting = false;
                    has_part = false;
                }
                PhraseKind::Part if is_excepting && is_joined && has_part => self.draft.doubt(),
                PhraseKind::Part if !is_excepting => has_part = true,
                _ => {}
            }
            lots = if phrase.kind == PhraseKind::Lots && self.lists_by_and(phrase) {
                Some(phrase.end)
            } else {
                None
            };
        }
    }

    /// Whether `and`, or its sign, is in a phrase.
    fn lists_by_and(&self, phrase: Phrase) -> bool {
        let pieces = &self.draft.pieces;
        for index in phrase.first..phrase.end {
            if matches!(pieces.kind(index), Kind::And) || pieces.is(index, b"&") {
                return true;
            }
        }
        false
    }

    /// Doubts an excepted part that includes a part from which it is excepted, as in
    /// `N/2 and SE/4, except the N/2`: it may be a part of that. The land of each section is in a
    /// group.
    pub(crate) fn doubt_whole_exceptions(&mut self, list: &[Placed]) {
        let mut is_excepting = false;
        for index in 0..list.len() {
            let placed = list[index];
            match placed.phrase.kind {
                PhraseKind::Except => is_excepting = true,
                PhraseKind::Sections => is_excepting = false,
                PhraseKind::Part if is_excepting && !is_joined(list, index) => {
                    if self.does_hold_one(&list[..index], placed) {
                        self.draft.doubt();
                    }
                }
                _ => {}
            }
        }
    }

    /// Whether a part includes one of the last parts of its group, but for those that are excepted.
    fn does_hold_one(&self, list: &[Placed], excepted: Placed) -> bool {
        let mut is_excepted = true;
        for placed in list.iter().rev().take(PHRASES_MOST) {
            let is_part = placed.phrase.kind == PhraseKind::Part && placed.role == excepted.role;
            if is_part && !is_excepted && self.draft.does_hold(excepted.phrase, placed.phrase) {
                return true;
            }
            is_excepted = is_excepted && placed.phrase.kind != PhraseKind::Except;
        }
        false
    }

    /// Whether a part that is excepted is of the last land before it, or has two steps or more.
    fn may_hold(&self, last: Option<Phrase>, excepted: Phrase) -> bool {
        let [step] = self.draft.steps_of(excepted) else {
            return true;
        };
        let Some(last) = last else {
            return true;
        };
        match self.draft.steps_of(last) {
            [whole] => {
                let letter = whole.written.first().copied().unwrap_or(0);
                let is_of_half = whole.written.ends_with(b"2") && step.written.ends_with(b"4");
                is_of_half && step.written.get(..2).unwrap_or(b"").contains(&letter)
            }
            _ => last.kind != PhraseKind::Part,
        }
    }
}

/// Whether a part is before the one at an index, or follows it, with white space alone between them.
fn is_joined(list: &[Placed], index: usize) -> bool {
    goes_on(list, index) || matches!(index.checked_sub(1), Some(before) if goes_on(list, before))
}

/// Whether another phrase follows the one at an index, with white space alone between them.
fn goes_on(list: &[Placed], index: usize) -> bool {
    match (list.get(index), list.get(plus(index, 1))) {
        (Some(one), Some(other)) => {
            one.phrase.kind == PhraseKind::Part
                && other.phrase.kind == PhraseKind::Part
                && other.phrase.first == one.phrase.end
        }
        _ => false,
    }
}
