//! The changes of a whole text, and the places where it can be read in two ways.

use crate::arranged::has_except;
use crate::writer::ChangeWriter;
use std::alloc::{AllocError, Global};
use twp_asides::plus;
use twp_draft::{Again, Phrase, PhraseKind, Placed, Role};
use twp_grammar::Kind;
use twp_rules::{Change, Rule};

/// There is room from the start for the changes in the phrases, one for each phrase, and so many more.
const CHANGES_MORE: usize = 8;

/// A way to read a joint, which is a place that can be read in two ways: between two parts, which are two, or
/// one, and before or after an `of`.
#[derive(Clone, Copy, PartialEq, Eq)]
pub(crate) enum JointWay {
    First,
    Second,
}

/// A change at a joint, by one of its ways.
#[derive(Clone, Copy)]
pub(crate) struct Choice<'a> {
    /// How many changes of the outline are before it.
    pub(crate) before: usize,
    /// The joint's binary digit, which is 1 in the numbers of the candidates that take its second way.
    pub(crate) digit: usize,
    pub(crate) way: JointWay,
    pub(crate) change: Change<'a>,
}

/// The changes of a whole text, but for its joints, and those at its joints.
#[derive(Drop)]
pub(crate) struct Outline<'a> {
    pub(crate) changes: Vec<Change<'a>>,
    /// The changes at joints, from left to right.
    pub(crate) choices: Vec<Choice<'a>>,
    /// How many candidates there are: each joint doubles their number.
    pub(crate) candidates: usize,
    /// What phrases say again.
    pub(crate) again: Again<'a>,
    /// Whether there is an exception.
    pub(crate) has_except: bool,
    /// Whether memory was refused for something, which is then missing.
    lacks_memory: bool,
}

/// What is known of the parts of a list, up to the last phrase.
#[derive(Clone, Copy)]
pub(crate) struct Parts<'b> {
    /// How many are before it.
    pub(crate) count: usize,
    /// Whether the steps before the last `of` of a part may be for the one after it.
    pub(crate) has_head: bool,
    /// Whether those after the first `of` of a part may be for the one before it.
    pub(crate) has_tail: bool,
    /// The last part for which an `of` of the part beside it may be, too.
    pub(crate) bare: Option<&'b Placed>,
}

impl<'b> Parts<'b> {
    /// No list has begun.
    #[inline(always)]
    pub(crate) fn none() -> Parts<'b> {
        Parts {
            count: 0,
            has_head: false,
            has_tail: false,
            bare: None,
        }
    }
}

/// What was written of a list.
#[derive(Clone, Copy)]
struct Written<'b> {
    /// The last phrase that stays.
    last: Option<&'b Placed>,
    /// The phrases after it.
    rest: &'b [Placed],
}

impl<'a> Outline<'a> {
    /// Adds a change.
    pub(crate) fn add(&mut self, change: Change<'a>) {
        if self.changes.push(change).is_err() {
            self.lacks_memory = true;
        }
    }

    /// Adds changes.
    pub(crate) fn add_all(&mut self, changes: &[Change<'a>]) {
        if self.changes.extend_from_slice(changes).is_err() {
            self.lacks_memory = true;
        }
    }

    /// Adds a change of the next joint, by one of its ways.
    pub(crate) fn add_choice(&mut self, way: JointWay, change: Change<'a>) {
        let choice = Choice {
            before: self.changes.len(),
            digit: self.candidates,
            way,
            change,
        };
        if self.choices.push(choice).is_err() {
            self.lacks_memory = true;
        }
    }

    /// Fails if memory was refused for something that was to be added.
    fn all_added(&self) -> Result<(), AllocError> {
        if self.lacks_memory {
            return Err(AllocError);
        }
        Ok(())
    }
}

impl<'p, 'a> ChangeWriter<'p, 'a> {
    /// The changes of the whole text, from left to right.
    pub(crate) fn outline(
        &mut self,
        alloc: Global,
        list: &[Placed],
    ) -> Result<Outline<'a>, AllocError> {
        let room = plus(self.plan.draft.changes.len(), list.len());
        let mut out = Outline {
            changes: Vec::with_capacity(alloc, plus(room, CHANGES_MORE))?,
            choices: Vec::new(alloc),
            candidates: 1,
            again: self.plan.draft.take_again(alloc),
            has_except: has_except(list),
            lacks_memory: false,
        };
        let mut parts = Parts::none();
        let written = self.write_kept(alloc, list, &mut parts, &mut out)?;
        // A joint in the land of several sections would be read in both ways for each of them.
        if out.candidates > 1 && has_several_sections(list) {
            self.plan.draft.doubt();
        }
        self.write_end(written.last, written.rest, list, &mut parts, &mut out);
        self.plan.draft.all_added()?;
        out.all_added()?;
        Ok(out)
    }

    /// Writes the phrases that stay, with what is between them, as long as they are sure.
    fn write_kept<'b>(
        &mut self,
        alloc: Global,
        list: &'b [Placed],
        parts: &mut Parts<'b>,
        out: &mut Outline<'a>,
    ) -> Result<Written<'b>, AllocError> {
        let heading = self.moved_heading(list);
        let mut last: Option<&'b Placed> = None;
        let mut next: usize = 0;
        for index in 0..list.len() {
            if self.plan.draft.is_unsure {
                break;
            }
            let placed = &list[index];
            if placed.role == Role::LeftOut {
                continue;
            }
            self.write_gap(last, Some(placed), &list[next..index], parts, out);
            if last.is_none() {
                self.write_heading(heading, placed, out);
            }
            self.write_section(alloc, placed, &list[index..], out)?;
            self.copy_changes(&placed.phrase, out);
            self.write_thereof(&placed.phrase, out);
            last = Some(placed);
            next = index + 1;
        }
        Ok(Written {
            last,
            rest: &list[next..],
        })
    }

    /// Writes what follows the last phrase that stays: those that are left out, of all that there are.
    fn write_end<'b>(
        &mut self,
        last: Option<&'b Placed>,
        left_out: &[Placed],
        list: &[Placed],
        parts: &mut Parts<'b>,
        out: &mut Outline<'a>,
    ) {
        let end = list.last().map_or(0, |placed| placed.phrase.end);
        if (left_out.is_empty() && self.may_be_cut_off(last))
            || self.may_be_cut_off(moved_section(left_out))
            || self.leads_nowhere(end)
            || self.ends_with_label(list)
        {
            self.plan.draft.doubt();
        }
        let none: Option<&'b Placed> = None;
        self.write_gap(last, none, left_out, parts, out);
    }

    /// Whether a mark after a phrase, which is the last one, says that more follows, which may have been cut
    /// off.
    fn may_be_cut_off(&self, last: Option<&Placed>) -> bool {
        let pieces = &self.plan.draft.pieces;
        let first = last.map_or(pieces.len(), |placed| placed.phrase.end);
        for index in first..pieces.len() {
            if matches!(pieces.kind(index), Kind::Comma | Kind::Colon)
                || pieces.is(index, b"&")
                || pieces.is_dash(index)
            {
                return true;
            }
        }
        false
    }

    /// Whether the last phrase is the name of a column for land, which is missing. It is left out.
    fn ends_with_label(&self, list: &[Placed]) -> bool {
        match list.last() {
            Some(placed) if matches!(placed.phrase.kind, PhraseKind::Nothing(_)) => {
                let label = self
                    .plan
                    .draft
                    .pieces
                    .end_of_column_label(placed.phrase.first);
                label == Some(placed.phrase.end)
            }
            _ => false,
        }
    }

    /// Whether a word or a mark after the last phrase leads to more, which is missing.
    fn leads_nowhere(&self, last: usize) -> bool {
        let pieces = &self.plan.draft.pieces;
        if pieces.follows(last, b"in")
            || pieces.follows(last, b"of")
            || pieces.follows(last, b"under")
            || pieces.follows(last, b"aliq")
            || pieces.follows(last, b"aliquot")
        {
            return true;
        }
        for index in last..pieces.len() {
            if self.is_word(index) || self.leads_on(index) {
                return true;
            }
        }
        false
    }

    /// The changes in a phrase.
    fn copy_changes(&self, phrase: &Phrase, out: &mut Outline<'a>) {
        let span = phrase.changes;
        out.add_all(
            self.plan
                .draft
                .changes
                .get(span.first..span.end)
                .unwrap_or(&[]),
        );
    }
}

/// The last of the phrases that are left out, if it is a section, which is written before its land.
fn moved_section(left_out: &[Placed]) -> Option<&Placed> {
    match left_out.last() {
        Some(placed) if placed.phrase.kind == PhraseKind::Sections => Some(placed),
        _ => None,
    }
}

/// Whether a phrase names several sections.
fn has_several_sections(list: &[Placed]) -> bool {
    for placed in list {
        let numbers = placed.phrase.numbers;
        if placed.phrase.kind == PhraseKind::Sections && numbers.end > plus(numbers.first, 1) {
            return true;
        }
    }
    false
}

/// A change.
pub(crate) fn change<'a>(start: usize, end: usize, written: &'a [u8], rule: Rule) -> Change<'a> {
    Change {
        start,
        end,
        written,
        rule,
    }
}
