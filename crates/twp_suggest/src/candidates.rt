//! The candidates for readings: the changes of the whole text, with each joint read in one of its two ways.

use crate::arranged::Plan;
use crate::outline::{Choice, JointWay, Outline, change};
use crate::writer::ChangeWriter;
use std::alloc::{AllocError, Global};
use std::mem;
use twp_draft::{FindsPhrases, Placed};
use twp_land::Lotting;
use twp_read::TEXT_LIMIT;
use twp_rules::{Change, Rule};

/// The most candidates of a text whose readings are given: those of three joints.
pub(crate) const CANDIDATES_MOST: usize = 8;

/// The changes of a text, and its joints, by the phrases that are found in it. None where nothing is sure.
pub(crate) fn outline_of<'a, F: FindsPhrases, P: Lotting>(
    alloc: Global,
    text: &'a [u8],
    lots: &P,
) -> Result<Option<Outline<'a>>, AllocError> {
    if text.len() > TEXT_LIMIT {
        return Ok(None);
    }
    let mut plan = Plan::new(alloc, text);
    let mut writer = ChangeWriter { plan: &mut plan };
    writer.outline_by::<F, P>(alloc, lots)
}

impl<'p, 'a> ChangeWriter<'p, 'a> {
    /// The changes by the phrases that are found. This only borrows the plan, which has many
    /// vectors: a function that owned it would need code to drop each of them, at each of its ends.
    fn outline_by<F: FindsPhrases, P: Lotting>(
        &mut self,
        alloc: Global,
        lots: &P,
    ) -> Result<Option<Outline<'a>>, AllocError> {
        F::add_phrases(&mut self.plan.draft)?;
        self.plan.count_phrases();
        if self.plan.draft.is_unsure {
            return Ok(None);
        }
        let arranged = self.plan.arranged(alloc)?;
        self.sure_outline(alloc, arranged.as_slice(), lots)
    }

    /// The changes by phrases that are arranged.
    fn sure_outline<P: Lotting>(
        &mut self,
        alloc: Global,
        list: &[Placed],
        lots: &P,
    ) -> Result<Option<Outline<'a>>, AllocError> {
        if self.plan.draft.is_unsure
            || !self.plan.acreage_fits(list)
            || !self.fractional_fit(alloc, list, lots)?
        {
            return Ok(None);
        }
        let outline = self.outline(alloc, list)?;
        if self.plan.draft.is_unsure {
            return Ok(None);
        }
        Ok(Some(outline))
    }
}

impl<'a> Outline<'a> {
    /// The changes of the candidate with a number, whose binary digits are the ways of the joints. The first
    /// way of each joint comes before the second. Without joints, there is one candidate, which takes the
    /// changes.
    pub(crate) fn changes_of(
        &mut self,
        alloc: Global,
        number: usize,
    ) -> Result<Vec<Change<'a>>, AllocError> {
        if self.candidates == 1 && !has_white_space(self.changes.as_slice()) {
            return Ok(mem::replace(&mut self.changes, Vec::new(alloc)));
        }
        self.chosen(alloc, number)
    }

    /// The changes of one candidate of several. Not inlined, since most texts have one.
    #[inline(never)]
    fn chosen(&self, alloc: Global, number: usize) -> Result<Vec<Change<'a>>, AllocError> {
        let mut changes = Vec::with_capacity(alloc, self.changes.len())?;
        for (before, new) in self.changes.iter().enumerate() {
            self.add_choices(number, before, &mut changes)?;
            add_change(&mut changes, *new)?;
        }
        self.add_choices(number, self.changes.len(), &mut changes)?;
        Ok(changes)
    }

    /// Adds the changes that a candidate takes at the joints that so many changes are before.
    fn add_choices(
        &self,
        number: usize,
        before: usize,
        changes: &mut Vec<Change<'a>>,
    ) -> Result<(), AllocError> {
        for choice in &self.choices {
            if choice.before == before && is_taken(choice, number) {
                add_change(changes, choice.change)?;
            }
        }
        Ok(())
    }
}

/// Whether the candidate with a number takes a change at a joint.
fn is_taken(choice: &Choice<'_>, number: usize) -> bool {
    let way = if number & choice.digit == 0 {
        JointWay::First
    } else {
        JointWay::Second
    };
    choice.way == way
}

/// Whether several bytes of white space are left out within a part.
fn has_white_space(changes: &[Change<'_>]) -> bool {
    for change in changes {
        if change.rule == Rule::OnePart
            && change.start < change.end
            && change.end - change.start > 1
        {
            return true;
        }
    }
    false
}

/// Adds a change to others. Each byte of white space within a part is left out by a change of its own.
fn add_change<'a>(changes: &mut Vec<Change<'a>>, new: Change<'a>) -> Result<(), AllocError> {
    if new.rule != Rule::OnePart {
        changes.push(new)?;
        return Ok(());
    }
    for place in new.start..new.end {
        changes.push(change(place, place + 1, b"", Rule::OnePart))?;
    }
    Ok(())
}

/// The text that changes make, whether or not their rules allow them. None if they overlap, or don't lie in
/// the text from left to right.
pub(crate) fn made_by(
    alloc: Global,
    text: &[u8],
    changes: &[Change<'_>],
) -> Result<Option<Vec<u8>>, AllocError> {
    let mut made = Vec::new(alloc);
    let mut at: usize = 0;
    for change in changes {
        let Some(kept) = text.get(at..change.start) else {
            return Ok(None);
        };
        made.extend_from_slice(kept)?;
        made.extend_from_slice(change.written)?;
        at = change.end;
    }
    let Some(rest) = text.get(at..) else {
        return Ok(None);
    };
    made.extend_from_slice(rest)?;
    Ok(Some(made))
}
