//! The steps of aliquot parts, and whether those of two parts are the same.

use crate::draft::Draft;
use crate::phrase::{IndexRange, Phrase};
use twp_asides::plus;

/// A step of an aliquot part.
#[derive(Clone, Copy, PartialEq, Eq)]
pub struct PlacedStep {
    /// Where it begins.
    pub start: usize,
    /// Where it ends.
    pub end: usize,
    /// How it is written in a description.
    pub written: &'static [u8],
    /// Whether `of` is before it.
    pub is_after_of: bool,
}

/// An excepted part with `thereof` that ends with the steps of the part before it, as in
/// `the SW1/4, except the N1/2 of the SW1/4 thereof`: it may be of the section, or of that part.
#[derive(Clone, Copy)]
pub struct Thereof {
    /// The index after it.
    pub end: usize,
    /// The steps of the part before it.
    pub steps: IndexRange,
}

impl<'a> Draft<'a> {
    /// The steps of an aliquot part.
    pub fn steps_of(&self, part: Phrase) -> &[PlacedStep] {
        self.steps
            .get(part.steps.first..part.steps.end)
            .unwrap_or(&[])
    }

    /// Whether two aliquot parts have the same steps.
    pub fn have_same_steps(&self, one: Phrase, other: Phrase) -> bool {
        let first = self.steps_of(one);
        let second = self.steps_of(other);
        if first.len() != second.len() {
            return false;
        }
        for index in 0..first.len() {
            if written_at(first, index) != written_at(second, index) {
                return false;
            }
        }
        true
    }

    /// Whether two aliquot parts of a section have land in common.
    pub fn do_overlap(&self, one: Phrase, other: Phrase) -> bool {
        let (first, second) = (self.steps_of(one), self.steps_of(other));
        do_agree(first, second, b"NS") && do_agree(first, second, b"EW")
    }

    /// Whether an aliquot part of a section includes another.
    pub fn does_hold(&self, whole: Phrase, part: Phrase) -> bool {
        let (all, steps) = (self.steps_of(whole), self.steps_of(part));
        self.do_overlap(whole, part)
            && count_of(all, b"NS") <= count_of(steps, b"NS")
            && count_of(all, b"EW") <= count_of(steps, b"EW")
    }

    /// Whether a part is written with all steps of another, and more before them, as in
    /// `the NW1/4, except the SW1/4 of the NW1/4 thereof`: it is of the section.
    pub fn ends_with_steps_of(&self, part: Phrase, whole: Phrase) -> bool {
        let steps = self.steps_of(part);
        let all = self.steps_of(whole);
        let Some(more) = steps.len().checked_sub(all.len()) else {
            return false;
        };
        for index in 0..all.len() {
            let one = steps.get(plus(more, index)).map(|step| step.written);
            if one != all.get(index).map(|step| step.written) {
                return false;
            }
        }
        more > 0
    }
}

/// Whether the steps of two parts choose the same sides, of two that are opposite, as far as both choose one.
fn do_agree(one: &[PlacedStep], other: &[PlacedStep], sides: &[u8]) -> bool {
    for number in 0..one.len() {
        match (side_at(one, sides, number), side_at(other, sides, number)) {
            (Some(side), Some(opposite)) if side != opposite => return false,
            _ => {}
        }
    }
    true
}

/// The side, of two that are opposite, which a part chooses after so many others, from its last step on.
fn side_at(steps: &[PlacedStep], sides: &[u8], number: usize) -> Option<u8> {
    let mut before: usize = 0;
    for step in steps.iter().rev() {
        for letter in step.written {
            if sides.contains(letter) {
                if before == number {
                    return Some(*letter);
                }
                before = plus(before, 1);
            }
        }
    }
    None
}

/// How often a part chooses one of two sides that are opposite.
fn count_of(steps: &[PlacedStep], sides: &[u8]) -> usize {
    let mut count: usize = 0;
    for step in steps {
        for letter in step.written {
            count = plus(count, usize::from(sides.contains(letter)));
        }
    }
    count
}

/// How the step at an index is written.
fn written_at(steps: &[PlacedStep], index: usize) -> &'static [u8] {
    match steps.get(index) {
        Some(step) => step.written,
        None => b"",
    }
}
