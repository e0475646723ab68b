//! Joints: places that can be read in two ways, and steps that may be for two parts.

use crate::arranged::{Gap, Joining};
use crate::candidates::CANDIDATES_MOST;
use crate::outline::{JointWay, Outline, Parts, change};
use crate::writer::ChangeWriter;
use twp_asides::plus;
use twp_draft::{Form, Phrase, Placed, PlacedStep};
use twp_grammar::Kind;
use twp_rules::{Change, Rule};

/// Which steps of one of two parts may be for both.
#[derive(Clone, Copy, PartialEq, Eq)]
pub(crate) enum Shared {
    Nothing,
    /// Those after the first `of` of the second part.
    Tail,
    /// Those before the last `of` of the first part.
    Head,
}

impl<'p, 'a> ChangeWriter<'p, 'a> {
    /// Notes a joint between two parts: a comma is written, or all that is between them is left out. A half
    /// beside itself is not sure.
    pub(crate) fn write_joint(
        &mut self,
        gap: Gap,
        one: &Phrase,
        other: &Phrase,
        parts: &Parts<'_>,
        out: &mut Outline<'a>,
    ) {
        // An `of` after the second part may be for those before the first, too.
        let is_shared = parts.count > 1 && other.form == Form::WithOf;
        if is_shared || self.is_unsure_joint(gap, *one, *other) {
            self.plan.draft.doubt();
        }
        let start = self.plan.draft.pieces.end_before(gap.first);
        let end = self.plan.draft.pieces.start(gap.end);
        if start < end && self.is_only_of(gap, *one, *other) {
            return out.add(change(start, end, b"", Rule::OnePart));
        }
        // A mark between the parts becomes the comma.
        let (stop, stop_end) = if gap.end > gap.first {
            let stop = self.plan.draft.pieces.start(gap.first);
            (stop, plus(stop, 1))
        } else {
            (start, start)
        };
        out.add_choice(JointWay::First, change(stop, stop_end, b",", Rule::Comma));
        if start < end {
            out.add_choice(JointWay::Second, change(start, end, b"", Rule::OnePart));
        }
        self.note_joint(out)
    }

    /// Whether one of two parts is a half, and the other one has land in common with it, as in
    /// `E/2 NW/4`: as two parts, they would name that land twice. No other part is beside them, nor
    /// an exception in the text.
    fn is_only_of(&self, gap: Gap, one: Phrase, other: Phrase) -> bool {
        let draft = &self.plan.draft;
        let is_first = match draft.pieces.kind_before(one.first) {
            Some(Kind::Comma | Kind::Semicolon | Kind::Colon | Kind::And) | None => true,
            _ => draft.pieces.has_break_before(one.first),
        };
        let is_last = match draft.pieces.kind(other.end) {
            Kind::Comma | Kind::Semicolon | Kind::And => true,
            _ => draft.pieces.begins_column(other.end),
        };
        self.plan.counts.exceptions == 0
            && gap.end == gap.first
            && is_first
            && is_last
            && only_step(draft.steps_of(one)).ends_with(b"2")
            && draft.do_overlap(one, other)
    }

    /// Whether two parts are so written that neither way of reading them is sure.
    fn is_unsure_joint(&self, gap: Gap, one: Phrase, other: Phrase) -> bool {
        let draft = &self.plan.draft;
        let part = only_step(draft.steps_of(one));
        let half = only_step(draft.steps_of(other));
        // Nobody writes a quarter of a half so, as in `NE N2`.
        let side = half.first().copied().unwrap_or(0);
        let is_quarter_of_half = half.ends_with(b"2")
            && part.ends_with(b"4")
            && part.get(..2).unwrap_or(b"").contains(&side);
        let is_twice = part.ends_with(b"2") && draft.have_same_steps(one, other);
        let are_spaced = (self.is_spaced(one) && self.is_spaced(other)) || self.are_steps_apart();
        is_quarter_of_half
            || self.is_odd_part(gap, one, other)
            || (is_twice && !are_spaced)
            || self.may_be_again(gap, one, other)
    }

    /// Whether two parts have land in common, but would make a part as nobody writes it: each has several
    /// steps; or the first one ends with a quarter of the half with which the second one begins; or an `of`
    /// is in the second one, which is set apart.
    fn is_odd_part(&self, gap: Gap, one: Phrase, other: Phrase) -> bool {
        let draft = &self.plan.draft;
        let (first, second) = (draft.steps_of(one), draft.steps_of(other));
        let is_odd = match (first, second) {
            ([_, _, ..], [_, _, ..]) => true,
            ([.., part], [half, ..]) => {
                let side = half.written.first().copied().unwrap_or(0);
                half.written.ends_with(b"2")
                    && part.written.ends_with(b"4")
                    && part.written.get(..2).unwrap_or(b"").contains(&side)
            }
            _ => false,
        };
        // A period, a line end, or `the` sets it apart.
        let is_apart = gap.end > gap.first
            || draft.pieces.has_break_before(gap.end)
            || draft.pieces.is(other.first, b"the");
        (is_odd || (is_apart && other.form == Form::WithOf)) && draft.do_overlap(one, other)
    }

    /// Whether one of two parts may be the other again, or a part of it, in a cell of its own: `SWSE SWSE`,
    /// `N2SE SE`.
    fn may_be_again(&self, gap: Gap, one: Phrase, other: Phrase) -> bool {
        let draft = &self.plan.draft;
        let is_same = draft.steps_of(one).len() > 1 && draft.have_same_steps(one, other);
        let is_again = match (draft.steps_of(one), draft.steps_of(other)) {
            ([half], [first, _, ..]) => {
                other.form == Form::WithOf
                    && half.written.ends_with(b"2")
                    && half.written == first.written
            }
            _ => false,
        };
        is_same
            || is_again
            || draft.ends_with_steps_of(one, other)
            || (draft.pieces.has_break_before(gap.end) && draft.ends_with_steps_of(other, one))
    }

    /// Whether white space is between the letter of a half and its fraction, as in `N 1/2`, so that white
    /// space after it separates no parts.
    fn is_spaced(&self, half: Phrase) -> bool {
        let pieces = &self.plan.draft.pieces;
        let fraction = plus(half.first, 1);
        matches!(pieces.kind(fraction), Kind::Half) && !pieces.is_joined(fraction)
    }

    /// Whether white space is between all steps of the text, as in `S/2 S/2, SW/4 NE/4`: each was found as a
    /// part by itself, so that white space separates no parts.
    fn are_steps_apart(&self) -> bool {
        let draft = &self.plan.draft;
        for step in &draft.steps {
            if let Some(b'a'..=b'z' | b'A'..=b'Z' | b'/' | b'\\' | b'-') = draft
                .pieces
                .text
                .get(step.end)
            {
                return false;
            }
        }
        true
    }

    /// Notes a joint, whose changes were added. A text with too many isn't sure.
    fn note_joint(&mut self, out: &mut Outline<'a>) {
        if out.candidates >= CANDIDATES_MOST {
            self.plan.draft.doubt();
            return;
        }
        out.candidates *= 2;
    }

    /// Notes that an excepted part may be of the section, or of the part before it.
    pub(crate) fn write_thereof(&mut self, part: &Phrase, out: &mut Outline<'a>) {
        let Some(thereof) = self.plan.draft.thereof else {
            return;
        };
        if thereof.end != part.end {
            return;
        }
        let place = self.plan.draft.pieces.end_before(part.end);
        let Some(steps) = self
            .plan
            .draft
            .steps
            .get(thereof.steps.first..thereof.steps.end)
        else {
            return self.plan.draft.doubt();
        };
        for step in steps {
            out.add_choice(JointWay::Second, copied(step, place));
        }
        self.note_joint(out)
    }

    /// Whether two parts, as they are written, have land in common, so that steps have to be for both. But
    /// then something may be wrong, unless the text states the acreage of both parts with these steps.
    pub(crate) fn is_forced(&self, one: &Phrase, other: &Phrase, shared: Shared) -> bool {
        let draft = &self.plan.draft;
        let (first, second) = (draft.steps_of(*one), draft.steps_of(*other));
        let both = match shared {
            Shared::Nothing => return false,
            Shared::Tail => share_of(first, tail_of(second)).saturating_add(share_of(second, &[])),
            Shared::Head => share_of(first, &[]).saturating_add(share_of(second, head_of(first))),
        };
        (draft.do_overlap(*one, *other) && self.plan.acreage != Some(both))
            || (shared == Shared::Tail && do_cross(first, second))
    }

    /// Whether only a slash is between two parts, both of which it is joined to.
    pub(crate) fn is_slash(&self, gap: Gap) -> bool {
        let pieces = &self.plan.draft.pieces;
        plus(gap.first, 1) == gap.end
            && pieces.is(gap.first, b"/")
            && pieces.is_joined(gap.first)
            && pieces.is_joined(gap.end)
    }

    /// Notes a joint at a slash between two parts: a comma takes its place, or nothing.
    pub(crate) fn write_slash(&mut self, gap: Gap, out: &mut Outline<'a>) {
        let (start, end) = (
            self.plan.draft.pieces.start(gap.first),
            self.plan.draft.pieces.end(gap.first),
        );
        out.add_choice(JointWay::First, change(start, start, b", ", Rule::Comma));
        out.add_choice(JointWay::First, change(start, end, b"", Rule::Mark));
        out.add_choice(JointWay::Second, change(start, end, b"", Rule::Mark));
        self.note_joint(out)
    }

    /// Which steps of one of two parts with `and` between them may be for both.
    pub(crate) fn shared_of(
        &self,
        one: &Placed,
        other: &Placed,
        joining: Joining,
        out: &Outline<'a>,
    ) -> Shared {
        let pieces = &self.plan.draft.pieces;
        let (before, after) = (&one.phrase, &other.phrase);
        let has_the = pieces.is(plus(before.end, 1), b"the");
        let is_mark = pieces.is(before.end, b"&") || (pieces.is(before.end, b"and") && has_the);
        let is_and = joining == Joining::And || (joining == Joining::Other && is_mark);
        let is_close = after.first <= plus(before.end, plus(1, usize::from(has_the)))
            && out.candidates <= 2;
        if !is_and || !is_close || before.form == after.form {
            return Shared::Nothing;
        }
        if after.form == Form::WithOf {
            Shared::Tail
        } else {
            Shared::Head
        }
    }

    /// Notes that the `of` of a part may be for the one before it too.
    pub(crate) fn write_tail(&mut self, one: &Phrase, other: &Phrase, out: &mut Outline<'a>) {
        let place = self.plan.draft.pieces.end_before(one.end);
        for step in tail_of(self.plan.draft.steps_of(*other)) {
            out.add_choice(JointWay::Second, copied(step, place));
        }
        self.note_joint(out)
    }

    /// Notes that the steps before the last `of` of a part may be for the one after it too.
    pub(crate) fn write_head(&mut self, one: &Phrase, other: &Phrase, out: &mut Outline<'a>) {
        let place = self.plan.draft.pieces.start(other.first);
        for step in head_of(self.plan.draft.steps_of(*one)) {
            out.add_choice(JointWay::Second, copied(step, place));
        }
        self.note_joint(out)
    }
}

/// The steps after the first `of` of a part.
fn tail_of(steps: &[PlacedStep]) -> &[PlacedStep] {
    let first = steps.iter().position(|step| step.is_after_of);
    steps.get(first.unwrap_or(steps.len())..).unwrap_or(&[])
}

/// The steps before the last `of` of a part.
fn head_of(steps: &[PlacedStep]) -> &[PlacedStep] {
    let last = steps.iter().rposition(|step| step.is_after_of);
    steps.get(..last.unwrap_or(0)).unwrap_or(&[])
}

/// The nominal area of a part with some steps, and with more after them, in hundredths of an acre.
fn share_of(steps: &[PlacedStep], more: &[PlacedStep]) -> u64 {
    let mut area: u64 = 64_000;
    for step in steps.iter().chain(more) {
        area /= if step.written.ends_with(b"2") { 2 } else { 4 };
    }
    area
}

/// Whether a half, and the half that is the first step of another part, lie across each other, as in
/// `N½ and E½ of SW¼`. If the `of` is for both, they have some land in common.
fn do_cross(one: &[PlacedStep], other: &[PlacedStep]) -> bool {
    let (half, first) = (
        only_step(one),
        other.first().map_or(b"" as &[u8], |step| step.written),
    );
    let is_north = half.starts_with(b"N") || half.starts_with(b"S");
    let is_other = first.starts_with(b"N") || first.starts_with(b"S");
    half.ends_with(b"2") && first.ends_with(b"2") && is_north != is_other
}

/// How the only step of a part is written. Nothing, if it has more.
fn only_step(steps: &[PlacedStep]) -> &'static [u8] {
    match steps {
        [step] => step.written,
        _ => b"",
    }
}

/// The change that writes a step of the text again, at a place.
fn copied<'a>(step: &PlacedStep, place: usize) -> Change<'a> {
    let rule = Rule::CopiedStep(step.start, step.end);
    change(place, place, step.written, rule)
}
