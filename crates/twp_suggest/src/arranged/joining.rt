//! What joins two phrases, and whether it is sure what that means.

use crate::arranged::plan::Plan;
use twp_asides::plus;
use twp_draft::{Form, LeftOut, Phrase, PhraseKind, Placed, PlacedStep, Role};
use twp_grammar::Kind;

/// What has to be between two phrases.
#[derive(Clone, Copy, PartialEq, Eq)]
pub enum Between {
    /// Nothing: one of them is the text's beginning or its end.
    Nothing,
    Comma,
    Semicolon,
}

/// The pieces between two phrases that are kept.
#[derive(Clone, Copy)]
pub struct Gap {
    pub first: usize,
    pub end: usize,
    pub between: Between,
}

/// What joins two phrases, in a few words.
#[derive(Clone, Copy, PartialEq, Eq)]
pub enum Joining {
    Nothing,
    Comma,
    And,
    CommaAnd,
    Semicolon,
    SemicolonAnd,
    Colon,
    Stop,
    Other,
}

impl<'a> Plan<'a> {
    /// What joins the phrases before a gap and after it.
    pub fn joining(&self, gap: Gap, left_out: &[Placed]) -> Joining {
        let mut joining = Joining::Nothing;
        let mut next: usize = gap.first;
        let mut rest = left_out;
        for index in gap.first..gap.end {
            if let [placed, more @ ..] = rest {
                if placed.phrase.first == index {
                    next = placed.phrase.end;
                    rest = more;
                }
            }
            if index >= next {
                joining = joined_with(joining, self.draft.pieces.kind(index));
            }
        }
        joining
    }

    /// Whether it isn't sure what the pieces between two phrases mean.
    pub fn is_unsure_gap(
        &self,
        one: &Placed,
        other: &Placed,
        joining: Joining,
        left_out: &[Placed],
    ) -> bool {
        let pieces = &self.draft.pieces;
        let (before, after) = (&one.phrase, &other.phrase);
        if before.kind == PhraseKind::Heading {
            return false;
        }
        if before.kind == PhraseKind::Sections {
            // All of the section, and land of another, may be meant.
            let is_land = matches!(
                after.kind,
                PhraseKind::Part | PhraseKind::Lots | PhraseKind::All
            );
            return is_land
                && one.role == other.role
                && self.has_and(before.end, after.first, left_out);
        }
        if one.role != other.role {
            return false;
        }
        let are_parts = before.kind == PhraseKind::Part && after.kind == PhraseKind::Part;
        if are_parts && is_list(joining) && self.may_share_last(before, after) {
            return true;
        }
        match joining {
            Joining::Nothing if are_parts && left_out.is_empty() => self.are_bare_cells(
                before, after,
            ),
            // A part of two steps or more is no part of a lot.
            Joining::Nothing
                if before.kind == PhraseKind::Lots
                    && after.kind == PhraseKind::Part
                    && after.steps.end > plus(after.steps.first, 1) => false,
            // Nor is one in the cell for aliquot parts.
            Joining::Nothing
                if before.kind == PhraseKind::Lots
                    && is_left_out_after(before, left_out, LeftOut::Label)
                    && pieces.end_of_column_label(before.end).is_some() => false,
            Joining::Nothing
                if are_parts && is_left_out_after(before, left_out, LeftOut::Acreage) => {
                !pieces.begins_column(after.first)
            }
            Joining::Nothing if are_parts && is_left_out_after(before, left_out, LeftOut::Label) =>
                { !self.are_tracts(before) }
            Joining::Nothing if before.kind == PhraseKind::Lots && after.kind == PhraseKind::Lots =>
                false,
            Joining::Nothing => !has_section(left_out),
            Joining::Stop
                if before.kind == PhraseKind::Lots
                    && after.kind == PhraseKind::Part
                    && after.steps.end > plus(after.steps.first, 1) => !left_out.is_empty(),
            Joining::Stop => !(are_parts && left_out.is_empty()),
            Joining::Colon => !has_section(left_out),
            Joining::And => {
                are_parts
                    && before.form != after.form
                    && !is_left_out_after(before, left_out, LeftOut::Repeated)
            }
            Joining::Comma if are_parts => {
                self.are_comma_cells(before, after) || self.may_share(before, after)
            }
            Joining::CommaAnd if are_parts => self.may_share(before, after),
            Joining::Other => self.is_unsure_list(before, after, left_out),
            _ => false,
        }
    }

    /// Whether a step of one of two parts may be for both, as in `NE/4, NW/4 of SE/4`: one has an `of`, and
    /// the other one step. They aren't in each other, `the` isn't before the second alone, and no acreage is
    /// that of both.
    fn may_share(&self, before: &Phrase, after: &Phrase) -> bool {
        let (first, second) = (self.draft.steps_of(*before), self.draft.steps_of(*after));
        let ([one, ..], [other, ..]) = (first, second) else {
            return false;
        };
        let is_tail = after.form == Form::WithOf;
        let bare = if is_tail { first } else { second };
        let has_the = self.draft.pieces.is(after.first, b"the");
        before.form != after.form
            && bare.len() == 1
            && !self.has_exact_acreage
            && (if is_tail {
                !do_meet(one.written, other.written)
            } else {
                !has_the
            })
    }

    /// Whether the last steps of a part may be for the one before it too, as in
    /// `E½ of NW¼ and W½ of NE¼ of SE¼`: it has more steps, an `of` before the last one, and the
    /// first ones of both parts are apart.
    fn may_share_last(&self, before: &Phrase, after: &Phrase) -> bool {
        let (first, second) = (self.draft.steps_of(*before), self.draft.steps_of(*after));
        after.form == Form::WithOf
            && first.len() >= 2
            && first.len() < second.len()
            && are_apart(first, second)
            && !self.has_exact_acreage
    }

    /// Whether `and`, or an ampersand, is among some pieces, but for what is left out.
    fn has_and(&self, first: usize, end: usize, left_out: &[Placed]) -> bool {
        let pieces = &self.draft.pieces;
        let mut next = first;
        let mut rest = left_out;
        for index in first..end {
            if let [placed, more @ ..] = rest {
                if placed.phrase.first == index {
                    next = placed.phrase.end;
                    rest = more;
                }
            }
            let is_and = matches!(pieces.kind(index), Kind::And)
                || pieces.is(index, b"&")
                || pieces.is(index, b"also")
                || pieces.is(index, b"plus")
                || pieces.is(index, b"together");
            if index >= next && is_and {
                return true;
            }
        }
        false
    }

    /// Whether the label of a tract follows a part of a section that was named before the first label, and
    /// not after one.
    fn are_tracts(&self, part: &Phrase) -> bool {
        let pieces = &self.draft.pieces;
        let is_before = match self.draft.last_section {
            Some(section) => section.first < part.first && !self.is_after_label(section.first),
            None => false,
        };
        is_before && pieces.is_label_of_tract(part.end)
    }

    /// Whether the label of a tract is before an index: three pieces, as `Tract 2:`, or four, as `Tr. 2:`.
    fn is_after_label(&self, index: usize) -> bool {
        let pieces = &self.draft.pieces;
        matches!(index.checked_sub(3), Some(label) if pieces.is_label_of_tract(label))
            || matches!(index.checked_sub(4), Some(label) if pieces.is_label_of_tract(label))
    }

    /// Whether other pieces than commas and semicolons between two lands may mean something else: only an
    /// ampersand or a plus sign doesn't, between parts that both have an `of`, or none, nor a colon after a
    /// section that is named again.
    fn is_unsure_list(&self, before: &Phrase, after: &Phrase, left_out: &[Placed]) -> bool {
        let pieces = &self.draft.pieces;
        let mut next = before.end;
        let mut rest = left_out;
        for index in before.end..after.first {
            if let [placed, more @ ..] = rest {
                if placed.phrase.first == index {
                    next = placed.phrase.end;
                    rest = more;
                }
            }
            if index < next || (pieces.is(index, b":") && has_section(left_out)) {
                continue;
            }
            if self.is_edge_of_cell(index) && self.are_whole_cells(before, after, left_out) {
                continue;
            }
            // A period before a comma is of an abbreviation, or a slip.
            let is_stop = pieces.is(index, b".")
                && pieces.is(plus(index, 1), b",")
                && plus(index, 1) < after.first;
            if !(is_stop
                || pieces.is(index, b"&")
                || pieces.is(index, b"+")
                || pieces.is(index, b"plus")
                || pieces.is(index, b",")
                || pieces.is(index, b";"))
            {
                return true;
            }
        }
        before.kind == PhraseKind::Part
            && after.kind == PhraseKind::Part
            && before.form != after.form
    }
}

/// Whether what joins two parts is a comma, `and`, or a mark for it.
fn is_list(joining: Joining) -> bool {
    matches!(
        joining,
        Joining::And | Joining::CommaAnd | Joining::Comma | Joining::Other
    )
}

/// Whether a step of a part has no land in common with that at its place in another.
fn are_apart(first: &[PlacedStep], second: &[PlacedStep]) -> bool {
    for (one, other) in first.iter().zip(second) {
        if !do_meet(one.written, other.written) {
            return true;
        }
    }
    false
}

/// Whether two steps have land in common.
fn do_meet(one: &[u8], other: &[u8]) -> bool {
    let (first, second) = (letters_of(one), letters_of(other));
    !(has_opposite(first, second, b'N', b'S') || has_opposite(first, second, b'E', b'W'))
}

/// The letters of a step.
fn letters_of(step: &[u8]) -> &[u8] {
    let count: usize = if step.ends_with(b"2") { 1 } else { 2 };
    step.get(..count).unwrap_or(b"")
}

/// Whether letters are of a side, and others of the opposite one.
fn has_opposite(first: &[u8], second: &[u8], side: u8, other: u8) -> bool {
    (first.contains(&side) && second.contains(&other))
        || (first.contains(&other) && second.contains(&side))
}

/// Whether one phrase is left out after a part, as the parentheses in `the East Half (E/2)`, or the
/// acreage in `NENE 40.00`.
fn is_left_out_after(before: &Phrase, left_out: &[Placed], aside: LeftOut) -> bool {
    match left_out {
        [placed] => {
            placed.phrase.first == before.end && placed.phrase.kind == PhraseKind::Nothing(aside)
        }
        _ => false,
    }
}

/// Whether a section is among phrases.
pub fn has_section(list: &[Placed]) -> bool {
    for placed in list {
        if placed.phrase.kind == PhraseKind::Sections {
            return true;
        }
    }
    false
}

/// What has to be between two phrases.
pub fn mark_between(before: Option<&Placed>, after: Option<&Placed>) -> Between {
    let (Some(before), Some(after)) = (before, after) else {
        return Between::Nothing;
    };
    if before.phrase.kind == PhraseKind::Heading || before.role == after.role {
        return Between::Comma;
    }
    Between::Semicolon
}

/// Whether two phrases are parts of one section.
pub fn is_joint(one: &Placed, other: &Placed) -> bool {
    one.phrase.kind == PhraseKind::Part
        && other.phrase.kind == PhraseKind::Part
        && one.role == other.role
}

/// Whether what joins two phrases is written so in a description.
pub fn is_written(
    before: Option<&Placed>,
    after: Option<&Placed>,
    between: Between,
    joining: Joining,
) -> bool {
    let Some(before) = before else {
        return joining == Joining::Nothing;
    };
    if after.is_none() {
        return matches!(joining, Joining::Nothing | Joining::Stop);
    }
    match (between, before.phrase.kind) {
        (Between::Nothing, _) => true,
        (Between::Semicolon, _) => matches!(joining, Joining::Semicolon | Joining::SemicolonAnd),
        (Between::Comma, PhraseKind::Heading) => matches!(
            joining,
            Joining::Nothing | Joining::Comma
        ),
        (Between::Comma, PhraseKind::Sections) => {
            matches!(joining, Joining::Nothing | Joining::Comma | Joining::Colon)
        }
        (Between::Comma, _) => matches!(joining, Joining::Comma | Joining::And | Joining::CommaAnd),
    }
}

/// What joins phrases with one more piece.
pub fn joined_with(joining: Joining, kind: Kind) -> Joining {
    match (joining, kind) {
        (Joining::Nothing, Kind::Comma) => Joining::Comma,
        (Joining::Nothing, Kind::And) => Joining::And,
        (Joining::Comma, Kind::And) => Joining::CommaAnd,
        (Joining::Nothing, Kind::Semicolon) => Joining::Semicolon,
        (Joining::Semicolon, Kind::And) => Joining::SemicolonAnd,
        (Joining::Nothing, Kind::Colon) => Joining::Colon,
        (Joining::Nothing, Kind::Stop) => Joining::Stop,
        _ => Joining::Other,
    }
}
