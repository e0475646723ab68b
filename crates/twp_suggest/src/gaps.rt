//! What is written between phrases: commas, semicolons, and nothing.

use crate::arranged::{Between, Gap, Joining, is_joint, is_written, mark_between};
use crate::joints::Shared;
use crate::outline::{Outline, Parts};
use crate::writer::ChangeWriter;
use twp_asides::plus;
use twp_draft::{Form, PhraseKind, Placed};
use twp_grammar::Kind;
use twp_rules::{Change, Rule};

impl<'p, 'a> ChangeWriter<'p, 'a> {
    /// Writes what has to be between two phrases, and leaves out what is between them.
    pub(crate) fn write_gap<'b>(
        &mut self,
        before: Option<&'b Placed>,
        after: Option<&'b Placed>,
        left_out: &[Placed],
        parts: &mut Parts<'b>,
        out: &mut Outline<'a>,
    ) {
        let gap = Gap {
            first: before.map_or(0, |placed| placed.phrase.end),
            end: after.map_or(self.plan.draft.pieces.len(), |placed| placed.phrase.first),
            between: mark_between(before, after),
        };
        let joining = self.plan.joining(gap, left_out);
        if let (Some(one), Some(other)) = (before, after) {
            if one.phrase.kind == PhraseKind::Except || other.phrase.kind == PhraseKind::Except {
                return self.write_pieces(gap, left_out, Some(gap.end), false, out);
            }
            if is_joint(one, other) {
                return self.write_joined(one, other, gap, left_out, joining, parts, out);
            }
            *parts = Parts::none();
            if self.plan.is_unsure_gap(one, other, joining, left_out) {
                self.plan.draft.doubt();
            }
        }
        self.write_between(before, after, gap, left_out, joining, out)
    }

    /// Writes what has to be between two parts of one section. Not inlined, since most phrases are no such
    /// parts.
    #[inline(never)]
    fn write_joined<'b>(
        &mut self,
        one: &'b Placed,
        other: &'b Placed,
        gap: Gap,
        left_out: &[Placed],
        joining: Joining,
        parts: &mut Parts<'b>,
        out: &mut Outline<'a>,
    ) {
        let shared = self.shared_of(one, other, joining, out);
        let is_apart = matches!(joining, Joining::Nothing | Joining::Stop);
        if self.is_unsure_of(one, other, shared, is_apart, parts) {
            self.plan.draft.doubt();
        }
        match shared {
            Shared::Nothing if self.is_slash(gap) => {
                return self.write_slash(gap, out);
            }
            Shared::Nothing if self.plan.is_unsure_gap(one, other, joining, left_out) => {
                self.plan.draft.doubt();
            }
            Shared::Tail => self.write_tail(&one.phrase, &other.phrase, out),
            Shared::Head => {
                self.write_between(Some(one), Some(other), gap, left_out, joining, out);
                return self.write_head(&one.phrase, &other.phrase, out);
            }
            _ => {}
        }
        if is_apart && left_out.is_empty() {
            return self.write_joint(gap, &one.phrase, &other.phrase, parts, out);
        }
        self.write_between(Some(one), Some(other), gap, left_out, joining, out)
    }

    /// Whether it isn't sure for which of two parts, and those beside them, an `of` is: also where only white
    /// space or a period is between them, after a part whose `of` may be for the one before it.
    fn is_unsure_of<'b>(
        &self,
        one: &'b Placed,
        other: &'b Placed,
        shared: Shared,
        is_apart: bool,
        parts: &mut Parts<'b>,
    ) -> bool {
        let is_after_tail = is_apart && parts.has_tail;
        is_after_tail
            || self.does_overlap_bare(one, other, shared, parts)
            || self.is_forced(&one.phrase, &other.phrase, shared)
            || is_unsure_of_three(other, shared, parts)
    }

    /// Whether a part has land in common with one before it for which an `of` may be, so that it has to be
    /// for that. Notes what the next part has to know.
    fn does_overlap_bare<'b>(
        &self,
        one: &'b Placed,
        other: &'b Placed,
        shared: Shared,
        parts: &mut Parts<'b>,
    ) -> bool {
        let does_overlap = match parts.bare {
            Some(bare) => self.plan.draft.do_overlap(bare.phrase, other.phrase),
            None => false,
        };
        match shared {
            Shared::Tail => parts.bare = Some(one),
            Shared::Head => parts.bare = Some(other),
            Shared::Nothing => {}
        }
        does_overlap
    }

    /// Writes what has to be between two phrases, if it isn't written so.
    fn write_between(
        &mut self,
        before: Option<&Placed>,
        after: Option<&Placed>,
        gap: Gap,
        left_out: &[Placed],
        joining: Joining,
        out: &mut Outline<'a>,
    ) {
        if is_written(before, after, gap.between, joining) {
            return self.write_pieces(gap, left_out, None, false, out);
        }
        if gap.between == Between::Nothing {
            return self.write_pieces(gap, left_out, Some(gap.end), false, out);
        }
        self.write_mark(gap, left_out, out)
    }

    /// Writes a comma or a semicolon between two phrases: instead of the first mark, or after the first
    /// phrase.
    fn write_mark(&mut self, gap: Gap, left_out: &[Placed], out: &mut Outline<'a>) {
        let is_comma = gap.between == Between::Comma;
        let end = match left_out.first() {
            Some(placed) => placed.phrase.first,
            None => gap.end,
        };
        for index in gap.first..end {
            if self.may_be_mark(index, is_comma) {
                return self.write_pieces(gap, left_out, Some(index), is_comma, out);
            }
        }
        let place = self.plan.draft.pieces.end_before(gap.first);
        let is_apart = self.plan.draft.pieces.start(gap.first) > place;
        let (written, rule): (&'static [u8], Rule) = match (is_comma, is_apart) {
            (true, true) => (b",", Rule::Comma),
            (true, false) => (b", ", Rule::Comma),
            (false, true) => (b";", Rule::Semicolon),
            (false, false) => (b"; ", Rule::Semicolon),
        };
        out.add(Change {
            start: place,
            end: place,
            written,
            rule,
        });
        self.write_pieces(gap, left_out, Some(gap.end), is_comma, out)
    }

    /// Writes the pieces between two phrases: a mark instead of one of them, and nothing instead of the
    /// others. With no such piece, all of them stay.
    #[inline(always)]
    fn write_pieces(
        &mut self,
        gap: Gap,
        left_out: &[Placed],
        mark: Option<usize>,
        is_comma: bool,
        out: &mut Outline<'a>,
    ) {
        if gap.first < gap.end {
            self.write_some_pieces(gap, left_out, mark, is_comma, out);
        }
    }

    /// The same, for a gap that has pieces.
    #[inline(never)]
    fn write_some_pieces(
        &mut self,
        gap: Gap,
        left_out: &[Placed],
        mark: Option<usize>,
        is_comma: bool,
        out: &mut Outline<'a>,
    ) {
        let mut next = gap.first;
        let mut rest = left_out;
        for index in gap.first..gap.end {
            if let [placed, more @ ..] = rest {
                if placed.phrase.first == index {
                    next = placed.phrase.end;
                    rest = more;
                    self.write_left_out(placed, out);
                }
            }
            if index < next {
                continue;
            }
            let is_between = next == index && is_next_left_out(rest, index);
            let is_lost = gap.first == 0 && self.leads_on(index) && !is_between;
            if is_lost || (self.is_word(index) && !self.may_leave_out(index, gap, rest)) {
                self.plan.draft.doubt();
            }
            match mark {
                None => {}
                Some(place) if place == index => self.write_as_mark(index, is_comma, out),
                Some(_) => self.write_nothing(index, out),
            }
        }
    }

    /// Whether a comma or a semicolon may be written instead of a piece.
    fn may_be_mark(&self, index: usize, is_comma: bool) -> bool {
        match self.plan.draft.pieces.lower(index) {
            b"," | b";" | b":" | b"." | b"&" | b"-" | b"|" | b"+" => true,
            b"/" => !is_comma,
            b"plus" => is_comma,
            b"\xE2\x80\x93" | b"\xE2\x80\x94" => is_comma,
            _ => false,
        }
    }

    /// Whether a piece is a word.
    pub(crate) fn is_word(&self, index: usize) -> bool {
        let pieces = &self.plan.draft.pieces;
        match pieces.kind(index) {
            Kind::Of | Kind::The | Kind::And => true,
            Kind::Other => pieces.is(index, b"in") || pieces.is(index, b"said"),
            Kind::BadByte => pieces.is(index, b"&"),
            _ => false,
        }
    }

    /// Whether a word or a mark at an index leads from land to more of it.
    pub(crate) fn leads_on(&self, index: usize) -> bool {
        let pieces = &self.plan.draft.pieces;
        match pieces.kind(index) {
            Kind::Other => {
                pieces.is(index, b"also")
                    || pieces.is(index, b"plus")
                    || pieces.is(index, b"together")
            }
            Kind::BadByte => pieces.is(index, b"+") || pieces.is(index, b"/"),
            _ => false,
        }
    }

    /// Whether a word between phrases means nothing there: before a section or a township and range that is
    /// left out, at the beginning, or `and` between lands or sections.
    fn may_leave_out(&self, index: usize, gap: Gap, rest: &[Placed]) -> bool {
        let pieces = &self.plan.draft.pieces;
        let after = plus(index, 1);
        let after = if self.is_word(after) {
            plus(after, 1)
        } else {
            after
        };
        let is_before_moved = match rest {
            [placed, ..] => {
                let is_next = placed.phrase.first == after || placed.phrase.first == plus(index, 1);
                let is_moved = matches!(
                    placed.phrase.kind,
                    PhraseKind::Sections | PhraseKind::Heading
                );
                is_next && is_moved && !(pieces.is(index, b"and") || pieces.is(index, b"&"))
            }
            [] => false,
        };
        let is_between = gap.between != Between::Nothing && gap.first > 0;
        let is_and = (pieces.is(index, b"and") || pieces.is(index, b"&"))
            && is_between
            && rest.is_empty();
        let is_the = (pieces.is(index, b"the") || pieces.is(index, b"said"))
            && gap.end > index
            && rest.is_empty();
        let is_of = pieces.is(index, b"of") && !pieces.follows(index, b"all");
        let is_first = gap.first == 0
            && !(is_of || pieces.is(index, b"and") || pieces.is(index, b"&"));
        let is_after_all = pieces.is(index, b"of")
            && pieces.follows(index, b"all")
            && rest.is_empty();
        is_before_moved
            || is_and
            || is_the
            || is_first
            || (is_after_all && gap.end == plus(index, 1))
    }

    /// Leaves out a phrase, with the white space before it, but for words that a rule looks at as a whole.
    fn write_left_out(&mut self, placed: &Placed, out: &mut Outline<'a>) {
        let rule = match placed.phrase.kind {
            PhraseKind::Nothing(left_out) => left_out.rule(),
            PhraseKind::Heading => Rule::MovedHeading,
            _ => Rule::MovedSection,
        };
        let first = placed.phrase.first;
        let pieces = &self.plan.draft.pieces;
        let is_figure_on_line = rule == Rule::Acreage
            && pieces.number(first).is_some()
            && pieces.has_before(first, b'\n');
        let start = match rule {
            Rule::Heading | Rule::Label | Rule::Word => pieces.start(first),
            _ if is_figure_on_line => pieces.start(first),
            _ => self.plan.draft.pieces.end_before(first),
        };
        out.add(Change {
            start,
            end: self.plan.draft.pieces.end_before(placed.phrase.end),
            written: b"",
            rule,
        });
    }

    /// Writes a comma or a semicolon instead of a piece, if it is another.
    fn write_as_mark(&self, index: usize, is_comma: bool, out: &mut Outline<'a>) {
        let (written, rule): (&'static [u8], Rule) = if is_comma {
            (b",", Rule::Comma)
        } else {
            (b";", Rule::Semicolon)
        };
        if self.plan.draft.pieces.bytes(index) == written {
            return;
        }
        self.write_piece(index, written, rule, out)
    }

    /// Leaves out a piece.
    fn write_nothing(&self, index: usize, out: &mut Outline<'a>) {
        let is_mark = !matches!(
            self.plan.draft.pieces.kind(index),
            Kind::And | Kind::Of | Kind::The | Kind::Other
        );
        let rule = if is_mark { Rule::Mark } else { Rule::Word };
        self.write_piece(index, b"", rule, out)
    }

    /// Writes something instead of a piece.
    fn write_piece(&self, index: usize, written: &'static [u8], rule: Rule, out: &mut Outline<'a>) {
        let pieces = &self.plan.draft.pieces;
        out.add(Change {
            start: pieces.start(index),
            end: pieces.end(index),
            written,
            rule,
        });
    }
}

/// Whether an `of` of the last of three parts may be for the first one too, or one of the first for the last:
/// `NE¼, NW¼ & SE¼ of SW¼`. Notes what the next part has to know.
fn is_unsure_of_three(other: &Placed, shared: Shared, parts: &mut Parts<'_>) -> bool {
    let is_after_head = parts.has_head && other.phrase.form != Form::WithOf;
    parts.count = plus(parts.count, 1);
    let is_after_part = parts.count > 1 && shared == Shared::Tail;
    parts.has_head = shared == Shared::Head;
    parts.has_tail = shared == Shared::Tail;
    is_after_head || is_after_part
}

/// Whether a phrase that is left out follows the piece at an index.
fn is_next_left_out(rest: &[Placed], index: usize) -> bool {
    match rest {
        [placed, ..] => placed.phrase.first == plus(index, 1),
        [] => false,
    }
}
