//! Sections without a word for them: `S14 T2N R3W`, `14-2N-3W`, `14: NENE`.

use crate::finder::Finder;
use twp_asides::plus;
use twp_draft::{Form, LeftOut, PhraseKind, WrittenNumber};
use twp_grammar::Kind;
use twp_rules::Rule;

/// The most phrases among which the label of a tract is looked for.
const PHRASES_MOST: usize = 8;

impl<'a> Finder<'a> {
    /// The section of a location, as in `S14 T2N R3W`.
    #[inline(never)]
    pub(crate) fn section_of_letter(&mut self, index: usize) -> Option<usize> {
        if !self.draft.pieces.is(index, b"s") {
            return None;
        }
        let from = self.draft.checkpoint();
        let digits = self.digits_of_letter(index);
        let Some(number) = self.number_of_letter(index, digits) else {
            return None;
        };
        let next = plus(digits, 1);
        let is_after = self.is_sure_letter(index);
        let place = if self.draft.pieces.is_dash(next) || self.draft.pieces.is(next, b",") {
            plus(next, 1)
        } else {
            next
        };
        let heading = self.end_of_heading(place);
        if !is_after && heading.is_none() {
            return None;
        }
        if !is_after && self.may_be_half(index, heading) {
            if self.draft.last_section.is_none() || self.draft.pieces.follows(index, b";") {
                self.draft.doubt();
            }
            return None;
        }
        self.draft.replace(index, b"sec. ", Rule::SectionWord);
        self.draft
            .leave_out_each(plus(index, 1), digits, Rule::Mark);
        self.draft.write_numeral(number);
        Some(self.draft.add(PhraseKind::Sections, index, next, from))
    }

    /// The index of the number after the letter for a section at an index, and after a period, as in
    /// `S. 15, T. 2 N.`, or a colon, as in `S:15`: no half has such a number.
    pub(crate) fn digits_of_letter(&self, index: usize) -> usize {
        let pieces = &self.draft.pieces;
        let next = plus(index, 1);
        let digits = plus(next, 1);
        let is_stop = pieces.is(next, b".")
            && pieces.is_joined(next)
            && !pieces.is_joined(digits)
            && (pieces.has_digits(digits, 2) || pieces.is(plus(digits, 1), b":"));
        let is_colon = pieces.is(next, b":") && pieces.is_joined(next);
        if is_stop || is_colon { digits } else { next }
    }

    /// Whether a number is at an index that is no fraction without its slash, nor a digit of one.
    fn is_number_of_no_half(&self, index: usize) -> bool {
        let pieces = &self.draft.pieces;
        match pieces.number(index) {
            Some(number) => !matches!(number, 0 | 1 | 2 | 4 | 12 | 14),
            None => false,
        }
    }

    /// The number of a section at an index after the letter for it.
    fn number_of_letter(&self, index: usize, digits: usize) -> Option<WrittenNumber> {
        let pieces = &self.draft.pieces;
        let next = plus(digits, 1);
        let has_stop = digits > plus(index, 1);
        if !(pieces.is_joined(digits)
            || has_stop
            || pieces.is_township_word(next)
            || self.is_number_of_no_half(digits))
            || (pieces.is_joined(next) && !pieces.is_after_tag(next))
        {
            return None;
        }
        self.section_number(digits)
    }

    /// Whether what is beside the letter of a section at an index says that it is one: a township before it,
    /// or a section before it that is written so, and a colon after it, or land.
    fn is_sure_letter(&self, index: usize) -> bool {
        let pieces = &self.draft.pieces;
        let digits = self.digits_of_letter(index);
        let is_before_colon = pieces.is(plus(digits, 1), b":");
        let is_list = match self.draft.last_section {
            Some(section) => pieces.is(section.first, b"s"),
            None => false,
        };
        (self.draft.last_kind() == Some(PhraseKind::Heading)
            && (is_before_colon || digits > plus(index, 1) || pieces.bytes(digits).len() >= 2))
            || (is_list && is_before_colon)
            || pieces.is_section_before_land(index)
            || self.is_section_after_land(index)
            || self.is_letter_before_colon(index)
            || self.is_letter_in_cell(index)
    }

    /// Whether the letter and the number at an index are a section that ends an item, after land, as in
    /// `SESW S31, L4 S31`: no half has such a number, with or without its slash.
    fn is_section_after_land(&self, index: usize) -> bool {
        let pieces = &self.draft.pieces;
        let digits = self.digits_of_letter(index);
        let end = plus(digits, 1);
        let is_after_land = match self.draft.phrases.last() {
            Some(placed) => {
                placed.phrase.end == index
                    && matches!(
                        placed.phrase.kind,
                        PhraseKind::Part | PhraseKind::Lots | PhraseKind::Nothing(LeftOut::Repeated)
                    )
            }
            None => false,
        };
        let is_last = end >= pieces.len()
            || pieces.is(end, b",")
            || pieces.is(end, b";")
            || pieces.begins_column(end);
        is_after_land && is_last && self.is_number_of_no_half(digits)
    }

    /// Whether the letter and the number at an index, before a township that ends at another, may
    /// be a half of a section that was named, or of one that is missing: `S2`, unless land follows.
    /// After land, `S4` isn't one.
    fn may_be_half(&self, index: usize, heading: Option<usize>) -> bool {
        let pieces = &self.draft.pieces;
        let digits = plus(index, 1);
        let is_before_land = match heading {
            Some(end) => pieces.is(end, b":"),
            None => false,
        };
        let is_after_lots = matches!(
            self.draft.last_kind(),
            Some(PhraseKind::Lots | PhraseKind::Nothing(LeftOut::Repeated))
        );
        (pieces.is(digits, b"2") || (pieces.is(digits, b"4") && !is_after_lots)) && !is_before_land
    }

    /// The number of a section without a word for it.
    #[inline(never)]
    pub(crate) fn bare_section(&mut self, index: usize) -> Option<usize> {
        let from = self.draft.checkpoint();
        let last = self.draft.last_kind();
        let pieces = &self.draft.pieces;
        let Some(number) = self.section_number(index) else {
            return None;
        };
        if !matches!(pieces.kind(index), Kind::Number(_)) {
            return None;
        }
        let is_list = last == Some(PhraseKind::All)
            && (pieces.follows(index, b"of")
                || matches!(pieces.kind_before(index), Some(Kind::All)))
            && !pieces.is_before_dash_and_tier(plus(index, 1));
        if !is_list && !self.is_bare_section(index) {
            return None;
        }
        if self.draft.pieces.is(plus(index, 1), b":") && self.is_among_tracts() {
            self.draft.doubt();
        }
        let place = self.draft.pieces.start(index);
        if self.draft.pieces.is_joined(index) {
            self.draft.write(place, place, b" ", Rule::Heading);
        }
        self.draft.write(place, place, b"sec. ", Rule::SectionWord);
        self.draft.write_numeral(number);
        let end = if is_list {
            self.numbers_after(number, PhraseKind::Sections, true)
        } else {
            number.end
        };
        self.draft.add(PhraseKind::Sections, index, end, from);
        if is_list {
            self.draft.note_form(Form::Plural);
        }
        Some(end)
    }

    /// Whether one of the last phrases is the label of a tract, so that a number may be one, too.
    fn is_among_tracts(&self) -> bool {
        for placed in self.draft.phrases.iter().rev().take(PHRASES_MOST) {
            let phrase = &placed.phrase;
            if phrase.kind == PhraseKind::Nothing(LeftOut::Label)
                && self.draft.pieces.is_label_of_tract(phrase.first)
            {
                return true;
            }
        }
        false
    }

    /// Whether the number at an index is after a township, or after a section with its land in parentheses.
    fn is_after_land_of_section(&self, index: usize) -> bool {
        let pieces = &self.draft.pieces;
        let mut end = index;
        for _ in 0..2 {
            if let Some(before) = end.checked_sub(1) {
                if pieces.is(before, b",")
                    || pieces.is(before, b";")
                    || pieces.is(before, b"&")
                    || pieces.is(before, b"and")
                {
                    end = before;
                }
            }
        }
        match self.draft.last_kind() {
            Some(PhraseKind::Heading) => true,
            Some(PhraseKind::Part | PhraseKind::All | PhraseKind::Lots) => pieces.follows(
                end, b")",
            ),
            _ => false,
        }
    }

    /// Whether the number at an index is that of a section: before a location or a colon, after a township
    /// and range, at the beginning of a row, or after land.
    fn is_bare_section(&mut self, index: usize) -> bool {
        let next = plus(index, 1);
        if self.draft.pieces.is(next, b"/") && self.draft.pieces.is_joined(next) {
            return self.begins_row(index) && self.end_of_heading(plus(next, 1)).is_some();
        }
        if self.is_after_label_of_division(index) || self.is_cell_of_section(index) {
            return true;
        }
        if self.draft.pieces.is_dash(next) && self.end_of_heading(plus(next, 1)).is_some() {
            return true;
        }
        if self.draft.pieces.is_before_dash_and_land(next) && self.draft.pieces.begins_line(index) {
            return true;
        }
        if self.is_before_land_in_parentheses(index) {
            return self.is_after_land_of_section(index);
        }
        let place = self.after_cell(index);
        if self.draft.pieces.begins_cell(index) && self.end_of_heading(place).is_some() {
            return true;
        }
        if let Some(is_section) = self.is_section_by_marks(index) {
            return is_section;
        }
        if self.is_first_before_tier(index) && self.end_of_heading(next).is_some() {
            return true;
        }
        if let Some(is_section) = self.is_section_by_place(index) {
            return is_section;
        }
        self.is_before_end_or_and(next)
            || self.end_of_heading(next).is_some()
            || (self.draft.pieces.follows(index, b"of")
                && (self.is_before_dash_or_except(next) || self.ends_number(next)))
    }

    /// Whether the number at an index is before a township, and no land before it, as in
    /// `GRAZING LAND 11 2N 3W`.
    fn is_first_before_tier(&self, index: usize) -> bool {
        let pieces = &self.draft.pieces;
        let next = plus(index, 1);
        let is_first = matches!(self.draft.last_kind(), None | Some(PhraseKind::Nothing(_)));
        is_first
            && !self.names_land
            && !pieces.is_joined(index)
            && !pieces.is_joined(next)
            && pieces.begins_tier(next)
    }

    /// Whether a dash, or an exception, is at an index, after `of` and a number.
    fn is_before_dash_or_except(&self, index: usize) -> bool {
        self.after_except(index).is_some()
            || (self.draft.pieces.is_dash(index) && !self.draft.pieces.is_joined(index))
    }

    /// Whether a mark or a new column ends the number of a section before an index, after a part
    /// and `of`: a word may say what the number counts.
    fn ends_number(&self, index: usize) -> bool {
        let pieces = &self.draft.pieces;
        pieces.begins_column(index)
            || pieces.is(index, b",")
            || pieces.is(index, b";")
            || pieces.is(index, b"?")
            || pieces.is(index, b"!")
            || pieces.is(index, b")")
            || (pieces.is(index, b".") && !pieces.is_joined(plus(index, 1)))
    }

    /// Whether the piece at an index begins a row.
    fn begins_row(&self, index: usize) -> bool {
        self.draft.pieces.begins_line(index) || self.draft.pieces.follows(index, b";")
    }

    /// Whether the number at an index is alone in a cell, after land that is in the cell after a
    /// township, as in the rows of the Mineral and Land Records System: the row has no other
    /// section.
    fn is_cell_of_section(&self, index: usize) -> bool {
        let pieces = &self.draft.pieces;
        let is_cell = pieces.has_before(index, b'\t') && pieces.has_before(plus(index, 1), b'\t');
        let is_after_land = match self.draft.phrases.as_slice() {
            [.., heading, land] => {
                heading.phrase.kind == PhraseKind::Heading
                    && matches!(land.phrase.kind, PhraseKind::Part | PhraseKind::Lots)
                    && land.phrase.end == index
                    && pieces.has_before(land.phrase.first, b'\t')
            }
            _ => false,
        };
        is_cell && is_after_land
    }

    /// Whether the name of the column for a section, in the layers of the Public Land Survey System, is
    /// before an index.
    fn is_after_label_of_division(&self, index: usize) -> bool {
        let pieces = &self.draft.pieces;
        pieces.is_back(index, 2, b"frstdivno") || pieces.is_back(index, 2, b"frstdivlab")
    }

    /// Whether land in parentheses is after the number at an index.
    fn is_before_land_in_parentheses(&self, index: usize) -> bool {
        let pieces = &self.draft.pieces;
        let next = plus(index, 1);
        pieces.is(next, b"(") && pieces.begins_land(plus(next, 1))
    }

    /// The index after the number at an index, and after a mark that separates cells.
    fn after_cell(&self, index: usize) -> usize {
        let pieces = &self.draft.pieces;
        let next = plus(index, 1);
        let is_cell = pieces.is(next, b",") || pieces.is(next, b"|");
        plus(next, usize::from(is_cell))
    }

    /// Whether the marks beside the number at an index say that it is that of a section, or that it isn't.
    fn is_section_by_marks(&self, index: usize) -> Option<bool> {
        let pieces = &self.draft.pieces;
        let next = plus(index, 1);
        let last = self.draft.last_kind();
        let is_first = matches!(
            last,
            None | Some(PhraseKind::Heading | PhraseKind::Nothing(_))
        );
        let is_after_semicolon = pieces.follows(index, b";");
        let is_apart = is_after_semicolon
            || pieces.follows(index, b",")
            || pieces.is_after_dash(index)
            || pieces.follows(index, b"|")
            || (pieces.follows(index, b":") && !self.names_land)
            || pieces.begins_line(index);
        if pieces.is(next, b":") && (is_first || is_apart) {
            return Some(plus(next, 1) < pieces.len());
        }
        let is_listed = match self.draft.last_section {
            Some(section) => {
                pieces.follows(index, b",") && matches!(pieces.kind(section.first), Kind::Number(_))
            }
            None => false,
        };
        let is_row = is_after_semicolon || is_listed || pieces.begins_line(index);
        if (pieces.is_before_dash_and_land(next) && is_apart)
            || (pieces.is_before_hyphen_and_land(next) && is_row)
        {
            return Some(true);
        }
        let is_list = match self.draft.last_section {
            Some(section) => matches!(pieces.kind(section.first), Kind::Number(_)),
            None => false,
        };
        if self.is_next_item(index) {
            return Some(true);
        }
        let is_next = is_list
            && is_after_semicolon
            && matches!(last, Some(PhraseKind::Part | PhraseKind::All))
            && pieces.begins_land(next)
            && !pieces.is_joined(next);
        if is_next { Some(true) } else { None }
    }

    /// Whether the place of the number at an index says that it is that of a section, or that it isn't: after
    /// a township, at the beginning of a line, after a part.
    fn is_section_by_place(&self, index: usize) -> Option<bool> {
        let pieces = &self.draft.pieces;
        let next = plus(index, 1);
        let is_after_heading = self.draft.last_kind() == Some(PhraseKind::Heading);
        let is_after_comma = pieces.follows(index, b",");
        if is_after_heading && !is_after_comma {
            return Some(true);
        }
        if is_after_heading && pieces.is(next, b",") && self.is_land_of_cell(plus(next, 1)) {
            return Some(true);
        }
        if pieces.begins_line(index)
            && pieces.bytes(index).len() >= 2
            && (index > 0 || pieces.has_digits(index, 3))
        {
            // Alone on its line, it may be that of a page.
            return Some(next < pieces.len() && !pieces.has_before(next, b'\n'));
        }
        if self.is_between_acreage_and_tier(index) {
            return Some(true);
        }
        if self.draft.last_kind() != Some(PhraseKind::Part)
            || pieces.is_joined(index)
            || is_after_comma
            || pieces.follows(index, b";")
            || pieces.follows(index, b":")
            || pieces.follows(index, b".")
        {
            return Some(false);
        }
        None
    }

    /// Whether the number at an index stands between an acreage after land and a township, as in
    /// `NW 160 acres 14 2N 3W`.
    fn is_between_acreage_and_tier(&self, index: usize) -> bool {
        let pieces = &self.draft.pieces;
        let next = plus(index, 1);
        self.draft.last_kind() == Some(PhraseKind::Nothing(LeftOut::Acreage))
            && self.names_land
            && !pieces.is_joined(index)
            && !pieces.is_joined(next)
            && !pieces.follows(index, b",")
            && pieces.begins_tier(next)
    }

    /// Whether land is in the cell at an index, also after a quote or the words for government
    /// lots, or in the next one, after the name of the column for aliquot parts.
    pub(crate) fn is_land_of_cell(&self, index: usize) -> bool {
        let pieces = &self.draft.pieces;
        let first = plus(index, usize::from(pieces.is(index, b"\"")));
        let cell = match pieces.end_of_column_label(first) {
            Some(end) if pieces.is(end, b",") => plus(end, 1),
            _ => first,
        };
        let land = self.after_government(plus(cell, usize::from(pieces.is(cell, b"\""))));
        let is_lot = pieces.is(land, b"l") && pieces.number(plus(land, 1)).is_some();
        pieces.begins_land(land) || is_lot
    }

    /// Whether an item ends before an index, or `and` is there.
    fn is_before_end_or_and(&self, index: usize) -> bool {
        let pieces = &self.draft.pieces;
        index >= pieces.len()
            || pieces.is(index, b";")
            || pieces.is(index, b",")
            || pieces.is(index, b"and")
            || pieces.is(index, b"&")
    }
}
