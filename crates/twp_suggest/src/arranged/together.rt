//! What the phrases of a text say together, if that isn't sure: each of them may be, and what they make
//! isn't.
ghost use Rattle.std.specs.Prelude.{◌≤◌};

use crate::arranged::plan::Plan;
use twp_asides::{begins_terms, plus};
use twp_draft::{Form, LeftOut, Phrase, PhraseKind};
use twp_grammar::Kind;

impl<'a> Plan<'a> {
    /// Doubts phrases that aren't sure together.
    pub(crate) fn doubt_together(&mut self) {
        if self.has_empty_place()
            || self.are_unsure_together()
            || self.has_half_of_two()
            || self.has_unsure_label()
            || self.has_unsure_section()
        {
            self.draft.doubt();
        }
    }

    /// Whether parts, or phrases beside each other, aren't sure together. A single part is beside
    /// no other, and what is beside a phrase is doubted only where something is left out, and for
    /// lots before a section.
    fn are_unsure_together(&self) -> bool {
        let counts = self.counts;
        (counts.parts > 0 && self.has_part_of_part())
            || (counts.parts > 1 && self.has_corner_without_fraction())
            || ((counts.asides > 0 || counts.lots > 0) && self.has_unsure_neighbors())
    }

    /// Whether a half may be of two corners, since white space is between it and the first one, as in
    /// `W2 NE & NW`.
    fn has_half_of_two(&self) -> bool {
        if self.counts.parts < 3 {
            return false;
        }
        for index in 2..self.draft.phrases.len() {
            if self.is_half_of_two(index) {
                return true;
            }
        }
        false
    }

    /// Whether such a half is two phrases before the one at an index.
    fn is_half_of_two(&self, index: usize) -> bool
        requires { 2 ≤ index }
    {
        let phrases = self.draft.phrases.as_slice();
        let (Some(half), Some(corner), Some(other)) = (
            phrases.get(index - 2),
            phrases.get(index - 1),
            phrases.get(index),
        ) else {
            return false;
        };
        let end = corner.phrase.end;
        let goes_on = match phrases.get(plus(index, 1)) {
            Some(next) => next.phrase.first == other.phrase.end
                && next.phrase.kind == PhraseKind::Part,
            None => false,
        };
        let is_and = self.draft.pieces.is(end, b"&") || self.draft.pieces.is(end, b"and");
        is_and
            && !goes_on
            && other.phrase.first == plus(end, 1)
            && corner.phrase.first == half.phrase.end
            && self.is_single_step(half.phrase, b"2")
            && self.is_single_step(corner.phrase, b"4")
            && self.is_single_step(other.phrase, b"4")
    }

    /// Whether a phrase is a part of one step, whose fraction ends with a digit.
    fn is_single_step(&self, phrase: Phrase, digit: &[u8]) -> bool {
        phrase.kind == PhraseKind::Part
            && matches!(self.draft.steps_of(phrase), [step] if step.written.ends_with(digit))
    }

    /// Whether labels aren't sure with the rest of the text. Most texts have none.
    fn has_unsure_label(&self) -> bool {
        if self.counts.labels == 0 {
            return self.draft.has_remark && self.has_land_missing();
        }
        self.has_land_missing() || self.has_other_parcel() || self.has_other_tract()
    }

    /// Whether it isn't sure which land the sections have. A single section has all of it, unless
    /// an exception may be of other land.
    fn has_unsure_section(&self) -> bool {
        let counts = self.counts;
        (counts.sections > 1 && (self.has_loose_section() || self.has_section_aside()))
            || ((counts.sections > 1 || counts.exceptions > 0)
                && self.has_closer_land()
                && !self.are_whole_before_land(self.draft.phrases.as_slice()))
    }

    /// Whether some land may be missing. A word that isn't known may be what was meant by it: with remarks,
    /// or with a status as `open`, each section has some. After the label of each tract is land.
    fn has_land_missing(&self) -> bool {
        let pieces = &self.draft.pieces;
        let mut sections: usize = 0;
        let mut lands: usize = 0;
        let mut is_land = false;
        let mut has_status = false;
        let mut is_labelled = false;
        for placed in &self.draft.phrases {
            let phrase = &placed.phrase;
            match phrase.kind {
                PhraseKind::Sections => {
                    sections = plus(sections, 1);
                    is_land = false;
                    is_labelled = false;
                }
                PhraseKind::Part | PhraseKind::Lots | PhraseKind::All => {
                    lands = plus(lands, usize::from(!is_land));
                    is_land = true;
                    is_labelled = false;
                }
                // What is excepted is no further land, but its section has some.
                PhraseKind::Except => {
                    lands = plus(lands, usize::from(lands < sections));
                    is_land = true;
                }
                PhraseKind::Nothing(LeftOut::Label) => {
                    let is_label = pieces.is_label_of_tract(phrase.first);
                    if is_label && is_labelled {
                        return true;
                    }
                    is_labelled = is_labelled || is_label;
                    has_status = has_status
                        || (sections > 0 && begins_terms(pieces.lower(phrase.first)));
                }
                _ => {}
            }
        }
        is_labelled || ((self.draft.has_remark || has_status) && sections != lands)
    }

    /// Whether the place for the land of a section is empty, as in `Sec. 9: Ada County`, or the rest of
    /// several sections is missing, as in `Secs. 9 -`.
    fn has_empty_place(&self) -> bool {
        // The last section, if no land follows it so far.
        let mut section: Option<&Phrase> = None;
        let mut is_first = true;
        let mut is_before = false;
        for placed in &self.draft.phrases {
            let phrase = &placed.phrase;
            match phrase.kind {
                PhraseKind::Sections => {
                    if self.is_list_cut(phrase) || self.is_place_empty(section) {
                        return true;
                    }
                    is_before = is_before || is_first;
                    section = if is_before { Some(phrase) } else { None };
                    is_first = false;
                }
                PhraseKind::Part | PhraseKind::Lots | PhraseKind::All | PhraseKind::Except => {
                    section = None;
                    is_first = false;
                }
                PhraseKind::Nothing(LeftOut::Acreage) => {
                    if self.is_before_gap(section) {
                        return true;
                    }
                    section = None;
                }
                _ => {}
            }
        }
        self.is_place_empty(section)
    }

    /// Whether the number of one section, after a word for several, is before a dash.
    fn is_list_cut(&self, sections: &Phrase) -> bool {
        let count = sections.numbers.end.saturating_sub(sections.numbers.first);
        sections.form == Form::Plural && count == 1 && self.draft.pieces.is_dash(sections.end)
    }

    /// Whether a colon, or a cell without land, follows a section, or its word is for several.
    fn is_place_empty(&self, section: Option<&Phrase>) -> bool {
        let pieces = &self.draft.pieces;
        match section {
            Some(section) => {
                let count = section.numbers.end.saturating_sub(section.numbers.first);
                matches!(pieces.kind(section.end), Kind::Colon)
                    || pieces.has_empty_cell(section.end)
                    || (section.form == Form::Plural && count == 1)
            }
            None => false,
        }
    }

    /// Whether a comma and wide white space follow a section.
    fn is_before_gap(&self, section: Option<&Phrase>) -> bool {
        let pieces = &self.draft.pieces;
        match section {
            Some(section) => {
                pieces.is(section.end, b",") && pieces.begins_column(plus(section.end, 1))
            }
            None => false,
        }
    }

    /// Whether a number that was taken for a section may be another one, since no land is beside it: where
    /// another section has a word for it, as in `1 T2N R3W Sec 9`, or on both sides of a township, as in
    /// `8-2N-3W-9`.
    fn has_loose_section(&self) -> bool {
        let mut has_word = false;
        let mut has_loose = false;
        // The last section or land, and whether that is such a number.
        let mut before: Option<PhraseKind> = None;
        let mut is_loose = false;
        // Whether a township was next to such a number, and another one followed it.
        let mut is_beside = false;
        let mut is_twice = false;
        for placed in &self.draft.phrases {
            let phrase = &placed.phrase;
            match phrase.kind {
                PhraseKind::Sections => {
                    let is_bare = matches!(self.draft.pieces.kind(phrase.first), Kind::Number(_));
                    has_word = has_word || !is_bare;
                    has_loose = has_loose || is_loose;
                    if is_twice {
                        return true;
                    }
                    is_loose = is_bare && !is_land(before);
                    is_twice = is_loose && is_beside;
                    is_beside = false;
                    before = Some(phrase.kind);
                }
                PhraseKind::Part | PhraseKind::Lots | PhraseKind::All => {
                    is_loose = false;
                    is_twice = false;
                    is_beside = false;
                    before = Some(phrase.kind);
                }
                PhraseKind::Heading => {
                    is_beside = is_loose && !self.is_row(phrase);
                    is_twice = false;
                }
                _ => {}
            }
        }
        is_twice || (has_word && (has_loose || is_loose))
    }

    /// Whether a township begins a line, or follows a semicolon.
    fn is_row(&self, heading: &Phrase) -> bool {
        let pieces = &self.draft.pieces;
        let first = heading.first;
        first == 0 || pieces.has_before(first, b'\n') || pieces.follows(first, b";")
    }

    /// Whether a part is of another one that was named before, as in `the N/2 of said NW/4`, unless that is a
    /// quarter or a half of the section, and no other part is before it.
    fn has_part_of_part(&self) -> bool {
        let mut parts: usize = 0;
        let mut before: Option<&Phrase> = None;
        for placed in &self.draft.phrases {
            let phrase = &placed.phrase;
            if phrase.kind != PhraseKind::Part {
                continue;
            }
            // Within a part, `said` is after an `of`.
            let is_said = (phrase.form == Form::WithOf && self.has_word(phrase, b"said"))
                || self.draft.pieces.follows(phrase.first, b"said");
            if is_said && (parts != 1 || !self.is_of_whole(before, phrase)) {
                return true;
            }
            parts = plus(parts, 1);
            before = Some(phrase);
        }
        false
    }

    /// Whether the last step of a part is the only step of the one before it.
    fn is_of_whole(&self, before: Option<&Phrase>, part: &Phrase) -> bool {
        let Some(before) = before else {
            return false;
        };
        match (
            self.draft.steps_of(*before),
            self.draft.steps_of(*part).last(),
        ) {
            ([only], Some(last)) => only.written == last.written,
            _ => false,
        }
    }

    /// Whether one of several sections is in parentheses, as in `Sec. 14 (Sec. 9): NE`; or land is before the
    /// first one, and after a colon of another, as in `NE; Sec. 14: SW; Sec. 9`.
    fn has_section_aside(&self) -> bool {
        let pieces = &self.draft.pieces;
        let mut sections: usize = 0;
        let mut is_aside = false;
        let mut is_land_first = false;
        // The index after a section and its colon.
        let mut colon: Option<usize> = None;
        for placed in &self.draft.phrases {
            let phrase = &placed.phrase;
            match phrase.kind {
                PhraseKind::Sections => {
                    sections = plus(sections, 1);
                    is_aside = is_aside
                        || pieces.follows(phrase.first, b"(")
                        || pieces.is(phrase.end, b")");
                    colon = if matches!(pieces.kind(phrase.end), Kind::Colon) {
                        Some(plus(phrase.end, 1))
                    } else {
                        None
                    };
                }
                PhraseKind::Part | PhraseKind::Lots | PhraseKind::All => {
                    is_land_first = is_land_first || sections == 0;
                    is_aside = is_aside || (is_land_first && colon == Some(phrase.first));
                }
                _ => {}
            }
        }
        is_aside && sections > 1
    }

    /// Whether a tract has a label, and no section of its own, though land before it has no label: it may be
    /// in another section, as in `Sec. 9: NE; Tract 2: SE`.
    fn has_other_tract(&self) -> bool {
        let mut has_label = false;
        let mut is_first = false;
        let mut is_other = false;
        for placed in &self.draft.phrases {
            let phrase = &placed.phrase;
            match phrase.kind {
                PhraseKind::Sections => is_other = false,
                PhraseKind::Part | PhraseKind::Lots | PhraseKind::All => {
                    if is_other {
                        return true;
                    }
                    is_first = is_first || !has_label;
                }
                PhraseKind::Nothing(LeftOut::Label)
                    if self.draft.pieces.is_label_of_tract(phrase.first) => {
                    has_label = true;
                    is_other = is_first;
                }
                _ => {}
            }
        }
        false
    }
}

/// Whether a phrase names land.
fn is_land(kind: Option<PhraseKind>) -> bool {
    matches!(
        kind,
        Some(PhraseKind::Part | PhraseKind::Lots | PhraseKind::All)
    )
}
