//! How far apart sections and the land beside them are, as in `NE/4; Sec 14 (SW/4); Sec 9`: where a section
//! is closer to other land than to the land that it would get, either may be meant.

use crate::arranged::plan::Plan;
use twp_asides::plus;
use twp_draft::{Phrase, PhraseKind};
use twp_grammar::Kind;

/// How far apart two phrases are, by what is between them.
#[derive(Clone, Copy, PartialEq, Eq)]
enum Distance {
    /// A colon, a dash, or an opening parenthesis after a section, or `of` before one.
    Bound,
    Space,
    Cell,
    Comma,
    Line,
    Stop,
    Semicolon,
}

impl Distance {
    /// The place of a distance in the order of distances.
    fn rank(self) -> u8 {
        match self {
            Distance::Bound => 0,
            Distance::Space => 1,
            Distance::Cell => 2,
            Distance::Comma => 3,
            Distance::Line => 4,
            Distance::Stop => 5,
            Distance::Semicolon => 6,
        }
    }

    /// Whether a distance is longer than another.
    fn is_over(self, other: Distance) -> bool {
        self.rank() > other.rank()
    }

    /// The longer one of two distances.
    fn or_longer(self, other: Distance) -> Distance {
        if other.is_over(self) { other } else { self }
    }
}

/// What was found before a phrase.
#[derive(Clone, Copy)]
struct NearestSoFar {
    /// Whether land is before the first section.
    is_land_first: bool,
    /// The last section or land, and its index among the phrases.
    last: Option<Phrase>,
    place: usize,
    /// The last section, and whether another one than the first was found.
    section: Option<Phrase>,
    has_other: bool,
    /// The last distance between a section and its land.
    near: Option<Distance>,
    /// The last distance between a section and the land of the next one, or of the one before.
    far: Option<Distance>,
    /// The longest distance between lands since the last section.
    within: Option<Distance>,
    /// Whether a section has to be bound to its land, since it may also have the land before it.
    is_awaited: bool,
    /// Whether an exception after several sections may be of the land of each of them.
    is_loose: bool,
    /// Whether a section may have other land, if there are several.
    is_unsure: bool,
}

impl NearestSoFar {
    /// Nothing.
    fn new() -> NearestSoFar {
        NearestSoFar {
            is_land_first: false,
            last: None,
            place: 0,
            section: None,
            has_other: false,
            near: None,
            far: None,
            within: None,
            is_awaited: false,
            is_loose: false,
            is_unsure: false,
        }
    }

    /// Takes the distance between a section and its land. A semicolon should end the land of a section.
    fn take_near(&mut self, near: Distance) {
        let is_long = match self.far {
            Some(far) => near.is_over(far),
            None => false,
        };
        let is_loose = self.is_awaited && near != Distance::Bound;
        self.is_unsure = self.is_unsure || is_long || is_loose || near == Distance::Semicolon;
        self.is_awaited = false;
        self.near = Some(near);
    }

    /// Takes the distance between a section and the land of another one.
    fn take_far(&mut self, far: Distance) {
        let is_short = match self.near {
            Some(near) => near.is_over(far),
            None => false,
        };
        self.is_unsure = self.is_unsure || is_short || far == Distance::Bound;
        self.far = Some(far);
    }

    /// Takes the section that was named before. Its land isn't sure if it was set apart from the section, as
    /// in `Section 14; SW/4 of said Section`, where all of the section may be meant first.
    fn name_again(&mut self) {
        self.is_loose = match self.near {
            Some(near) => !self.is_land_first && near.is_over(Distance::Comma),
            None => false,
        };
        self.near = None;
        self.far = None;
    }

    /// Takes the distance between two lands. Land before its section may belong to the section before it, if
    /// it is no closer to the land after it.
    fn take_within(&mut self, within: Distance) {
        if let (true, Some(far)) = (self.is_land_first, self.far) {
            let is_loose = self.section.is_some() && !far.is_over(within);
            self.is_unsure = self.is_unsure || (is_loose && within.is_over(Distance::Comma));
        }
        self.within = Some(self.within.unwrap_or(within).or_longer(within));
    }

    /// Notes whether the last land before a section, which follows its own, is closer to this section than to
    /// the land before it.
    fn await_land(&mut self, far: Distance) {
        if let Some(within) = self.within {
            self.is_awaited = within.is_over(far) && within.is_over(Distance::Comma);
        }
    }
}

impl<'a> Plan<'a> {
    /// Whether one of several sections may have other land than the one it would get.
    pub(crate) fn has_closer_land(&self) -> bool {
        let mut found = NearestSoFar::new();
        for index in 0..self.draft.phrases.len() {
            let Some(phrase) = self.draft.phrases.get(index).map(|placed| placed.phrase) else {
                break;
            };
            match phrase.kind {
                PhraseKind::Nothing(_) | PhraseKind::Heading => {}
                PhraseKind::Sections => self.pass_section(phrase, index, &mut found),
                PhraseKind::Except => self.pass_exception(phrase, index, &mut found),
                PhraseKind::Part | PhraseKind::Lots | PhraseKind::All => self.pass_land(
                    phrase, index, &mut found,
                ),
            }
        }
        found.is_loose || (found.has_other && (found.is_unsure || found.is_awaited))
    }

    /// Passes land, which is the phrase at an index.
    fn pass_land(&self, land: Phrase, index: usize, found: &mut NearestSoFar) {
        match found.last {
            Some(last) => {
                let distance = self.distance(last, found.place, land, index);
                if last.kind != PhraseKind::Sections {
                    found.take_within(distance);
                } else if found.is_land_first {
                    found.take_far(distance);
                } else {
                    found.take_near(distance);
                }
            }
            None => found.is_land_first = found.is_land_first || found.section.is_none(),
        }
        found.last = Some(land);
        found.place = index;
    }

    /// Passes an exception, which is the phrase at an index. After a section that has its land before it, the
    /// exception is of that land, unless it is set apart by more than a comma, or as far as the land of the
    /// sections is.
    fn pass_exception(&self, exception: Phrase, index: usize, found: &mut NearestSoFar) {
        if let (true, Some(last)) = (found.is_land_first, found.last) {
            if last.kind == PhraseKind::Sections {
                let distance = self.distance(last, found.place, exception, index);
                let is_apart = match found.far {
                    Some(far) => {
                        distance.is_over(Distance::Comma)
                            || (distance == Distance::Comma && !far.is_over(distance))
                    }
                    None => false,
                };
                found.is_loose = is_apart || self.count_of(last) > 1;
            }
        }
        found.last = None;
    }

    /// Passes a section, which is the phrase at an index.
    fn pass_section(&self, section: Phrase, index: usize, found: &mut NearestSoFar) {
        let is_again = match found.section {
            Some(before) => self.is_same_section(before, section),
            None => false,
        };
        if is_again {
            found.name_again();
        } else {
            self.measure_section(section, index, found);
        }
        found.has_other = found.has_other || (found.section.is_some() && !is_again);
        found.section = Some(section);
        found.last = Some(section);
        found.place = index;
        found.within = None;
    }

    /// Takes the distance between the land before a section and that.
    fn measure_section(&self, section: Phrase, index: usize, found: &mut NearestSoFar) {
        let Some(last) = found.last else {
            return;
        };
        if last.kind == PhraseKind::Sections {
            return;
        }
        let distance = self.distance(last, found.place, section, index);
        if found.is_land_first {
            return found.take_near(distance);
        }
        let far = if self.begins_row_between(found.place, index)
            || self.are_in_lines(found.section, section)
        {
            distance.or_longer(Distance::Semicolon)
        } else {
            distance
        };
        found.take_far(far);
        found.await_land(far);
    }

    /// Whether a section and the one before it, each with its word, begin a line: what is before
    /// the line is of the section before.
    fn are_in_lines(&self, before: Option<Phrase>, section: Phrase) -> bool {
        let pieces = &self.draft.pieces;
        match before {
            Some(before) => {
                let are_named = matches!(pieces.kind(before.first), Kind::Sec)
                    && matches!(pieces.kind(section.first), Kind::Sec);
                are_named
                    && pieces.begins_line(before.first)
                    && pieces.has_before(section.first, b'\n')
            }
            None => false,
        }
    }

    /// Whether a row begins with a township between two phrases, as in a register: what is before
    /// it is of the row before.
    fn begins_row_between(&self, first: usize, last: usize) -> bool {
        let mut has_line = false;
        for placed in self.draft.phrases.get(plus(first, 1)..last).unwrap_or(&[]) {
            let phrase = &placed.phrase;
            has_line = has_line || self.draft.pieces.has_before(phrase.first, b'\n');
            if has_line && phrase.kind == PhraseKind::Heading {
                return true;
            }
        }
        false
    }

    /// How far apart two phrases are, with their indexes. Phrases between them, which are no land, aren't
    /// counted.
    fn distance(&self, one: Phrase, first: usize, other: Phrase, last: usize) -> Distance {
        let is_after_section = one.kind == PhraseKind::Sections;
        let mut rest = self.draft.phrases.get(plus(first, 1)..last).unwrap_or(&[]);
        let mut longest = self.break_before(other.first);
        let mut is_bound = false;
        let mut next = one.end;
        for index in one.end..other.first {
            if index < next {
                continue;
            }
            longest = longest.or_longer(self.break_before(index));
            if let [aside, more @ ..] = rest {
                if aside.phrase.first == index {
                    next = aside.phrase.end;
                    rest = more;
                    continue;
                }
            }
            longest = longest.or_longer(self.distance_by(index));
            is_bound = is_bound || self.binds(index, is_after_section);
        }
        if is_bound && longest != Distance::Semicolon {
            Distance::Bound
        } else {
            longest
        }
    }

    /// The distance that white space before a piece makes.
    fn break_before(&self, index: usize) -> Distance {
        let pieces = &self.draft.pieces;
        if !pieces.has_break_before(index) {
            Distance::Space
        } else if pieces.has_before(index, b'\n') {
            Distance::Line
        } else {
            Distance::Cell
        }
    }

    /// The distance that a mark or a word makes.
    fn distance_by(&self, index: usize) -> Distance {
        let pieces = &self.draft.pieces;
        match pieces.kind(index) {
            Kind::Semicolon => Distance::Semicolon,
            Kind::Stop => Distance::Stop,
            Kind::Comma | Kind::And => Distance::Comma,
            Kind::BadByte if !(pieces.is(index, b"\"") || pieces.is(index, b")")) =>
                Distance::Comma,
            Kind::Other
                if pieces.is(index, b"also")
                    || pieces.is(index, b"plus")
                    || pieces.is(index, b"together") => Distance::Comma,
            _ => Distance::Space,
        }
    }

    /// Whether a mark after a section, or a word before one, binds it to land.
    fn binds(&self, index: usize, is_after_section: bool) -> bool {
        let pieces = &self.draft.pieces;
        if matches!(pieces.kind(index), Kind::Colon) {
            return true;
        }
        if is_after_section {
            pieces.is_dash(index) || pieces.is(index, b"(")
        } else {
            pieces.is(index, b"of") || pieces.is(index, b"in")
        }
    }
}
