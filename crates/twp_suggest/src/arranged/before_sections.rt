//! Land before its sections, as in `NE of Sec. 14`.

use crate::arranged::plan::Plan;
use twp_asides::plus;
use twp_draft::{Form, IndexRange, Phrase, PhraseKind, Placed, Role};
use twp_grammar::Kind;

/// What was found before a phrase.
#[derive(Drop)]
struct LandSoFar {
    /// The land since the last section: the index of the first, where the last ends, and how many there are.
    first: Option<usize>,
    last: usize,
    lands: usize,
    /// Whether a semicolon divides it.
    is_divided: bool,
    /// The last section.
    section: Option<Phrase>,
    /// The number of the group of land and its section.
    group: usize,
    /// Whether a comma is before a section.
    has_comma: bool,
    /// Whether each group of land is set apart from the section before it.
    are_apart: bool,
    /// Whether each section is the first one again.
    is_one: bool,
    /// Whether what follows is excepted, and the index of the first land that is.
    is_excepting: bool,
    excepted: Option<usize>,
    /// Whether a section followed an exception.
    is_ended: bool,
    /// Whether something isn't sure.
    is_unsure: bool,
}

impl LandSoFar {
    /// Nothing.
    fn new() -> LandSoFar {
        LandSoFar {
            first: None,
            last: 0,
            lands: 0,
            is_divided: false,
            section: None,
            group: 1,
            has_comma: false,
            are_apart: true,
            is_one: true,
            is_excepting: false,
            excepted: None,
            is_ended: false,
            is_unsure: false,
        }
    }

    /// Whether neither land nor a section was found.
    fn is_first(&self) -> bool {
        self.first.is_none() && self.section.is_none()
    }

    /// Takes sections that are whole, before any land.
    fn take_whole(&mut self, phrase: Phrase) {
        self.section = Some(phrase);
        self.last = phrase.first;
        self.group = self.group.saturating_add(1);
    }

    /// Whether what was found isn't sure when nothing follows.
    fn is_unsure_at_end(&self) -> bool {
        let is_unsure_list = self.has_comma && self.group > 2 && !self.are_apart && !self.is_one;
        self.is_unsure
            || self.lands > 0
            || is_unsure_list
            || (self.is_excepting && self.excepted.is_none())
    }

    /// Begins an exception, and returns what becomes of the word for it.
    fn take_except(&mut self) -> Role {
        self.is_unsure = self.is_unsure || self.is_excepting;
        self.is_excepting = true;
        self.excepted = None;
        if self.lands == 0 {
            self.group = self.group.saturating_sub(1);
        }
        Role::Kept(self.group)
    }

    /// Ends an exception of the last section, before land of another one.
    fn end_exception(&mut self) {
        self.is_excepting = false;
        self.excepted = None;
        self.group = self.group.saturating_add(1);
    }

    /// Takes land that is excepted: with no land since the last section, it is land of that section.
    fn take_excepted(&mut self, placed: &mut Placed, index: usize) {
        placed.role = Role::Kept(self.group);
        if self.excepted.is_some() {
            return;
        }
        self.excepted = Some(index);
        if let (Some(section), 0) = (self.section, self.lands) {
            placed.section = Some(section.numbers);
        }
    }
}

impl<'a> Plan<'a> {
    /// Places land before which its section is written.
    pub(crate) fn place_land_before(&mut self, list: &mut Vec<Placed>) {
        let mut found = LandSoFar::new();
        for index in 0..list.len() {
            self.place_before(list, index, &mut found);
        }
        if found.is_unsure_at_end() {
            self.draft.doubt();
        }
    }

    /// Places the phrase at an index.
    fn place_before(&self, list: &mut Vec<Placed>, index: usize, found: &mut LandSoFar) {
        let Some(placed) = list.get_mut(index) else {
            return;
        };
        let phrase = placed.phrase;
        match phrase.kind {
            PhraseKind::Nothing(_) | PhraseKind::Heading => {}
            PhraseKind::Sections if found.is_first() => {
                placed.role = Role::Kept(found.group);
                found.take_whole(phrase);
            }
            PhraseKind::Sections => {
                placed.role = Role::LeftOut;
                self.take_section_after_land(list, phrase, found);
            }
            PhraseKind::Except => placed.role = found.take_except(),
            _ => {
                if found.is_excepting && self.is_of_other_section(list.as_slice(), index, found) {
                    found.end_exception();
                }
                self.take_or_except(list, index, found);
            }
        }
    }

    /// Takes the land at an index, or the land there that is excepted.
    fn take_or_except(&self, list: &mut Vec<Placed>, index: usize, found: &mut LandSoFar) {
        let Some(placed) = list.get_mut(index) else {
            return;
        };
        if found.is_excepting {
            return found.take_excepted(placed, index);
        }
        placed.role = Role::Kept(found.group);
        self.take_land(placed.phrase, index, found);
    }

    /// Whether the land at an index isn't excepted with the land before it, since it is of another
    /// section, which follows it with `of`, as in
    /// `All of Section 20, except the SESE thereof, and the W/2 of Section 21`.
    fn is_of_other_section(&self, list: &[Placed], index: usize, found: &LandSoFar) -> bool {
        let Some(before) = index.checked_sub(1) else {
            return false;
        };
        let (Some(excepted), Some(land)) = (list.get(before), list.get(index)) else {
            return false;
        };
        let is_of_one = match found.section {
            Some(section) => self.count_of(section) == 1,
            None => false,
        };
        is_of_one
            && found.excepted.is_some()
            && found.lands == 0
            && self.are_set_apart_lands(&excepted.phrase, &land.phrase)
            && self.is_before_other_section(list, index, found)
    }

    /// Whether `and`, with a comma or a semicolon or after `thereof`, is between two lands.
    fn are_set_apart_lands(&self, one: &Phrase, other: &Phrase) -> bool {
        let is_apart = self.draft.pieces.is(one.end, b"thereof")
            || self.has_kind(one.end, other.first, Kind::Comma)
            || self.has_kind(one.end, other.first, Kind::Semicolon);
        is_apart && self.has_kind(one.end, other.first, Kind::And)
    }

    /// Whether the next section after an index is another one than the last, with `of` before it.
    fn is_before_other_section(&self, list: &[Placed], index: usize, found: &LandSoFar) -> bool {
        for placed in list.get(index..).unwrap_or(&[]) {
            let phrase = placed.phrase;
            match phrase.kind {
                PhraseKind::Sections => {
                    return self.count_of(phrase) == 1
                        && self.draft.pieces.follows(phrase.first, b"of")
                        && !self.is_again(found.section, phrase);
                }
                PhraseKind::Part | PhraseKind::Lots | PhraseKind::All => {}
                _ => return false,
            }
        }
        false
    }

    /// Takes a section: that of the land since the last one, and of what is excepted.
    fn take_section_after_land(
        &self,
        list: &mut Vec<Placed>,
        phrase: Phrase,
        found: &mut LandSoFar,
    ) {
        let is_again = found.is_excepting
            && found.lands == 0
            && self.is_again(found.section, phrase);
        found.is_unsure = found.is_unsure
            || self.is_far_section(phrase, found)
            || self.is_unsure_several(list.as_slice(), phrase, found)
            || (found.is_ended && !is_again);
        found.has_comma = found.has_comma || self.has_kind(found.last, phrase.first, Kind::Comma);
        let has_land = put_section(list, found.first, phrase.numbers);
        let has_excepted = !found.is_excepting
            || is_again
            || put_section(list, found.excepted, phrase.numbers);
        found.is_unsure = found.is_unsure || !(has_land || is_again) || !has_excepted;
        found.is_ended = found.is_excepting;
        found.is_one = found.is_one
            && (found.section.is_none() || self.is_again(found.section, phrase));
        found.section = Some(phrase);
        found.first = None;
        found.last = phrase.first;
        found.lands = 0;
        found.is_divided = false;
        found.group = found.group.saturating_add(1);
    }

    /// Whether a section may not be that of all land before it: a semicolon divides this, or a line ends
    /// before the section.
    fn is_far_section(&self, phrase: Phrase, found: &LandSoFar) -> bool {
        let has_section = found.section.is_some();
        let is_apart = found.lands > 1
            && found.is_divided
            && phrase.first == found.last
            && (has_section || self.is_bare_number(phrase));
        is_apart
            || (has_section && found.lands > 0 && self.draft.pieces.has_before(phrase.first, b'\n'))
    }

    /// Whether it isn't sure that land is of each of several sections: one word for all of them, or one part
    /// before sections that are listed, is.
    fn is_unsure_several(&self, list: &[Placed], phrase: Phrase, found: &LandSoFar) -> bool {
        if self.count_of(phrase) <= 1 {
            return false;
        }
        let first = found.first.and_then(|index| list.get(index));
        let kind = first.map(|land| land.phrase.kind);
        let is_all = found.lands == 1 && kind == Some(PhraseKind::All);
        let is_each = found.lands == 1
            && !found.is_excepting
            && kind == Some(PhraseKind::Part)
            && phrase.form == Form::Plural;
        !(is_all || is_each) || self.has_range(phrase)
    }

    /// Takes land, whose section follows.
    fn take_land(&self, phrase: Phrase, index: usize, found: &mut LandSoFar) {
        match (found.first, found.section) {
            (None, Some(before)) => {
                let is_apart = self.has_kind(before.end, phrase.first, Kind::Semicolon)
                    || self.has_kind(before.end, phrase.first, Kind::And);
                found.are_apart = found.are_apart && is_apart;
            }
            (Some(_), _) => {
                found.is_divided = found.is_divided
                    || self.has_kind(found.last, phrase.first, Kind::Semicolon);
            }
            (None, None) => {}
        }
        found.first = Some(found.first.unwrap_or(index));
        found.last = phrase.end;
        found.lands = found.lands.saturating_add(1);
    }

    /// Whether a section has no word for it, and no township after it.
    fn is_bare_number(&self, section: Phrase) -> bool {
        let pieces = &self.draft.pieces;
        let next = plus(section.end, usize::from(pieces.is_dash(section.end)));
        matches!(pieces.kind(section.first), Kind::Number(_)) && !pieces.begins_tier(next)
    }

    /// Whether a phrase names the section that was named before, and no other.
    fn is_again(&self, section: Option<Phrase>, phrase: Phrase) -> bool {
        match section {
            Some(section) => self.is_same_section(section, phrase),
            None => false,
        }
    }
}

/// Says of which section the land at an index is, if there is any.
fn put_section(list: &mut Vec<Placed>, index: Option<usize>, section: IndexRange) -> bool {
    match index.and_then(|index| list.get_mut(index)) {
        Some(land) => {
            land.section = Some(section);
            true
        }
        None => false,
    }
}
