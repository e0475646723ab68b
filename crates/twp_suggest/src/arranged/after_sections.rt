//! Land that follows its sections, as in `Sec. 14: NE; Sec. 15: all`.

use crate::arranged::plan::Plan;
use twp_asides::plus;
use twp_draft::{Form, LeftOut, Phrase, PhraseKind, Placed, Role};
use twp_grammar::Kind;

/// A group of land: the section, and what is known of its land so far.
#[derive(Clone, Copy)]
struct Group {
    section: Phrase,
    has_land: bool,
    has_part: bool,
    /// Whether what follows is excepted.
    is_excepting: bool,
    /// Whether its parts are for each of several sections.
    is_shared: bool,
}

/// What was found before a phrase.
#[derive(Drop)]
struct GroupsSoFar {
    /// The last group.
    group: Option<Group>,
    /// How many groups there are, and how many of them but the last have no land.
    count: usize,
    landless: usize,
    /// Whether land has to follow a section that was named before.
    is_awaited: bool,
    /// Whether the last phrase begins an exception.
    is_first_excepted: bool,
    /// Whether something isn't sure.
    is_unsure: bool,
}

impl GroupsSoFar {
    /// Nothing.
    fn new() -> GroupsSoFar {
        GroupsSoFar {
            group: None,
            count: 0,
            landless: 0,
            is_awaited: false,
            is_first_excepted: false,
            is_unsure: false,
        }
    }

    /// Counts a group that ends.
    fn end_group(&mut self, group: &Group) {
        self.landless = plus(self.landless, usize::from(!group.has_land));
    }

    /// Takes land of a group.
    fn take_land(&mut self, placed: &mut Placed, group: Group) {
        placed.role = Role::Kept(self.count);
        self.is_awaited = false;
        let kind = placed.phrase.kind;
        let is_shared = group.is_shared || (!group.has_land && placed.section.is_some());
        self.is_unsure = self.is_unsure || (is_shared && kind != PhraseKind::Part);
        self.group = Some(Group {
            has_land: true,
            has_part: group.has_part || kind != PhraseKind::All,
            is_shared,
            ..group
        });
    }
}

/// The most pieces of a label and a township before a section.
const ITEM_MOST: usize = 16;

impl<'a> Plan<'a> {
    /// Places land after its sections.
    pub(crate) fn place_land_after(&mut self, list: &mut Vec<Placed>) {
        let mut found = GroupsSoFar::new();
        for index in 0..list.len() {
            let is_other = self.is_land_after_exception(list.as_slice(), index);
            let Some(placed) = list.get_mut(index) else {
                break;
            };
            if is_other {
                self.end_exception(placed, &mut found);
            } else {
                self.place_after(placed, &mut found);
            }
        }
        if self.is_unsure_at_end(list.as_slice(), &mut found) {
            self.draft.doubt();
        }
    }

    /// Whether what was found isn't sure when nothing follows.
    fn is_unsure_at_end(&self, list: &[Placed], found: &mut GroupsSoFar) -> bool {
        if let Some(last) = found.group {
            found.is_unsure = found.is_unsure || !self.is_sure_group(&last);
            found.end_group(&last);
        }
        if found.is_unsure || found.is_awaited || found.is_first_excepted {
            return true;
        }
        found.landless > 0
            && found.landless < found.count
            && !self.are_set_apart(list)
            && !self.are_all_whole(list)
    }

    /// Places a phrase.
    fn place_after(&self, placed: &mut Placed, found: &mut GroupsSoFar) {
        let phrase = placed.phrase;
        match (phrase.kind, found.group) {
            (kind, Some(group)) if is_of_exception(&group, kind) => {
                self.take_exception(placed, group, found)
            }
            (PhraseKind::Nothing(_) | PhraseKind::Heading, _) => {}
            (PhraseKind::Sections, Some(group))
                if group.has_land && self.is_same_section(group.section, phrase) => {
                placed.role = Role::LeftOut;
                found.is_unsure = found.is_unsure || found.is_awaited;
                found.is_awaited = !self.is_after_of(phrase);
            }
            (PhraseKind::Sections, group) => self.take_section_before_land(placed, group, found),
            (_, Some(group)) => found.take_land(placed, group),
            (_, None) => found.is_unsure = true,
        }
    }

    /// Takes land after an exception that can't be of it: the exception ends, and the land is of
    /// the same section.
    fn end_exception(&self, placed: &mut Placed, found: &mut GroupsSoFar) {
        let Some(group) = found.group else {
            return;
        };
        found.count = plus(found.count, 1);
        placed.role = Role::Kept(found.count);
        placed.section = Some(group.section.numbers);
        found.is_unsure = found.is_unsure || self.count_of(group.section) > 1;
        found.is_first_excepted = false;
        found.group = Some(Group {
            is_excepting: false,
            ..group
        });
    }

    /// Takes what begins an exception, or continues it.
    fn take_exception(&self, placed: &mut Placed, group: Group, found: &mut GroupsSoFar) {
        placed.role = Role::Kept(found.count);
        let is_word = placed.phrase.kind == PhraseKind::Except;
        if is_word {
            found.is_unsure = found.is_unsure
                || group.is_excepting
                || self.count_of(group.section) > 1
                || (found.count > 1 && self.is_set_apart(placed.phrase, group.section));
        } else if found.is_first_excepted {
            placed.section = Some(group.section.numbers);
        }
        found.is_first_excepted = is_word;
        found.group = Some(Group {
            is_excepting: true,
            ..group
        });
    }

    /// Takes a section, which begins a group after another one.
    fn take_section_before_land(
        &self,
        placed: &mut Placed,
        before: Option<Group>,
        found: &mut GroupsSoFar,
    ) {
        if let Some(group) = before {
            found.is_unsure = found.is_unsure
                || !self.is_sure_group(&group)
                || found.is_first_excepted;
            found.end_group(&group);
        }
        found.is_unsure = found.is_unsure || found.is_awaited;
        found.count = found.count.saturating_add(1);
        if placed.role == Role::Kept(0) {
            placed.role = Role::Kept(found.count);
        }
        found.group = Some(Group {
            section: placed.phrase,
            has_land: false,
            has_part: false,
            is_excepting: false,
            is_shared: false,
        });
    }

    /// Whether `of` or `in` is before a section, or `said` is in it, as in `the NW1/4 of said Section 9`,
    /// without a semicolon before it.
    fn is_after_of(&self, section: Phrase) -> bool {
        let pieces = &self.draft.pieces;
        let first = section.first;
        pieces.follows(first, b"of")
            || pieces.follows(first, b"in")
            || pieces.follows(first, b"said")
            || ((pieces.is(first, b"said") || pieces.is(first, b"same"))
                && !pieces.follows(first, b";"))
    }

    /// Whether an exception is set apart from the land before it, as its section is from other
    /// land: it may be from the land of each section. After a comma it isn't, if a semicolon or a
    /// line end is before the section.
    fn is_set_apart(&self, exception: Phrase, section: Phrase) -> bool {
        let pieces = &self.draft.pieces;
        let first = exception.first;
        let is_item = pieces.follows(section.first, b";")
            || pieces.has_before(section.first, b'\n')
            || self.is_after_label_of_item(section.first);
        pieces.follows(first, b";")
            || (pieces.follows(first, b",") && !is_item)
            || matches!(pieces.kind_before(first), Some(Kind::Stop))
            || pieces.has_before(first, b'\n')
    }

    /// Whether the label of a tract, a township, or both, begin a line or follow a semicolon, and
    /// end before an index, as in `Tract 2: T2N R3W, Section 17`.
    fn is_after_label_of_item(&self, index: usize) -> bool {
        let pieces = &self.draft.pieces;
        for count in 2..ITEM_MOST {
            let Some(first) = index.checked_sub(count) else {
                return false;
            };
            if pieces.has_before(first, b'\n') || pieces.follows(first, b";") {
                let end = pieces.end_of_tract(first).unwrap_or(first);
                return end == index || pieces.begins_tier(end);
            }
        }
        false
    }

    /// Whether it is sure which land a group has: several sections have none, or all of it is said to be
    /// theirs.
    fn is_sure_group(&self, group: &Group) -> bool {
        let is_plain = group.section.form != Form::Plural;
        let is_several = self.count_of(group.section) > 1;
        let is_unsure_list = is_plain
            && is_several
            && !group.has_land
            && self.has_range(group.section);
        !(is_several && group.has_part && !group.is_shared) && !is_unsure_list
    }

    /// Whether semicolons separate each section from those before it.
    fn are_set_apart(&self, list: &[Placed]) -> bool {
        let mut end: Option<usize> = None;
        for placed in list {
            let is_section = placed.phrase.kind == PhraseKind::Sections;
            // Several sections that share parts are left out where they are.
            let is_shared = is_section && self.count_of(placed.phrase) > 1;
            if placed.role == Role::LeftOut && !is_shared {
                continue;
            }
            if is_section {
                if let Some(end) = end {
                    if !self.has_kind(end, placed.phrase.first, Kind::Semicolon) {
                        return false;
                    }
                }
            }
            end = match placed.phrase.kind {
                PhraseKind::Heading => None,
                _ => Some(placed.phrase.end),
            };
        }
        true
    }

    /// Whether each section is whole, whichever of them `all` is said of, as in `Sec. 16 & Sec. 36: all`.
    fn are_all_whole(&self, list: &[Placed]) -> bool {
        let pieces = &self.draft.pieces;
        let mut joined: Option<usize> = None;
        for placed in list {
            let phrase = placed.phrase;
            match phrase.kind {
                PhraseKind::Heading | PhraseKind::Nothing(LeftOut::Meridian) => {}
                PhraseKind::All => joined = None,
                PhraseKind::Sections if joined.is_none() || joined == Some(phrase.first) => {
                    let is_and = matches!(pieces.kind(phrase.end), Kind::And)
                        || pieces.is(phrase.end, b"&");
                    joined = Some(plus(phrase.end, usize::from(is_and)));
                }
                _ => return false,
            }
        }
        joined.is_none()
    }
}

/// Whether a phrase begins the exception of a group, or continues it.
fn is_of_exception(group: &Group, kind: PhraseKind) -> bool {
    let is_land = matches!(kind, PhraseKind::Part | PhraseKind::Lots | PhraseKind::All);
    kind == PhraseKind::Except || (group.is_excepting && is_land)
}
