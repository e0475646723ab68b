//! Land that lies with the only section of a changed text, without a list of what the text names.
ghost use Rattle.std.specs.Prelude.{◌≡◌, [], ◌∷◌, true, IfSome, None, map};
ghost use Rattle.twp_rules.specs.Changes.{seen};
ghost use Rattle.twp_rules.specs.Origins.{land_mark, marks_of, marks_of_item, section_mark};
ghost use Rattle.twp_rules.specs.steps.Alone.{IsAloneFrom, is_alone};
ghost use Rattle.twp_rules.specs.steps.Followed.{IsFollowed};

use crate::change::Change;
use crate::cursor::Cursor;
use crate::origins::found;
use twp_grammar::{Item, Numeral};

/// The only section so far, and where its land is in the text.
#[derive(Clone, Copy)]
pub(crate) struct Alone {
    /// The number of the section.
    pub(crate) number: u16,
    /// The place of that number in the text.
    pub(crate) section: usize,
    /// Whether the last land so far is after it.
    pub(crate) is_after: bool,
}

/// The only section so far, and how far the changed text was followed.
#[derive(Clone, Copy)]
struct Progress {
    alone: Option<Alone>,
    cursor: Cursor,
}

/// Whether a changed text names one section, before all of its land, and no land that is before the section
/// in the text follows land that is after it. The items are those of the changed text from an offset on.
#[tactic(auto, using(crate::proofs::AloneFacts::next_alone, crate::proofs::AloneFacts::none_left))]
pub(crate) fn is_alone(changes: &[Change<'_>], base: usize, items: &[Item]) -> bool
    ensures { result ≡ true → is_alone None (marks_of (map seen changes.now) base items.now) ≡ true }
{
    let mut progress = Progress {
        alone: None,
        cursor: Cursor {
            index: 0,
            at: 0,
            offset: 0,
        },
    };
    for item in items {
        let Some(next) = after_item(changes, base, item, progress) else {
            return false;
        };
        progress = next;
    }
    true
}

/// What is known after an item. None if it names another section, or land that may not follow the land before
/// it.
fn after_item(changes: &[Change<'_>], base: usize, item: &Item, it: Progress) -> Option<Progress>
    requires { IsFollowed changes.now it.cursor }
    ensures followed { IfSome result (λ next. IsFollowed changes.now next.cursor) }
    ensures alone { IfSome result (λ next.
        IsAloneFrom (marks_of_item (map seen changes.now) base item.now) it.alone next.alone) }
{
    match item {
        Item::Heading { .. } => Some(it),
        Item::Sections { first, last, .. } => after_section(changes, base, *first, *last, it),
        Item::Lots { first, .. } => after_land(changes, base, first.at, it),
        Item::Chain { at, .. } => after_land(changes, base, *at, it),
        Item::All { at } => after_land(changes, base, *at, it),
    }
}

/// What is known after the numbers of a section. None if they are of several, or another section was named.
#[tactic(auto, using(crate::proofs::AloneFacts::one_section))]
fn after_section(
    changes: &[Change<'_>],
    base: usize,
    first: Numeral,
    last: Numeral,
    it: Progress,
) -> Option<Progress>
    requires { IsFollowed changes.now it.cursor }
    ensures followed { IfSome result (λ next. IsFollowed changes.now next.cursor) }
    ensures alone { IfSome result (λ next. IsAloneFrom (section_mark (map seen changes.now) base first
        ∷ section_mark (map seen changes.now) base last ∷ []) it.alone next.alone) }
{
    if it.alone.is_some() || first.value != last.value || first.at != last.at {
        return None;
    }
    let spot = found(changes, base, first.at, it.cursor)?;
    Some(Progress {
        alone: Some(Alone {
            number: first.value,
            section: spot.place,
            is_after: false,
        }),
        cursor: spot.cursor,
    })
}

/// What is known after land. None if no section was named, or if this land is before the section in the text,
/// and the last land is after it.
#[tactic(auto, using(crate::proofs::AloneFacts::land_beside))]
fn after_land(changes: &[Change<'_>], base: usize, at: u32, it: Progress) -> Option<Progress>
    requires { IsFollowed changes.now it.cursor }
    ensures followed { IfSome result (λ next. IsFollowed changes.now next.cursor) }
    ensures alone { IfSome result (λ next.
        IsAloneFrom (land_mark (map seen changes.now) base at ∷ []) it.alone next.alone) }
{
    let alone = it.alone?;
    let spot = found(changes, base, at, it.cursor)?;
    let is_after = alone.section <= spot.place;
    if alone.is_after && !is_after {
        return None;
    }
    Some(Progress {
        alone: Some(Alone { is_after, ..alone }),
        cursor: spot.cursor,
    })
}
