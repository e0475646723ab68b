//! Where what a changed text names comes from in the text.
ghost use Rattle.std.specs.Prelude.{◌≡◌, ◌+◌, ◌-◌, ◌≤◌, ◌++◌, ◌∷◌, [], IfOk, IfSome, drop, map};
ghost use Rattle.twp_rules.specs.Changes.{seen};
ghost use Rattle.twp_rules.specs.Origins.{land_mark, marks_of, marks_of_item, origin, origin_of, section_mark};
ghost use Rattle.twp_rules.specs.steps.Followed.{IsFollowed};

use crate::change::Change;
use crate::cursor::Cursor;
use crate::mark::Mark;
use crate::rule::Rule;
use std::alloc::{AllocError, Global};
use twp_grammar::{Item, Numeral};

/// A place in the text, and how far the changed text was followed for it.
#[derive(Clone, Copy)]
pub(crate) struct FollowedPlace {
    pub(crate) place: usize,
    pub(crate) cursor: Cursor,
}

/// What items name, with its places in the text. The items are those of the changed text from an
/// offset on. None if they don't go from left to right.
pub(crate) fn marks_of(
    alloc: Global,
    changes: &[Change<'_>],
    base: usize,
    items: &[Item],
) -> Result<Option<Vec<Mark>>, AllocError>
    ensures { IfOk result (λ it. IfSome it (λ marks.
        marks.items ≡ marks_of (map seen changes.now) base items.now)) }
{
    let mut marks = Vec::with_capacity(alloc, items.len())?;
    let mut cursor = Cursor {
        index: 0,
        at: 0,
        offset: 0,
    };
    for item in items {
        let Some(next) = add_marks(changes, base, item, cursor, &mut marks)? else {
            return Ok(None);
        };
        cursor = next;
    }
    Ok(Some(marks))
}

/// Adds what an item names, and returns how far the changed text was followed.
fn add_marks(
    changes: &[Change<'_>],
    base: usize,
    item: &Item,
    from: Cursor,
    marks: &mut Vec<Mark>,
) -> Result<Option<Cursor>, AllocError>
    requires { IsFollowed changes.now from }
    ensures followed { IfOk result (λ it. IfSome it (IsFollowed changes.now)) }
    ensures added { IfOk result (λ it. IfSome it (λ _.
        marks.new.items ≡ marks.old.items ++ marks_of_item (map seen changes.now) base item.now)) }
{
    match item {
        Item::Heading { .. } => Ok(Some(from)),
        Item::Sections { first, last, .. } => {
            let Some(next) = add_section(changes, base, *first, from, marks)? else {
                return Ok(None);
            };
            add_section(changes, base, *last, next, marks)
        }
        Item::Lots { first, .. } => add_land(changes, base, first.at, from, marks),
        Item::Chain { at, .. } => add_land(changes, base, *at, from, marks),
        Item::All { at } => add_land(changes, base, *at, from, marks),
    }
}

/// Adds the number of a section.
fn add_section(
    changes: &[Change<'_>],
    base: usize,
    number: Numeral,
    from: Cursor,
    marks: &mut Vec<Mark>,
) -> Result<Option<Cursor>, AllocError>
    requires { IsFollowed changes.now from }
    ensures followed { IfOk result (λ it. IfSome it (IsFollowed changes.now)) }
    ensures added { IfOk result (λ it. IfSome it (λ _.
        marks.new.items ≡ marks.old.items ++ section_mark (map seen changes.now) base number ∷ [])) }
{
    let Some(spot) = found(changes, base, number.at, from) else {
        return Ok(None);
    };
    marks.push(Mark::Section(number.value, spot.place))?;
    Ok(Some(spot.cursor))
}

/// Adds land.
fn add_land(
    changes: &[Change<'_>],
    base: usize,
    at: u32,
    from: Cursor,
    marks: &mut Vec<Mark>,
) -> Result<Option<Cursor>, AllocError>
    requires { IsFollowed changes.now from }
    ensures followed { IfOk result (λ it. IfSome it (IsFollowed changes.now)) }
    ensures added { IfOk result (λ it. IfSome it (λ _.
        marks.new.items ≡ marks.old.items ++ land_mark (map seen changes.now) base at ∷ [])) }
{
    let Some(spot) = found(changes, base, at, from) else {
        return Ok(None);
    };
    marks.push(Mark::Land(spot.place))?;
    Ok(Some(spot.cursor))
}

/// The origin of the byte at an offset, and how far the changed text was followed for it. None if
/// that offset is before what was followed.
pub(crate) fn found(
    changes: &[Change<'_>],
    base: usize,
    at: u32,
    from: Cursor,
) -> Option<FollowedPlace>
    requires { IsFollowed changes.now from }
    ensures place { IfSome result (λ it. it.place ≡ origin 0 (map seen changes.now) (base + at)) }
    ensures followed { IfSome result (λ it. IsFollowed changes.now it.cursor) }
{
    let offset = base.checked_add(at as usize)?;
    if offset < from.offset {
        return None;
    }
    let cursor = advanced(changes, from, offset);
    let place = place_from(changes, cursor, offset)?;
    Some(FollowedPlace { place, cursor })
}

/// A cursor advanced to the change that writes the byte at an offset, or to the first one after that byte.
fn advanced(changes: &[Change<'_>], from: Cursor, offset: usize) -> Cursor
    requires followed { IsFollowed changes.now from }
    requires order { from.offset ≤ offset }
    ensures followed { IsFollowed changes.now result }
    ensures order { result.offset ≤ offset }
{
    let mut cursor = from;
    for _ in from.index..changes.len() {
        let Some(change) = changes.get(cursor.index) else {
            return cursor;
        };
        let gap = change.start.saturating_sub(cursor.at);
        let left = offset - cursor.offset;
        if left < gap || left - gap < change.written.len() {
            return cursor;
        }
        cursor = Cursor {
            index: cursor.index + 1,
            at: change.end,
            offset: offset - (left - gap - change.written.len()),
        };
    }
    cursor
}

/// The origin of the byte at an offset, if that is before the end of what the next change writes,
/// or after all changes.
fn place_from(changes: &[Change<'_>], from: Cursor, offset: usize) -> Option<usize>
    requires followed { IsFollowed changes.now from }
    requires order { from.offset ≤ offset }
    ensures { IfSome result (λ place. place ≡ origin 0 (map seen changes.now) offset) }
{
    let left = offset - from.offset;
    let Some(change) = changes.get(from.index) else {
        return from.at.checked_add(left);
    };
    let gap = change.start.saturating_sub(from.at);
    if left < gap {
        return from.at.checked_add(left);
    }
    if left - gap < change.written.len() {
        return Some(origin_of(change.rule, change.start));
    }
    None
}

/// Where what a change writes comes from.
fn origin_of(rule: Rule, start: usize) -> usize
    ensures { result ≡ origin_of rule start }
{
    match rule {
        Rule::Copied(from, _) => from,
        Rule::CopiedStep(from, _) => from,
        _ => start,
    }
}
