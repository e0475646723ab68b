//! The other ways to read the places that changes decide: steps that are written again, and white
//! space between two steps, which is left out, or becomes a comma.
ghost use Rattle.std.specs.Prelude.{◌≡◌, ◌+◌, ◌≤◌, IfSome, length, map};
ghost use Rattle.twp_rules.specs.Changes.{seen};
ghost use Rattle.twp_suggest.specs.Ways.{are_shared, begins_step_at, copied_length, copies_at, ends_fraction};
ghost use Rattle.twp_suggest.specs.Ways.{ends_step_at, goes_on, is_beside_step, is_no_mark, leave_out};
ghost use Rattle.twp_suggest.specs.Ways.{parts_steps, solid_at, way_after, way_by, way_if, without_comma};
ghost use Rattle.twp_suggest.specs.Ways.{without_copies};

use crate::bytes::{after, byte_at, without_white};
use crate::way::Way;
use twp_rules::{Change, Rule, is_side};

/// What was before a change.
#[derive(Clone, Copy)]
pub(crate) struct ChangeBefore {
    /// The rule of the change before it.
    pub(crate) rule: Rule,
    /// Where that one ends in the text.
    pub(crate) at: usize,
}

/// The other way at a change that is at a place of the text that the changes make, before others.
/// None if it can't be told.
pub(crate) fn way_after(
    before: ChangeBefore,
    text: &[u8],
    made: &[u8],
    place: usize,
    change: &Change<'_>,
    changes: &[Change<'_>],
) -> Option<Option<Way>>
    ensures { IfSome result (λ way. way ≡ way_after before.rule before.at text.now made.now place
        (seen change.now) (map seen changes.now)) }
{
    if goes_on(before.rule, change.rule) && before.at == change.start {
        return Some(None);
    }
    way_by(text, made, place, change, changes)
}

/// The other way at a change that doesn't go on with what the one before it does.
fn way_by(
    text: &[u8],
    made: &[u8],
    at: usize,
    change: &Change<'_>,
    changes: &[Change<'_>],
) -> Option<Option<Way>>
    ensures { IfSome result (λ way. way ≡ way_by change.now.rule text.now made.now at
        (seen change.now) (map seen changes.now)) }
{
    match change.rule {
        Rule::CopiedStep(_, _) => without_copies(made, at, change, changes),
        Rule::OnePart => {
            let is_way = ends_step_at(made, at) && begins_step_at(made, at);
            Some(way_if(is_way, Way::Apart(at)))
        }
        Rule::Comma => without_comma(text, made, at, change, changes),
        _ => Some(None),
    }
}

/// The other way where steps are written again: without them.
fn without_copies(
    made: &[u8],
    at: usize,
    change: &Change<'_>,
    changes: &[Change<'_>],
) -> Option<Option<Way>>
    ensures { IfSome result (λ way. way ≡ without_copies made.now at
        (length change.now.written.now + copied_length change.now.start (map seen changes.now))) }
{
    let more = copied_length(change.start, changes)?;
    let size = change.written.len().checked_add(more)?;
    let end = at.checked_add(size)?;
    Some(way_if(are_shared(made, at, end), Way::LeftOut(at, end)))
}

/// The other way where a comma is written between two steps: without it.
fn without_comma(
    text: &[u8],
    made: &[u8],
    at: usize,
    change: &Change<'_>,
    changes: &[Change<'_>],
) -> Option<Option<Way>>
    ensures { IfSome result (λ way. way ≡ without_comma text.now made.now at
        (seen change.now) (map seen changes.now)) }
{
    if change.end > text.len() || at >= made.len() {
        return None;
    }
    let is_way = parts_steps(text, made, at, change, changes);
    Some(way_if(is_way, Way::LeftOut(at, solid_at(made, at + 1))))
}

/// A way, if there is that place.
pub(crate) fn way_if(is_way: bool, way: Way) -> Option<Way>
    ensures { result ≡ way_if is_way way }
{
    if is_way { Some(way) } else { None }
}

/// Whether a change goes on with what the one before it does.
fn goes_on(before: Rule, rule: Rule) -> bool
    ensures { result ≡ goes_on before rule }
{
    match (before, rule) {
        (Rule::CopiedStep(_, _), Rule::CopiedStep(_, _)) => true,
        (Rule::OnePart, Rule::OnePart) => true,
        _ => false,
    }
}

/// How many bytes the steps are that are written again at a place. None if they are too many.
fn copied_length(place: usize, changes: &[Change<'_>]) -> Option<usize>
    ensures { IfSome result (λ size. size ≡ copied_length place (map seen changes.now)) }
{
    let mut size: usize = 0;
    let mut left = changes;
    while let [change, more @ ..] = left {
        if !copies_at(change.rule, change.start, place) {
            break;
        }
        size = size.checked_add(change.written.len())?;
        left = more;
    }
    Some(size)
}

/// Whether a change that begins at a place writes a step again at another.
fn copies_at(rule: Rule, start: usize, place: usize) -> bool
    ensures { result ≡ copies_at rule start place }
{
    match rule {
        Rule::CopiedStep(_, _) => start == place,
        _ => false,
    }
}

/// Whether steps that are written again are the last ones of a part of the text, or the first ones.
fn are_shared(made: &[u8], from: usize, to: usize) -> bool
    ensures { result ≡ are_shared made.now from to }
{
    ends_step_at(made, from) || begins_step_at(made, to)
}

/// Whether a comma is written between two steps, where the text has nothing but white space, or a period.
fn parts_steps(
    text: &[u8],
    made: &[u8],
    at: usize,
    change: &Change<'_>,
    changes: &[Change<'_>],
) -> bool
    requires text { change.now.end ≤ length text.now }
    requires made { at + 1 ≤ length made.now }
    ensures { result ≡ parts_steps text.now made.now at (seen change.now) (map seen changes.now) }
{
    ends_step_at(made, at)
        && begins_step_at(made, solid_at(made, at + 1))
        && is_no_mark(text, change.start, change.end)
        && is_beside_step(text, change.end, changes)
}

/// Whether nothing is from one place of a text up to another, or a period.
fn is_no_mark(text: &[u8], start: usize, end: usize) -> bool
    ensures { result ≡ is_no_mark text.now start end }
{
    start == end || (start < end && end - start == 1 && byte_at(text, start) == 46)
}

/// Whether only white space is between a place of the text and the next step, which stays.
fn is_beside_step(text: &[u8], at: usize, changes: &[Change<'_>]) -> bool
    requires { at ≤ length text.now }
    ensures { result ≡ is_beside_step text.now at (map seen changes.now) }
{
    let place = solid_at(text, at);
    begins_step_at(text, place) && !leave_out(place, changes)
}

/// Whether the first of these changes leaves out the byte at a place.
fn leave_out(place: usize, changes: &[Change<'_>]) -> bool
    ensures { result ≡ leave_out place (map seen changes.now) }
{
    let [change, ..] = changes else {
        return false;
    };
    change.start <= place && place < change.end && change.written.len() == 0
}

/// Whether a step ends at a place.
fn ends_step_at(made: &[u8], at: usize) -> bool
    ensures { result ≡ ends_step_at made.now at }
{
    at >= 2 && ends_fraction(byte_at(made, at - 2), byte_at(made, at - 1))
}

/// Whether two bytes end a step.
pub(crate) fn ends_fraction(before: u8, last: u8) -> bool
    ensures { result ≡ ends_fraction before last }
{
    (before == 47 && (last == 50 || last == 52)) || (before == 194 && (last == 188 || last == 189))
}

/// Whether a step begins at a place.
fn begins_step_at(made: &[u8], at: usize) -> bool
    ensures { result ≡ begins_step_at made.now at }
{
    is_side(byte_at(made, at))
}

/// The place of the next byte that isn't white space.
fn solid_at(bytes: &[u8], at: usize) -> usize
    requires { at ≤ length bytes.now }
    ensures { result ≡ solid_at bytes.now at }
{
    bytes.len() - without_white(after(bytes, at)).len()
}
