//! Whether the steps that are written again are all steps of a part, those after an `of`, or those before
//! one.
ghost use Rattle.std.specs.Prelude.{◌≡◌, true, IfSome, None, map, slice_range};
ghost use Rattle.twp_rules.specs.Changes.{changed_from, seen};
ghost use Rattle.twp_rules.specs.Copying.{are_cut_at_of, fits_run, is_joint, is_whole};
ghost use Rattle.twp_rules.specs.Copying.{copy_whole, keep_steps, run_after, seat};

use crate::apart::{begins_with_step, ends_after};
use crate::arrangement::part;
use crate::change::Change;
use crate::context::before;
use crate::figures::{is_white, without_white};
use crate::keeping::rest_of;
use crate::rule::Rule;
use crate::run::CopiedSteps;
use crate::same::{begins_with, ends_with};

/// Whether the steps that changes of a text write again are all of their part, those after an `of`, or those
/// before one, in the text that the changes make.
pub fn copy_whole(text: &[u8], made: &[u8], changes: &[Change<'_>]) -> bool
    requires { made.now ≡ changed_from 0 text.now (map seen changes.now) }
    ensures { result ≡ true → copy_whole text.now (map seen changes.now) ≡ true }
{
    keep_steps(made, changes)
}

/// The same, in any other text.
fn keep_steps(made: &[u8], changes: &[Change<'_>]) -> bool
    ensures { result ≡ true →
        keep_steps made.now (map seen changes.now) None (map seen changes.now) ≡ true }
{
    let mut run: Option<CopiedSteps> = None;
    for change in changes {
        if run.is_none() && !matches!(change.rule, Rule::CopiedStep(_, _)) {
            continue;
        }
        if !fits_run(made, changes, run, change.start, change.rule) {
            return false;
        }
        run = run_after(run, change.start, change.rule);
    }
    match run {
        Some(run) => is_whole(made, changes, run),
        None => true,
    }
}

/// Whether the steps before a change are whole, unless it writes the next step of their part at the same
/// place.
fn fits_run(
    made: &[u8],
    changes: &[Change<'_>],
    run: Option<CopiedSteps>,
    start: usize,
    rule: Rule,
) -> bool
    ensures { result ≡ true →
        fits_run made.now (map seen changes.now) run start rule ≡ true }
{
    let Some(run) = run else {
        return true;
    };
    match rule {
        Rule::CopiedStep(from, _) if run.place == start => {
            run.to <= from && are_joined(made, changes, run.to, from)
        }
        _ => is_whole(made, changes, run),
    }
}

/// Whether only `of` and `the` are between two steps of a text, in the text that changes make.
fn are_joined(made: &[u8], changes: &[Change<'_>], end: usize, next: usize) -> bool
    ensures { result ≡ true → is_joint (slice_range made.now (seat 0 0 (map seen changes.now) end)
        (seat 0 0 (map seen changes.now) next)) ≡ true }
{
    let (Some(one), Some(other)) = (seat(changes, end), seat(changes, next)) else {
        return false;
    };
    is_joint(part(made, one, other))
}

/// The steps that were written again, after a change at a place.
fn run_after(run: Option<CopiedSteps>, start: usize, rule: Rule) -> Option<CopiedSteps>
    ensures { result ≡ run_after run start rule }
{
    let Rule::CopiedStep(from, to) = rule else {
        return None;
    };
    match run {
        Some(run) if run.place == start => Some(CopiedSteps {
            place: start,
            from: run.from,
            to,
        }),
        _ => Some(CopiedSteps {
            place: start,
            from,
            to,
        }),
    }
}

/// Whether steps that are written again are all of their part, those after an `of`, or those before one.
fn is_whole(made: &[u8], changes: &[Change<'_>], run: CopiedSteps) -> bool
    ensures { result ≡ true → is_whole made.now (map seen changes.now) run ≡ true }
{
    let (Some(from), Some(to)) = (seat(changes, run.from), seat(changes, run.to)) else {
        return false;
    };
    are_cut_at_of(made, from, to)
}

/// Whether steps are neither right after a step nor right before one, and `of` is not both before and after
/// them.
fn are_cut_at_of(made: &[u8], from: usize, to: usize) -> bool
    ensures { result ≡ are_cut_at_of made.now from to }
{
    let front = before(made, from);
    let rest = without_white(rest_of(made, to));
    !ends_after(false, front)
        && !begins_with_step(rest)
        && !((ends_with(front, b"of ") || ends_with(front, b"of the ")) && begins_with(rest, b"of"))
}

/// Whether a text has only white space, and letters of `of` and `the`.
fn is_joint(seen: &[u8]) -> bool
    ensures { result ≡ is_joint seen.now }
{
    for byte in seen {
        if !is_white(*byte)
            && !matches!(byte.to_ascii_lowercase(), b'o' | b'f' | b't' | b'h' | b'e')
        {
            return false;
        }
    }
    true
}

/// Where a place of the text is in the changed text, before what is written there.
fn seat(changes: &[Change<'_>], spot: usize) -> Option<usize>
    ensures { IfSome result (λ it. it ≡ seat 0 0 (map seen changes.now) spot) }
{
    let mut at: usize = 0;
    let mut place: usize = 0;
    for change in changes {
        if change.start >= spot {
            return place.checked_add(spot.saturating_sub(at));
        }
        let here = place.checked_add(change.start.saturating_sub(at))?;
        place = here.checked_add(change.written.len())?;
        at = change.end;
    }
    place.checked_add(spot.saturating_sub(at))
}
