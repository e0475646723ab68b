//! Text that is left out because it repeats something, as in parentheses: it has to repeat what is
//! written just before it.
ghost use Rattle.std.specs.Prelude.{◌≡◌, ◌≤◌, ◌++◌, true, [], IfOk, length, drop, map, slice_range, take};
ghost use Rattle.twp_grid.specs.Lands.{lotting};
ghost use Rattle.twp_rules.specs.Changes.{AreChangesFrom, seen};
ghost use Rattle.twp_suggest.specs.Repeats.{AreRepeated, SaysAgain, SaysAgainBy, SaysLand, SaysNumber, has_repeated};
ghost use Rattle.twp_suggest.specs.Repeats.{are_in_place, is_for_repeated, is_in_place, is_said_from, says_nothing};

use crate::bytes::{after, between, front};
use crate::last_land::{is_without, names_last_land};
use crate::said::{
    is_loose, is_number_said, is_township_said, may_begin_number, may_begin_township, solid,
};
use std::alloc::{AllocError, Global};
use twp_draft::Again;
use twp_land::Lotting;
use twp_rules::{Change, Rule, are_changes, are_same, byte_before, changed, is_remark};

/// Whether each phrase that is left out since it repeats something says what is written just before it.
#[tactic(auto, using(crate::proofs::RepeatFacts::none_repeated))]
pub(crate) fn are_repeated<P: Lotting>(
    alloc: Global,
    text: &[u8],
    changes: &[Change<'_>],
    again: &Again<'_>,
    lots: &P,
) -> Result<bool, AllocError>
    requires { AreChangesFrom 0 text.now (map seen changes.now) }
    ensures { IfOk result (λ it. it ≡ true →
        AreRepeated (lotting (P.layout lots.now)) text.now [] 0 (map seen changes.now)) }
{
    if !has_repeated(changes) {
        return Ok(true);
    }
    all_say_again(alloc, text, changes, again, lots)
}

/// Whether some change is by the rule for what is repeated.
fn has_repeated(changes: &[Change<'_>]) -> bool
    ensures { result ≡ has_repeated (map seen changes.now) }
{
    for change in changes {
        if is_for_repeated(change.rule) {
            return true;
        }
    }
    false
}

/// Whether a rule is that for what is repeated.
fn is_for_repeated(rule: Rule) -> bool
    ensures { result ≡ is_for_repeated rule }
{
    match rule {
        Rule::Repeated => true,
        _ => false,
    }
}

/// The same, for changes of which some are by that rule. Not inlined, since few texts say something again.
#[inline(never)]
#[tactic(auto, using(crate::proofs::RepeatFacts::next_repeated, crate::proofs::RepeatFacts::end_within))]
fn all_say_again<P: Lotting>(
    alloc: Global,
    text: &[u8],
    changes: &[Change<'_>],
    again: &Again<'_>,
    lots: &P,
) -> Result<bool, AllocError>
    requires { AreChangesFrom 0 text.now (map seen changes.now) }
    ensures { IfOk result (λ it. it ≡ true →
        AreRepeated (lotting (P.layout lots.now)) text.now [] 0 (map seen changes.now)) }
{
    let mut made = Vec::with_capacity(alloc, text.len())?;
    let mut at = 0;
    for change in changes {
        made.extend_from_slice(between(text, at, change.start))?;
        let phrase = between(text, change.start, change.end);
        let is_said = says_again_by(alloc, made.as_slice(), phrase, change, again, lots)?;
        if !is_said {
            return Ok(false);
        }
        made.extend_from_slice(change.written)?;
        at = change.end;
    }
    Ok(true)
}

/// Whether a phrase says again what is before it, if it is left out by the rule for that.
fn says_again_by<P: Lotting>(
    alloc: Global,
    before: &[u8],
    phrase: &[u8],
    change: &Change<'_>,
    again: &Again<'_>,
    lots: &P,
) -> Result<bool, AllocError>
    ensures { IfOk result (λ it. it ≡ true →
        SaysAgainBy (lotting (P.layout lots.now)) change.now.rule before.now phrase.now) }
{
    if !is_for_repeated(change.rule) {
        return Ok(true);
    }
    says_again(alloc, before, phrase, change.start, again, lots)
}

/// Whether a phrase that begins at a place says again what is before it.
fn says_again<P: Lotting>(
    alloc: Global,
    before: &[u8],
    phrase: &[u8],
    start: usize,
    again: &Again<'_>,
    lots: &P,
) -> Result<bool, AllocError>
    ensures { IfOk result (λ it. it ≡ true →
        SaysAgain (lotting (P.layout lots.now)) before.now phrase.now) }
{
    let is_number = says_number(alloc, before, phrase)?;
    if is_number {
        return Ok(true);
    }
    for said in again.said.as_slice() {
        if said.start < start || said.end < said.start || phrase.len() < said.end - start {
            continue;
        }
        let (from, to) = (said.start - start, said.end - start);
        let Some(changes) = again.changes.get(said.changes.first..said.changes.end) else {
            continue;
        };
        let is_land = says_land(alloc, before, phrase, from, to, changes, lots)?;
        if is_land {
            return Ok(true);
        }
    }
    Ok(false)
}

/// Whether a phrase says a number again, or a township or range.
fn says_number(alloc: Global, before: &[u8], phrase: &[u8]) -> Result<bool, AllocError>
    ensures { IfOk result (λ it. it ≡ true → SaysNumber before.now phrase.now) }
{
    let said = solid(alloc, phrase)?;
    let at = place_of_last(before, said.len());
    let is_said = is_said_from(alloc, before, at, said.as_slice())?;
    Ok(is_said)
}

/// Where the last bytes of a text begin that aren't loose, so many of them.
fn place_of_last(text: &[u8], count: usize) -> usize
    ensures { result ≤ length text.now }
{
    let mut left = count;
    for index in 0..text.len() {
        if left == 0 {
            return text.len() - index;
        }
        if !is_loose(text[text.len() - 1 - index]) {
            left -= 1;
        }
    }
    0
}

/// Whether a number, or a township or range, is what a text ends with, from a place on.
fn is_said_from(alloc: Global, text: &[u8], at: usize, bytes: &[u8]) -> Result<bool, AllocError>
    requires { at ≤ length text.now }
    ensures { IfOk result (λ it. it ≡ is_said_from text.now at bytes.now) }
{
    let before = byte_before(text, at);
    let is_one = (is_number_said(bytes) && may_begin_number(before))
        || (is_township_said(bytes) && may_begin_township(before));
    if !is_one {
        return Ok(false);
    }
    let last = solid(alloc, after(text, at))?;
    Ok(are_same(last.as_slice(), bytes))
}

/// Whether a phrase says land again, by the bytes from one place up to another, with changes.
fn says_land<P: Lotting>(
    alloc: Global,
    before: &[u8],
    phrase: &[u8],
    from: usize,
    to: usize,
    changes: &[Change<'_>],
    lots: &P,
) -> Result<bool, AllocError>
    requires order { from ≤ to }
    requires within { to ≤ length phrase.now }
    ensures { IfOk result (λ it. it ≡ true →
        SaysLand (lotting (P.layout lots.now)) before.now phrase.now) }
{
    let land = between(phrase, from, to);
    let is_alone = says_nothing(front(phrase, from)) && says_nothing(after(phrase, to));
    if !is_alone || !are_in_place(changes) || !are_changes(land, changes) {
        return Ok(false);
    }
    let made = changed(alloc, land, changes)?;
    let is_last = names_last_land(alloc, before, made.as_slice(), lots)?;
    Ok(is_last)
}

/// Whether a text is a remark, and names nothing that is all of a section.
fn says_nothing(seen: &[u8]) -> bool
    ensures { result ≡ says_nothing seen.now }
{
    is_remark(seen) && is_without(b"all", seen)
}

/// Whether each change writes something instead of what is there.
fn are_in_place(changes: &[Change<'_>]) -> bool
    ensures { result ≡ are_in_place (map seen changes.now) }
{
    for change in changes {
        if !is_in_place(change.rule) {
            return false;
        }
    }
    true
}

/// Whether a rule writes something instead of what is there: nothing that was written before, or is
/// written elsewhere.
fn is_in_place(rule: Rule) -> bool
    ensures { result ≡ is_in_place rule }
{
    match rule {
        Rule::Repeated | Rule::Copied(_, _) | Rule::CopiedStep(_, _) => false,
        Rule::MovedSection | Rule::MovedHeading => false,
        _ => true,
    }
}
