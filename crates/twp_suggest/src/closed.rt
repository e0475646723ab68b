//! Whether the other way to read each place that can be read in two ways is given as well.
ghost use Rattle.std.specs.Prelude.{◌≡◌, ◌↔◌, true, All, Any, IfOk, IsTrue, length, map};
ghost use Rattle.twp_grammar.specs.Tokens.{seen as token};
ghost use Rattle.twp_grid.specs.Lands.{lotting};
ghost use Rattle.twp_rules.specs.declared.rule.Rule.TheVariants.{Word};
ghost use Rattle.twp_rules.specs.Changes.{seen};
ghost use Rattle.twp_suggest.specs.Closed.{AreClosed, AreWaysGiven, IsClosed, IsLandGiven};
ghost use Rattle.twp_suggest.specs.Closed.{IsLandOfReadings, IsWayGiven};
ghost use Rattle.twp_suggest.specs.Closed.{NamesSame};
ghost use Rattle.twp_suggest.specs.Readings.{IsReading};
ghost use Rattle.twp_suggest.specs.Sharing.{AreShared, AtToken, IsShared};
ghost use Rattle.twp_suggest.specs.Ways.{AreTurned, IfWay};

use crate::meaning::{Manner, find_land, find_own_land};
use crate::plain::is_plain;
use crate::reading::Reading;
use crate::sharing::{apart_after, has_place, head_after, here, joined_tokens, tail_after};
use crate::turned::{ChangeBefore, way_after};
use crate::way::{Way, text_by};
use std::alloc::{AllocError, Global};
use twp_grammar::Token;
use twp_grid::Township;
use twp_land::{Land, Lanes, Lotting, PlaceSet};
use twp_rules::{Change, Rule, changed};

/// Whether each other way to read a place of a text is given by some readings of it, if it names land.
pub(crate) fn are_closed<P: Lotting>(
    alloc: Global,
    text: &[u8],
    readings: &[Reading<'_>],
    lots: &P,
) -> Result<bool, AllocError>
    requires { All (IsReading (lotting (P.layout lots.now)) text.now) readings.now }
    ensures { IfOk result (λ it. it ≡ true → AreClosed (lotting (P.layout lots.now)) text.now readings.now) }
{
    for reading in readings {
        let is_given = is_closed(alloc, text, readings, reading, lots)?;
        if !is_given {
            return Ok(false);
        }
    }
    Ok(true)
}

/// Whether each other way to read a place of a reading is given.
fn is_closed<P: Lotting>(
    alloc: Global,
    text: &[u8],
    readings: &[Reading<'_>],
    own: &Reading<'_>,
    lots: &P,
) -> Result<bool, AllocError>
    requires { IsReading (lotting (P.layout lots.now)) text.now own.now }
    ensures { IfOk result (λ it. it ≡ true →
        IsClosed (lotting (P.layout lots.now)) text.now readings.now own.now) }
{
    if own.manner == Manner::Changed {
        return are_given(alloc, text, own.text.as_slice(), readings, own, lots);
    }
    is_closed_before(alloc, text, readings, own, lots)
}

/// The same for a reading whose changes make another text than its own. Not inlined, since most make that.
#[inline(never)]
fn is_closed_before<P: Lotting>(
    alloc: Global,
    text: &[u8],
    readings: &[Reading<'_>],
    own: &Reading<'_>,
    lots: &P,
) -> Result<bool, AllocError>
    requires { IsReading (lotting (P.layout lots.now)) text.now own.now }
    ensures { IfOk result (λ it. it ≡ true →
        IsClosed (lotting (P.layout lots.now)) text.now readings.now own.now) }
{
    let made = changed(alloc, text, own.changes.as_slice())?;
    are_given(alloc, text, made.as_slice(), readings, own, lots)
}

/// Whether each other way to read a place of what changes make of a text is given.
fn are_given<P: Lotting>(
    alloc: Global,
    text: &[u8],
    made: &[u8],
    readings: &[Reading<'_>],
    own: &Reading<'_>,
    lots: &P,
) -> Result<bool, AllocError>
    ensures { IfOk result (λ it. it ≡ true →
        AreWaysGiven (lotting (P.layout lots.now)) readings.now own.now text.now made.now
        (map seen own.now.changes.items)) }
{
    let is_turned = are_turned(alloc, text, made, readings, own, lots)?;
    if !is_turned || !has_place(made) {
        return Ok(is_turned);
    }
    if is_plain(text, made, own.changes.as_slice()) {
        return Ok(true);
    }
    is_shared(alloc, text, made, readings, own, lots)
}

/// Whether the other way at each change is given.
fn are_turned<P: Lotting>(
    alloc: Global,
    text: &[u8],
    made: &[u8],
    readings: &[Reading<'_>],
    own: &Reading<'_>,
    lots: &P,
) -> Result<bool, AllocError>
    ensures { IfOk result (λ it. it ≡ true →
        AreTurned (IsWayGiven (lotting (P.layout lots.now)) readings.now own.now made.now)
        text.now made.now Word 0 0 (map seen own.now.changes.items)) }
{
    let mut before = ChangeBefore {
        rule: Rule::Word,
        at: 0,
    };
    let mut place = 0;
    let mut left = own.changes.as_slice();
    while let [change, more @ ..] = left {
        let Some(here) = here(place, before.at, change.start) else {
            return Ok(false);
        };
        let Some(way) = way_after(before, text, made, here, change, more) else {
            return Ok(false);
        };
        let is_given = is_given(alloc, made, way, readings, own, lots)?;
        if !is_given {
            return Ok(false);
        }
        let Some(next) = here.checked_add(change.written.len()) else {
            return Ok(false);
        };
        place = next;
        before = ChangeBefore {
            rule: change.rule,
            at: change.end,
        };
        left = more;
    }
    Ok(true)
}

/// Whether the other ways at each token are given. Not inlined, since few texts
/// have such a place.
#[inline(never)]
fn is_shared<P: Lotting>(
    alloc: Global,
    text: &[u8],
    made: &[u8],
    readings: &[Reading<'_>],
    own: &Reading<'_>,
    lots: &P,
) -> Result<bool, AllocError>
    ensures { IfOk result (λ it. it ≡ true →
        IsShared (IsWayGiven (lotting (P.layout lots.now)) readings.now own.now made.now)
        text.now made.now (map seen own.now.changes.items)) }
{
    let Some(tokens) = joined_tokens(alloc, text, made, own.changes.as_slice())? else {
        return Ok(false);
    };
    are_all_given(alloc, made, tokens.as_slice(), readings, own, lots)
}

/// Whether the other ways at each of some tokens are given.
fn are_all_given<P: Lotting>(
    alloc: Global,
    made: &[u8],
    tokens: &[Token<'_>],
    readings: &[Reading<'_>],
    own: &Reading<'_>,
    lots: &P,
) -> Result<bool, AllocError>
    ensures { IfOk result (λ it. it ≡ true →
        AreShared (IsWayGiven (lotting (P.layout lots.now)) readings.now own.now made.now)
        (map seen own.now.changes.items) (length made.now) (map token tokens.now)) }
{
    let mut left = tokens;
    while let [first, more @ ..] = left {
        let are_given = are_at_token(alloc, made, first, more, readings, own, lots)?;
        if !are_given {
            return Ok(false);
        }
        left = more;
    }
    Ok(true)
}

/// Whether the other ways at a token before others are given.
fn are_at_token<P: Lotting>(
    alloc: Global,
    made: &[u8],
    first: &Token<'_>,
    more: &[Token<'_>],
    readings: &[Reading<'_>],
    own: &Reading<'_>,
    lots: &P,
) -> Result<bool, AllocError>
    ensures { IfOk result (λ it. it ≡ true →
        AtToken (IsWayGiven (lotting (P.layout lots.now)) readings.now own.now made.now)
        (map seen own.now.changes.items) (length made.now) (token first.now) (map token more.now)) }
{
    let changes = own.changes.as_slice();
    let Some(tail) = tail_after(changes, made.len(), first.kind, more) else {
        return Ok(false);
    };
    let has_tail = is_given(alloc, made, tail, readings, own, lots)?;
    if !has_tail {
        return Ok(false);
    }
    let Some(head) = head_after(changes, made.len(), first.kind, more) else {
        return Ok(false);
    };
    let has_head = is_given(alloc, made, head, readings, own, lots)?;
    if !has_head {
        return Ok(false);
    }
    let Some(apart) = apart_after(changes, first, more) else {
        return Ok(false);
    };
    let is_apart = is_given(alloc, made, apart, readings, own, lots)?;
    Ok(is_apart)
}

/// Whether there is no other way, or it is given.
#[inline(always)]
fn is_given<P: Lotting>(
    alloc: Global,
    made: &[u8],
    way: Option<Way>,
    readings: &[Reading<'_>],
    own: &Reading<'_>,
    lots: &P,
) -> Result<bool, AllocError>
    ensures { IfOk result (λ it. it ≡ true →
        IfWay (IsWayGiven (lotting (P.layout lots.now)) readings.now own.now made.now) way) }
{
    match way {
        None => Ok(true),
        Some(way) => is_way_given(alloc, made, way, readings, own, lots),
    }
}

/// Whether another way is given. Not inlined, since most texts have none.
#[inline(never)]
#[tactic(auto, using(crate::proofs::ClosedFacts::given_by_text, crate::proofs::ClosedFacts::given_by_land))]
fn is_way_given<P: Lotting>(
    alloc: Global,
    made: &[u8],
    way: Way,
    readings: &[Reading<'_>],
    own: &Reading<'_>,
    lots: &P,
) -> Result<bool, AllocError>
    ensures { IfOk result (λ it. it ≡ true →
        IsWayGiven (lotting (P.layout lots.now)) readings.now own.now made.now way) }
{
    let Some(other) = text_by(alloc, made, way)? else {
        return Ok(false);
    };
    if have_text(readings, other.as_slice()) {
        return Ok(true);
    }
    has_land_given(alloc, other.as_slice(), readings, own, lots)
}

/// Whether one of some readings has this text.
fn have_text(readings: &[Reading<'_>], text: &[u8]) -> bool
    ensures { IsTrue result → Any (λ reading. reading.text.items ≡ text.now) readings.now }
{
    for reading in readings {
        if has_text(reading, text) {
            return true;
        }
    }
    false
}

/// Whether a reading has this text.
fn has_text(reading: &Reading<'_>, text: &[u8]) -> bool
    ensures { IsTrue result ↔ (reading.now.text.items ≡ text.now) }
{
    reading.text.as_slice() == text
}

/// Whether a text names no land in the township of a reading, or that of one of some readings. Not inlined,
/// since its set of land would be cleared for each way.
#[inline(never)]
#[tactic(auto, using(crate::proofs::ClosedFacts::is_land_given))]
fn has_land_given<P: Lotting>(
    alloc: Global,
    text: &[u8],
    readings: &[Reading<'_>],
    own: &Reading<'_>,
    lots: &P,
) -> Result<bool, AllocError>
    ensures { IfOk result (λ it. it ≡ true →
        IsLandGiven (lotting (P.layout lots.now)) readings.now own.now text.now) }
{
    let mut land = Lanes::empty();
    let Some(township) = find_own_land(alloc, own.text.as_slice(), &mut land, lots)? else {
        return Ok(false);
    };
    let is_given = is_land_given(alloc, text, readings, township, lots)?;
    Ok(is_given)
}

/// Whether a text names no land in a township, or that of one of some readings. Not inlined, as
/// `has_land_given`.
#[inline(never)]
#[tactic(auto, using(crate::proofs::ClosedFacts::land_of_one))]
fn is_land_given<P: Lotting>(
    alloc: Global,
    text: &[u8],
    readings: &[Reading<'_>],
    township: Township,
    lots: &P,
) -> Result<bool, AllocError>
    ensures { IfOk result (λ it. it ≡ true →
        IsLandOfReadings (lotting (P.layout lots.now)) readings.now text.now township) }
{
    let mut land = Lanes::empty();
    let has_land = find_land(alloc, text, township, &mut land, lots)?;
    if !has_land {
        return Ok(true);
    }
    let is_given = have_land(alloc, &land, readings, township, lots)?;
    Ok(is_given)
}

/// Whether one of some readings names this land in a township.
#[tactic(auto, using(crate::proofs::ClosedFacts::any_here))]
fn have_land<P: Lotting>(
    alloc: Global,
    land: &Lanes,
    readings: &[Reading<'_>],
    township: Township,
    lots: &P,
) -> Result<bool, AllocError>
    ensures { IfOk result (λ it. it ≡ true →
        Any (NamesSame (lotting (P.layout lots.now)) township
        (⟦<Lanes as PlaceSet>⟧.places land.now)) readings.now) }
{
    for reading in readings {
        let is_same = names_land(alloc, land, reading, township, lots)?;
        if is_same {
            return Ok(true);
        }
    }
    Ok(false)
}

/// Whether a reading names this land in a township. Not inlined, since its set of land would be
/// cleared for each text.
#[inline(never)]
#[tactic(auto, using(crate::proofs::ClosedFacts::is_same))]
fn names_land<P: Lotting>(
    alloc: Global,
    land: &Lanes,
    reading: &Reading<'_>,
    township: Township,
    lots: &P,
) -> Result<bool, AllocError>
    ensures { IfOk result (λ it. it ≡ true →
        NamesSame (lotting (P.layout lots.now)) township
        (⟦<Lanes as PlaceSet>⟧.places land.now) reading.now) }
{
    let mut more = Lanes::empty();
    let has_more = find_land(alloc, reading.text.as_slice(), township, &mut more, lots)?;
    if !has_more {
        return Ok(false);
    }
    Ok(land.same(&more))
}
