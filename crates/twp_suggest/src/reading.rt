//! The readings of a text.
ghost use Rattle.std.specs.Prelude.{◌≡◌, ◌↔◌, true, IsTrue, IfOk, IfSome, All, None, map};
ghost use Rattle.twp_grid.specs.Lands.{lotting};
ghost use Rattle.twp_rules.specs.Arrangement.{lie_with_sections};
ghost use Rattle.twp_rules.specs.Changes.{AreChangesFrom, changed_from, seen};
ghost use Rattle.twp_rules.specs.Copying.{copy_whole};
ghost use Rattle.twp_suggest.specs.Descriptions.{IsClear, IsDescribed};
ghost use Rattle.twp_suggest.specs.Readings.{AreReadings, IsReading, AreOther};
ghost use Rattle.twp_suggest.specs.Readings.{AreSomeReadings, LiesExcepted, MayBeAdded};

use crate::candidates::{made_by, outline_of};
use crate::closed::are_closed;
use crate::meaning::{Manner, NoReading, Wording, described, find_land, find_own_land, is_clear};
use crate::outline::Outline;
use crate::repeated::are_repeated;
use std::alloc::{AllocError, Global};
use twp_draft::{Again, FindsPhrases};
use twp_land::{Land, Lanes, Lotting};
use twp_rules::{Change, are_changes, changed, copy_whole, lie_with_sections};

/// A reading of a text: the changes, from left to right, and the description that comes of them.
#[derive(Drop)]
pub struct Reading<'a> {
    pub changes: Vec<Change<'a>>,
    pub text: Vec<u8>,
    pub manner: Manner,
}

/// The most readings that are given.
const READINGS_MOST: usize = 8;

/// The readings of a text as descriptions on a plat with these lots, in a fixed order: none where
/// nothing is sure, one where the text can be read in only one way, and at most 8. Which there are
/// depends on the phrases that are found; what is promised of each doesn't.
#[tactic(auto, using(crate::proofs::ReadingFacts::none_of, crate::proofs::ReadingFacts::some_of, crate::proofs::ReadingFacts::no_readings))]
pub fn readings_of<'a, F: FindsPhrases, P: Lotting>(
    alloc: Global,
    text: &'a [u8],
    lots: &P,
) -> Result<Vec<Reading<'a>>, AllocError>
    ensures { IfOk result (λ readings.
        AreReadings (lotting (P.layout lots.now)) text.now readings.items) }
{
    if is_clear(alloc, text)? {
        return itself(alloc, text, lots);
    }
    let Some(outline) = outline_of::<F, P>(alloc, text, lots)? else {
        return Ok(Vec::new(alloc));
    };
    let readings = readings_by(alloc, text, outline, lots)?;
    let is_closed = are_closed(alloc, text, readings.as_slice(), lots)?;
    if !is_closed {
        return Ok(Vec::new(alloc));
    }
    Ok(readings)
}

/// The readings that the candidates lead to.
#[tactic(auto, using(crate::proofs::ReadingFacts::no_readings))]
fn readings_by<'a, P: Lotting>(
    alloc: Global,
    text: &'a [u8],
    mut outline: Outline<'a>,
    lots: &P,
) -> Result<Vec<Reading<'a>>, AllocError>
    ensures { IfOk result (λ readings.
        AreSomeReadings (lotting (P.layout lots.now)) text.now readings.items) }
{
    let mut readings = Vec::new(alloc);
    for number in 0..outline.candidates {
        let changes = outline.changes_of(alloc, number)?;
        let again = &outline.again;
        let found = match reading_with(alloc, text, changes, outline.has_except, again, lots) {
            Ok(found) => found,
            Err(NoReading::Unfit) => continue,
            Err(NoReading::Refused) => return Ok(Vec::new(alloc)),
            Err(NoReading::Memory) => return Err(AllocError),
        };
        let Some(reading) = found else {
            continue;
        };
        add(alloc, &mut readings, reading, lots)?;
    }
    Ok(readings)
}

/// Adds a reading to others, if there is room for it, and each of them has other land.
#[tactic(auto, using(crate::proofs::ReadingFacts::one_more))]
fn add<'a, P: Lotting>(
    alloc: Global,
    readings: &mut Vec<Reading<'a>>,
    new: Reading<'a>,
    lots: &P,
) -> Result<(), AllocError>
    ensures { IfOk result (λ _. MayBeAdded (lotting (P.layout lots.now)) new.entry
        readings.old.items readings.new.items) }
{
    if readings.len() >= READINGS_MOST {
        return Ok(());
    }
    let is_new = is_other(alloc, readings.as_slice(), &new, lots)?;
    if !is_new {
        return Ok(());
    }
    readings.push(new)?;
    Ok(())
}

/// The text itself, as its one reading. Not inlined, since few texts are clear.
#[tactic(auto, using(crate::proofs::ReadingFacts::only_itself))]
#[inline(never)]
fn itself<'a, P: Lotting>(
    alloc: Global,
    text: &'a [u8],
    _lots: &P,
) -> Result<Vec<Reading<'a>>, AllocError>
    requires { IsClear text.now }
    ensures { IfOk result (λ readings.
        AreReadings (lotting (P.layout _lots.now)) text.now readings.items) }
{
    let mut copy = Vec::new(alloc);
    copy.extend_from_slice(text)?;
    let mut readings = Vec::new(alloc);
    readings.push(Reading {
        changes: Vec::new(alloc),
        text: copy,
        manner: Manner::Changed,
    })?;
    Ok(readings)
}

/// The reading that changes make, if they are allowed and the reader accepts what they make. None if that
/// names some land twice, or a part that is too fine.
fn reading_with<'a, P: Lotting>(
    alloc: Global,
    text: &'a [u8],
    changes: Vec<Change<'a>>,
    has_except: bool,
    again: &Again<'_>,
    lots: &P,
) -> Result<Option<Reading<'a>>, NoReading>
    ensures { IfOk result (λ it. IfSome it (IsReading (lotting (P.layout lots.now)) text.now)) }
{
    if !are_changes(text, changes.as_slice()) {
        return unfit_or_refused(alloc, text, changes.as_slice(), has_except, lots);
    }
    let is_repeated = are_repeated(alloc, text, changes.as_slice(), again, lots)?;
    if !is_repeated {
        return Ok(None);
    }
    let made = changed(alloc, text, changes.as_slice())?;
    let Some(wording) = described(alloc, made, has_except, lots)? else {
        return Ok(None);
    };
    if !are_copied_whole(alloc, text, changes.as_slice(), &wording, lots)? {
        return Ok(None);
    }
    if !lies_with_sections(alloc, text, changes.as_slice(), &wording)? {
        return Ok(None);
    }
    Ok(Some(Reading {
        changes,
        text: wording.text,
        manner: wording.manner,
    }))
}

/// What comes of changes that aren't allowed: none if what they make names some land twice, or a part that is
/// too fine, so that another candidate may be a reading. Not inlined, since most changes are allowed.
#[inline(never)]
fn unfit_or_refused<'a, P: Lotting>(
    alloc: Global,
    text: &[u8],
    changes: &[Change<'_>],
    has_except: bool,
    lots: &P,
) -> Result<Option<Reading<'a>>, NoReading>
    ensures { IfOk result (λ it. it ≡ None) }
{
    let Some(made) = made_by(alloc, text, changes)? else {
        return Err(NoReading::Refused);
    };
    match described(alloc, made, has_except, lots)? {
        Some(_) => Err(NoReading::Refused),
        None => Ok(None),
    }
}

/// Whether the steps that changes of a text write again are all of their part. Only a text that is
/// accepted is asked for it: one that names land twice may write thousands of them again.
fn are_copied_whole<P: Lotting>(
    alloc: Global,
    text: &[u8],
    changes: &[Change<'_>],
    wording: &Wording,
    _lots: &P,
) -> Result<bool, AllocError>
    requires allowed { AreChangesFrom 0 text.now (map seen changes.now) }
    requires described { IsDescribed (lotting (P.layout _lots.now)) wording.now.manner
        (changed_from 0 text.now (map seen changes.now)) wording.now.text.items }
    ensures { IfOk result (λ it. it ≡ true → copy_whole text.now (map seen changes.now) ≡ true) }
{
    if let Manner::Changed = wording.manner {
        return Ok(copy_whole(text, wording.text.as_slice(), changes));
    }
    are_copied_whole_before(alloc, text, changes)
}

/// The same for changes that make another text than that of the reading. Not inlined, since most make that.
#[inline(never)]
fn are_copied_whole_before(
    alloc: Global,
    text: &[u8],
    changes: &[Change<'_>],
) -> Result<bool, AllocError>
    requires allowed { AreChangesFrom 0 text.now (map seen changes.now) }
    ensures { IfOk result (λ it. it ≡ true → copy_whole text.now (map seen changes.now) ≡ true) }
{
    let made = changed(alloc, text, changes)?;
    Ok(copy_whole(text, made.as_slice(), changes))
}

/// Whether the land of a changed text lies with the sections that the text gives it to.
fn lies_with_sections(
    alloc: Global,
    text: &[u8],
    changes: &[Change<'_>],
    wording: &Wording,
) -> Result<bool, AllocError>
    ensures items { IfOk result (λ it. it ≡ true →
        lie_with_sections text.now (map seen changes.now) 0 wording.now.items ≡ true) }
    ensures excepted { IfOk result (λ it. it ≡ true →
        LiesExcepted text.now (map seen changes.now) wording.now.excepted) }
{
    if !lie_with_sections(alloc, text, changes, 0, wording.items.items())? {
        return Ok(false);
    }
    match &wording.excepted {
        Some(part) => lie_with_sections(alloc, text, changes, part.at, part.items.items()),
        None => Ok(true),
    }
}

/// Whether the text of a reading is none of these readings' texts, and names other land.
fn is_other<P: Lotting>(
    alloc: Global,
    readings: &[Reading<'_>],
    new: &Reading<'_>,
    lots: &P,
) -> Result<bool, AllocError>
    ensures { IfOk result (λ it. it ≡ true →
        All (λ reading. AreOther (lotting (P.layout lots.now)) reading new.now) readings.now) }
{
    for reading in readings {
        let differs = are_other(alloc, reading, new, lots)?;
        if !differs {
            return Ok(false);
        }
    }
    Ok(true)
}

/// Whether two readings have different texts, which name different land.
#[inline(never)]
fn are_other<P: Lotting>(
    alloc: Global,
    one: &Reading<'_>,
    other: &Reading<'_>,
    lots: &P,
) -> Result<bool, AllocError>
    ensures { IfOk result (λ it. it ≡ true →
        AreOther (lotting (P.layout lots.now)) one.now other.now) }
{
    let are_texts = have_same_text(one, other);
    if are_texts {
        return Ok(false);
    }
    let mut land = Lanes::empty();
    let Some(township) = find_own_land(alloc, one.text.as_slice(), &mut land, lots)? else {
        return Ok(false);
    };
    let mut more = Lanes::empty();
    let has_more = find_land(alloc, other.text.as_slice(), township, &mut more, lots)?;
    if !has_more {
        return Ok(false);
    }
    Ok(!land.same(&more))
}

/// Whether two readings have the same text.
fn have_same_text(one: &Reading<'_>, other: &Reading<'_>) -> bool
    ensures { IsTrue result ↔ (one.now.text.items ≡ other.now.text.items) }
{
    one.text.as_slice() == other.text.as_slice()
}
