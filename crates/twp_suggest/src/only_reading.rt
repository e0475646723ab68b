//! What explanations suggest for a text that is not read: its reading, if it has only one that
//! names land on the plat; or why lots and aliquot parts can't describe the land.
ghost use Rattle.std.specs.Prelude.{[], ◌∷◌, IfOk, IfSome};
ghost use Rattle.twp_diagnose.specs.Suggestions.{IsOfTownship, NamesLandOf};
ghost use Rattle.twp_grid.specs.Lands.{Lotting, lotting};
ghost use Rattle.twp_grid.specs.Townships.{Designation};
ghost use Rattle.twp_suggest.specs.Told.{IsToldIn};
ghost use Rattle.twp_suggest.specs.Readings.{AreReadings};

mod told;

use crate::meaning::find_land;
use crate::only_reading::told::write_assumptions;
use crate::reading::{Reading, readings_of};
use std::alloc::{AllocError, Global};
use std::marker::PhantomData;
use twp_asides::beyond_of;
use twp_diagnose::{Suggested, Suggestion, Suggests};
use twp_draft::FindsPhrases;
use twp_grid::Township;
use twp_land::{Land, Lanes, Lotting};

/// The most bytes of a text whose readings are looked for.
const SHORT: usize = 4_000;

/// Suggests the reading of a text that has only one. The phrases of the text are found by `F`.
pub struct OnlyReading<F: FindsPhrases> {
    finder: PhantomData<F>,
}

impl<F: FindsPhrases> Suggests for OnlyReading<F> {
    fn suggest<P: Lotting>(
        alloc: Global,
        text: &[u8],
        township: Township,
        lots: &P,
    ) -> Result<Suggestion, AllocError>
        ensures on_plat { IfOk result (IsOfTownship (lotting (P.layout lots.now)) township) }
        ensures told { IfOk result (IsToldIn (lotting (P.layout lots.now)) text.now) }
    {
        if text.len() > SHORT {
            return Ok(Suggestion::Nothing);
        }
        let readings = readings_of::<F, P>(alloc, text, lots)?;
        match readings.as_slice() {
            [] => reason(alloc, text),
            [reading] => only(alloc, text, reading, township, lots),
            _ => Ok(Suggestion::Several),
        }
    }
}

/// Why lots and aliquot parts can't describe the land of a text that has no reading.
fn reason(alloc: Global, text: &[u8]) -> Result<Suggestion, AllocError>
    ensures on_plat { IfOk result (λ it. (lots : Lotting) (township : Designation)
        → IsOfTownship lots township it) }
    ensures told { IfOk result (λ it. (lots : Lotting) → IsToldIn lots text.now it) }
{
    match beyond_of(alloc, text)? {
        Some(beyond) => Ok(Suggestion::Beyond(beyond.reason)),
        None => Ok(Suggestion::Nothing),
    }
}

/// The only reading of a text; nothing if it doesn't name land on the plat of the township.
fn only<P: Lotting>(
    alloc: Global,
    text: &[u8],
    reading: &Reading<'_>,
    township: Township,
    lots: &P,
) -> Result<Suggestion, AllocError>
    requires { AreReadings (lotting (P.layout lots.now)) text.now (reading.now ∷ []) }
    ensures on_plat { IfOk result (IsOfTownship (lotting (P.layout lots.now)) township) }
    ensures told { IfOk result (IsToldIn (lotting (P.layout lots.now)) text.now) }
{
    let shown = on_one_line(alloc, reading.text.as_slice().trim_ascii())?;
    let Some(shown) = if_on_plat(alloc, shown, township, lots)? else {
        return Ok(Suggestion::Nothing);
    };
    let mut assumptions = String::new(alloc);
    write_assumptions(text, reading.changes.as_slice(), &mut assumptions)?;
    Ok(Suggestion::Only(Suggested {
        text: shown,
        assumptions,
    }))
}

/// A text, if it names land on the plat of a township. Not inlined, since its set of land takes room.
#[inline(never)]
fn if_on_plat<P: Lotting>(
    alloc: Global,
    text: Vec<u8>,
    township: Township,
    lots: &P,
) -> Result<Option<Vec<u8>>, AllocError>
    ensures { IfOk result (λ it. IfSome it (λ text.
        NamesLandOf (lotting (P.layout lots.now)) township text.items)) }
{
    let mut land = Lanes::empty();
    if find_land(alloc, text.as_slice(), township, &mut land, lots)? {
        return Ok(Some(text));
    }
    Ok(None)
}

/// A description on one line: with a blank for all white space between its signs, and none before a mark.
fn on_one_line(alloc: Global, text: &[u8]) -> Result<Vec<u8>, AllocError> {
    let mut line = Vec::new(alloc);
    let mut is_apart = false;
    for byte in text {
        if byte.is_ascii_whitespace() {
            is_apart = true;
            continue;
        }
        if is_apart && !matches!(*byte, b',' | b';' | b'.' | b':') {
            line.push(b' ')?;
        }
        is_apart = false;
        line.push(*byte)?;
    }
    Ok(line)
}
