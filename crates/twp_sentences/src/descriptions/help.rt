//! What helps with a refused text: a hint on the refused sign, and the only reading of the text; or why
//! lots and aliquot parts can't describe its land.
ghost use Rattle.std.specs.Prelude.{◌≡◌, None, IfOk, IfSome};
ghost use Rattle.twp_diagnose.specs.Suggestions.{NamesLandOf};
ghost use Rattle.twp_grid.specs.Lands.{lotting};

use crate::descriptions::hints::{does_as_hinted, hint_on};
use std::alloc::{AllocError, Global};
use twp_diagnose::{Suggested, Suggestion, Suggests, Surroundings};
use twp_excerpt::{columns_of, write_escaped};
use twp_grid::Township;
use twp_land::Lotting;

/// The most columns of a reading that is shown: a line has 100, of which its beginning takes 11.
const READING_WIDTH: usize = 87;

/// The most columns of what is said before a reading: two lines, which may be broken before long words.
const ROOM_BEFORE: usize = 170;

/// What is said of land that lots and aliquot parts can't describe, before the reason.
const BEYOND: &str = "this can't be described by lots and aliquot parts of a regular township: ";

/// What is said of a reading that doesn't fit on a line.
const ONE_READING: &str =
    "this has one reading: python3 -m township suggest NOTES DESCRIPTION shows it";

/// What is said of several readings.
const SEVERAL_READINGS: &str =
    "this can be read in several ways: python3 -m township suggest NOTES DESCRIPTION shows them";

/// What helps with a refused text.
#[derive(Drop)]
pub(crate) struct Help {
    /// Lines, without the last line feed; empty if nothing helps. A line feed comes after a space.
    pub(crate) text: String,
    /// The reading that ends them, if one does.
    pub(crate) reading: Option<Vec<u8>>,
}

/// What helps with a text that is refused for the plat of a township.
pub(crate) fn help_with<S: Suggests, P: Lotting>(
    alloc: Global,
    sight: &Surroundings<'_>,
    township: Township,
    lots: &P,
) -> Result<Help, AllocError>
    ensures { IfOk result (λ help. IfSome help.reading
        (λ text. NamesLandOf (lotting (P.layout lots.now)) township text.items)) }
{
    match S::suggest(alloc, sight.text, township, lots)? {
        Suggestion::Nothing => hint_alone(alloc, sight),
        Suggestion::Beyond(reason) => beyond(alloc, reason),
        Suggestion::Several => several(alloc, sight),
        Suggestion::Only(reading) => with_reading(alloc, sight, reading),
    }
}

/// The hint, and no reading.
fn hint_alone(alloc: Global, sight: &Surroundings<'_>) -> Result<Help, AllocError>
    ensures { IfOk result (λ help. help.reading ≡ None) }
{
    let text = hint_on(alloc, sight)?;
    Ok(Help {
        text,
        reading: None,
    })
}

/// Why lots and aliquot parts can't describe the land.
fn beyond(alloc: Global, reason: &str) -> Result<Help, AllocError>
    ensures { IfOk result (λ help. help.reading ≡ None) }
{
    let mut text = String::new(alloc);
    text.push_str(BEYOND)?;
    text.push_str(reason)?;
    Ok(Help {
        text,
        reading: None,
    })
}

/// That there are several readings, of which a hint must not choose one.
fn several(alloc: Global, sight: &Surroundings<'_>) -> Result<Help, AllocError>
    ensures { IfOk result (λ help. help.reading ≡ None) }
{
    let mut text = hint_for(alloc, sight, b"")?;
    add(&mut text, " \n", SEVERAL_READINGS)?;
    Ok(Help {
        text,
        reading: None,
    })
}

/// The hint, and the reading on a line of its own, with what it assumes before it. If the reading doesn't
/// fit there, it is said that there is one.
fn with_reading(
    alloc: Global,
    sight: &Surroundings<'_>,
    reading: Suggested,
) -> Result<Help, AllocError>
    ensures { IfOk result (λ help. IfSome help.reading (λ text. text ≡ reading.text)) }
{
    let mut text = hint_for(alloc, sight, reading.text.as_slice())?;
    let mut shown = String::new(alloc);
    write_escaped(reading.text.as_slice(), &mut shown)?;
    let assumed = columns_of(reading.assumptions.as_str());
    if columns_of(shown.as_str()) > READING_WIDTH || assumed > ROOM_BEFORE {
        add(&mut text, " \n", ONE_READING)?;
        return Ok(Help {
            text,
            reading: None,
        });
    }
    if columns_of(text.as_str()).saturating_add(assumed) > ROOM_BEFORE {
        text = String::new(alloc);
    }
    add(&mut text, "; ", reading.assumptions.as_str())?;
    add(&mut text, " \n", "perhaps: ")?;
    text.push_str(shown.as_str())?;
    Ok(Help {
        text,
        reading: Some(reading.text),
    })
}

/// The hint on a text that has a reading; none if it says to do something else than the reading does.
fn hint_for(alloc: Global, sight: &Surroundings<'_>, reading: &[u8]) -> Result<String, AllocError> {
    let hint = hint_on(alloc, sight)?;
    if does_as_hinted(hint.as_str(), sight, reading) {
        return Ok(hint);
    }
    Ok(String::new(alloc))
}

/// Appends some words, with a separator before them if others are before them. Appends nothing for no words.
fn add(text: &mut String, separator: &str, words: &str) -> Result<(), AllocError> {
    if words.is_empty() {
        return Ok(());
    }
    if !text.is_empty() {
        text.push_str(separator)?;
    }
    text.push_str(words)
}
