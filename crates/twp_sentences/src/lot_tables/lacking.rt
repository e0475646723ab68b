//! Land with a lot that a lot table lacks.
ghost use Rattle.std.specs.Prelude.{◌≡◌, None, IfOk};
ghost use Rattle.twp_plat.specs.LotsFaults.{lacking_refusal};
ghost use Rattle.twp_diagnose.specs.declared.location.Location.TheVariants.{Whole};

use std::alloc::{AllocError, Global};
use twp_diagnose::{Finding, Location};
use twp_grid::{Refusal, Section};
use twp_plat::{LOT_MOST, ReturnedLots};

/// The explanation of land with a lot of a section that a table lacks. It is not at one place of the text
/// that describes the land.
#[inline(never)]
pub fn find_lacking(
    alloc: Global,
    lots: &ReturnedLots,
    section: Section,
    lot: u8,
) -> Result<Finding, AllocError>
    ensures refusal { IfOk result (λ finding. finding.refusal ≡ lacking_refusal section lot) }
    ensures place { IfOk result (λ finding. finding.place ≡ Whole) }
    ensures other { IfOk result (λ finding. finding.other ≡ None) }
{
    let refusal = lacking(section, lot);
    let number = section.number();
    let mut sentence = String::new(alloc);
    write!(
        sentence,
        "the lot table has no record for lot {lot} of section {number}"
    )?;
    let mut help = String::new(alloc);
    write_lots_in(lots, section, &mut help)?;
    Ok(Finding::new(refusal, Location::Whole, sentence, help))
}

/// The refusal of land for a lot of a section.
fn lacking(section: Section, lot: u8) -> Refusal
    ensures { result ≡ lacking_refusal section lot }
{
    let at = 100 * u32::from(section.number()) + u32::from(lot);
    Refusal { number: 94, at }
}

/// Appends for which lots of a section a table has records.
fn write_lots_in(
    lots: &ReturnedLots,
    section: Section,
    out: &mut String,
) -> Result<(), AllocError> {
    let mut before: Option<u8> = None;
    for lot in 1..LOT_MOST as u8 + 1 {
        if lots.figure(section, lot).is_some() {
            write_joint(before, section, out)?;
            write!(out, "{lot}")?;
            before = Some(lot);
        }
    }
    if before.is_none() {
        write!(
            out,
            "it has no record for any lot of section {}",
            section.number()
        )?;
    }
    Ok(())
}

/// Appends what comes before the number of a lot: a comma after another one, or the beginning.
fn write_joint(before: Option<u8>, section: Section, out: &mut String) -> Result<(), AllocError> {
    match before {
        Some(_) => out.push_str(", "),
        None => write!(out, "of section {}, it has these lots: ", section.number()),
    }
}
