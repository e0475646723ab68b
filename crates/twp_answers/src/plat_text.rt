//! The text of a plat.
ghost use Rattle.std.specs.Prelude.{◌≡◌, ◌≤◌, ◌++◌, OnOk, IfOk};
ghost use Rattle.twp_grid.specs.Lots.{number_of_lots};
ghost use Rattle.twp_plat.specs.Pieces.{IsSectionArea};
ghost use Rattle.twp_plat.specs.PlatFigures.{PlatFigures, AreFigures};
ghost use Rattle.twp_answers.specs.PlatAnswers.{lot_text, total_text, section_name, section_line};
ghost use Rattle.twp_answers.specs.OnPlats.{IsTextOfPlat};

use itoa::Buffer;
use std::alloc::{AllocError, Global};
use twp_grid::{SECTIONS, Section, lot_count};
use twp_measure::{Area, write_acres};
use twp_plat::Plat;

/// The text of a plat: for each section, the acreage of its lots and of the section, and at the end
/// that of the township.
pub fn print_plat(alloc: Global, plat: &Plat) -> Result<Vec<u8>, AllocError>
    ensures { IfOk result (λ text. IsTextOfPlat plat.now text.items) }
{
    let mut text = Vec::new(alloc);
    let mut township = Area::zero(plat.over());
    for number in 1..SECTIONS + 1 {
        let section = Section::new(number).unwrap();
        let area = plat.section_area(section);
        write_section(plat, section, &area, &mut text)?;
        township = township.plus(&area);
    }
    text.extend_from_slice(b"township ")?;
    write_total(township.hundredths(), &mut text)?;
    Ok(text)
}

/// Appends the line of a section with this area.
fn write_section(
    plat: &Plat,
    section: Section,
    area: &Area,
    text: &mut Vec<u8>,
) -> Result<(), AllocError>
    requires area { IsSectionArea plat.now section area.now }
    ensures ok { (figures : PlatFigures) → AreFigures plat.now figures
        → OnOk result (text.new.items ≡ text.old.items ++ section_line figures section) }
{
    write_section_name(section, text)?;
    for lots_before in 0..lot_count(section) {
        let lot = lots_before + 1;
        write_lot(lot, lot_figure(plat, section, lot), text)?;
    }
    write_total(area.hundredths(), text)
}

/// Appends a section's number, such as `sec. 5: `.
fn write_section_name(section: Section, text: &mut Vec<u8>) -> Result<(), AllocError>
    ensures ok { OnOk result (text.new.items ≡ text.old.items ++ section_name section) }
{
    text.extend_from_slice(b"sec. ")?;
    text.extend_from_slice(Buffer::new().format(section.number()).as_bytes())?;
    text.extend_from_slice(b": ")
}

/// Appends a lot's number and its hundredths of an acre, such as `lot 1 40.45, `.
fn write_lot(lot: u8, hundredths: u64, text: &mut Vec<u8>) -> Result<(), AllocError>
    ensures ok { OnOk result (text.new.items ≡ text.old.items ++ lot_text lot hundredths) }
{
    text.extend_from_slice(b"lot ")?;
    text.extend_from_slice(Buffer::new().format(lot).as_bytes())?;
    text.extend_from_slice(b" ")?;
    write_acres(hundredths, text)?;
    text.extend_from_slice(b", ")
}

/// Appends the hundredths of an acre of a section or of the township, such as `total 642.40`, and a
/// line feed.
fn write_total(hundredths: u64, text: &mut Vec<u8>) -> Result<(), AllocError>
    ensures ok { OnOk result (text.new.items ≡ text.old.items ++ total_text hundredths) }
{
    text.extend_from_slice(b"total ")?;
    write_acres(hundredths, text)?;
    text.extend_from_slice(b"\n")
}

/// A lot's hundredths of an acre.
fn lot_figure(plat: &Plat, section: Section, lot: u8) -> u64
    requires least { 1 ≤ lot }
    requires most { lot ≤ number_of_lots section }
    ensures { (figures : PlatFigures) → AreFigures plat.now figures
        → result ≡ figures.lots section lot }
{
    plat.lot_hundredths(section, lot).unwrap()
}
