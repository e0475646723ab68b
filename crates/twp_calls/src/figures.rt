//! The figures of a printed plat, as numbers.
ghost use Rattle.std.specs.Prelude.{◌≡◌, ◌≢◌, ◌+◌, ◌<◌};
ghost use Rattle.twp_plat.specs.PlatFigures.{PlatFigures, AreFigures};
ghost use Rattle.twp_calls.specs.Answers.{ACCEPTED};
ghost use Rattle.twp_calls.specs.Figures.{IsFiguresCall};
ghost use Rattle.twp_calls.specs.steps.Filling.{AreLotsTo, AreSectionsTo, IsOfPlace};

use crate::answer::TownshipAnswer;
use crate::plat::TownshipPlat;
use crate::verdict::{ACCEPTED, NO_PLAT};
use twp_grid::Section;
use twp_plat::Plat;

/// The most lots of a section, which section 6 has.
const LOTS_MOST: u8 = 7;

/// The number of places for lots: `LOTS_MOST` for each section.
const LOT_PLACES: usize = 252;

/// The number of places for sections.
const SECTION_PLACES: usize = 36;

/// The figures of a plat, in hundredths of an acre. Each is an exact area, rounded once, half up.
#[repr(C)]
#[derive(Clone, Copy)]
pub struct TownshipPlatFigures {
    /// Those of lots: seven places for each section, by the sections' numbers; 0 where there is no
    /// such lot.
    pub lots: [u64; LOT_PLACES],
    /// Those of sections, by their numbers.
    pub sections: [u64; SECTION_PLACES],
    /// That of the township.
    pub township: u64,
}

/// The figures that the printed plat shows: of each lot, of each section, and of the township.
pub fn township_figures(plat: &TownshipPlat, figures: &mut TownshipPlatFigures) -> TownshipAnswer
    ensures answer { IsFiguresCall plat.now figures.new result }
    ensures kept { result.verdict ≢ ACCEPTED → figures.new ≡ figures.old }
{
    let Some(plat) = plat.plat() else {
        return TownshipAnswer::bare(NO_PLAT);
    };
    let township = plat.township_area();
    *figures = TownshipPlatFigures {
        lots: lots_of(&plat),
        sections: sections_of(&plat),
        township: township.hundredths(),
    };
    TownshipAnswer::bare(ACCEPTED)
}

/// The figures of the lots, at their places.
fn lots_of(plat: &Plat) -> [u64; LOT_PLACES]
    ensures { (shown : PlatFigures) → AreFigures plat.now shown → AreLotsTo shown 252 result }
{
    let mut lots = [0; LOT_PLACES];
    for place in 0..LOT_PLACES as u8 {
        lots[usize::from(place)] = lot_at(plat, place);
    }
    lots
}

/// The figures of the sections, at their places.
fn sections_of(plat: &Plat) -> [u64; SECTION_PLACES]
    ensures { (shown : PlatFigures) → AreFigures plat.now shown → AreSectionsTo shown 36 result }
{
    let mut sections = [0; SECTION_PLACES];
    for place in 0..SECTION_PLACES as u8 {
        sections[usize::from(place)] = section_at(plat, place);
    }
    sections
}

/// The figure of the lot that has a place, or 0 if there is no such lot.
fn lot_at(plat: &Plat, place: u8) -> u64
    requires { place < 252 }
    ensures { (shown : PlatFigures) → AreFigures plat.now shown → IsOfPlace shown place result }
{
    let section = Section::new(place / LOTS_MOST + 1).unwrap();
    let found = plat.lot_hundredths(section, place % LOTS_MOST + 1);
    found.unwrap_or(0)
}

/// The figure of the section that has a place.
fn section_at(plat: &Plat, place: u8) -> u64
    requires { place < 36 }
    ensures { (shown : PlatFigures) → AreFigures plat.now shown
        → result ≡ shown.sections (place + 1) }
{
    let section = Section::new(place + 1).unwrap();
    let area = plat.section_area(section);
    area.hundredths()
}
