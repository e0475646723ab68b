//! The lots of a plat as data, and the acreage returned for each.
ghost use Rattle.std.specs.Prelude.{◌≡◌, ◌≤◌, ◌<◌, ◌+◌, ◌-◌, ℕ, IfSome, MatchOption, get_or};
ghost use Rattle.std.specs.Option.{SomeIff};
ghost use Rattle.twp_grid.specs.Winding.{IsSection};
ghost use Rattle.twp_grid.specs.Lands.{LOT_NUMBER_MOST, STANDARD_LAYOUT};
ghost use Rattle.twp_land.specs.LotMaps.{layout_of_plat};
ghost use Rattle.twp_plat.specs.LotTables.{FIGURE_MOST, RETURNED_MOST, figure_of, standard_figure};
ghost use Rattle.twp_plat.specs.LotTables.{AreReturned, entered_count};
ghost use Rattle.twp_plat.specs.steps.Appending.{Appends, count_entered};

use twp_grid::{SECTIONS, Section};
use twp_land::PlatLots;

/// The greatest acreage of a lot, in hundredths of an acre: 999.99 acres (this project's limit).
pub const FIGURE_MOST: u32 = 99_999;

/// The highest number that a lot may have.
pub const LOT_MOST: usize = 99;

/// The most lots of a township for which acreage can be returned (this project's limit).
pub const RETURNED_MOST: usize = 1024;

/// The number of bounds of the figures of sections: where those of each begin, and the end.
pub const BOUNDS: usize = SECTIONS as usize + 1;

/// The number of standard lots in a township.
pub const LOTS: usize = 47;

/// How many standard lots the sections before each section have, by its number, and all sections.
pub(crate) const LOTS_BEFORE: [u16; BOUNDS] = [
    0, 4, 8, 12, 16, 20, 27, 31, 31, 31, 31, 31, 31, 31, 31, 31, 31, 31, 35, 39, 39, 39, 39, 39,
    39, 39, 39, 39, 39, 39, 43, 47, 47, 47, 47, 47, 47,
];

/// The numbers of the standard lots, in the order of the table of lots.
const LOT_NUMBERS: [u8; LOTS] = [
    1, 2, 3, 4, 1, 2, 3, 4, 1, 2, 3, 4, 1, 2, 3, 4, 1, 2, 3, 4, 1, 2, 3, 4, 5, 6, 7, 1, 2, 3, 4, 1,
    2, 3, 4, 1, 2, 3, 4, 1, 2, 3, 4, 1, 2, 3, 4,
];

/// The lots of a plat, and the acreage that it returns for each. Any value is valid.
#[repr(C)]
#[derive(Clone, Drop)]
pub struct ReturnedLots {
    /// Hundredths of an acre; more than 99,999 count as 0, which is none.
    pub figures: [u32; RETURNED_MOST],
    /// Where the figures of each section begin, by its number, and where those of the last end.
    pub first: [u16; BOUNDS],
    /// The number of the lot that each figure is for.
    pub numbers: [u8; RETURNED_MOST],
    /// The lots.
    pub plat: PlatLots,
}

impl ReturnedLots {
    /// The lots of a plat with the hundredths of an acre that are entered for them, by section and
    /// number, where 0 is none. `None` if they are entered for more lots than is possible.
    pub fn of(
        entered: &[[u32; LOT_MOST]; SECTIONS as usize],
        plat: PlatLots,
    ) -> Option<ReturnedLots>
        ensures { MatchOption result (RETURNED_MOST < entered_count entered.now)
            (λ lots. (entered_count entered.now ≤ RETURNED_MOST) × (lots.plat ≡ plat)
            × AreReturned entered.now lots) }
    {
        let mut figures = [0; RETURNED_MOST];
        let mut first = [0; BOUNDS];
        let mut numbers = [0; RETURNED_MOST];
        let mut used = 0;
        for index in 0..SECTIONS as usize {
            let Some(end) = append(&mut figures, &mut numbers, used, &entered[index]) else {
                return None;
            };
            used = end;
            first[index + 1] = end as u16;
        }
        Some(ReturnedLots {
            figures,
            first,
            numbers,
            plat,
        })
    }

    /// The standard lots with the hundredths of an acre that are returned for them, in the order of
    /// the table of lots, where 0 is none.
    pub fn standard(returned: &[u32; LOTS]) -> ReturnedLots
        ensures layout { layout_of_plat result.plat.mapped result.plat.map.positions
            result.plat.map.divided ≡ STANDARD_LAYOUT }
        ensures figures { (section number : ℕ) → IsSection section → 1 ≤ number
            → figure_of result section number ≡ standard_figure returned.now section number }
    {
        let mut figures = [0; RETURNED_MOST];
        let mut numbers = [0; RETURNED_MOST];
        for index in 0..LOTS {
            figures[index] = returned[index];
            numbers[index] = LOT_NUMBERS[index];
        }
        ReturnedLots {
            figures,
            first: LOTS_BEFORE,
            numbers,
            plat: PlatLots::standard(),
        }
    }

    /// The hundredths of an acre that are returned for a lot of a section. `None` if none are.
    pub fn figure(&self, section: Section, lot: u8) -> Option<u32>
        ensures figure { SomeIff result (0 < figure_of self.now section lot)
            (figure_of self.now section lot) }
        ensures most { IfSome result (λ figure. figure ≤ FIGURE_MOST) }
    {
        let mut index = usize::from(self.first[usize::from(section.number() - 1)]);
        let end = usize::from(self.first[usize::from(section.number())]);
        while index < end && index < RETURNED_MOST {
            if self.numbers[index] == lot {
                return valid(self.figures[index]);
            }
            index += 1;
        }
        None
    }
}

/// A figure, unless it is 0, or greater than the greatest.
fn valid(figure: u32) -> Option<u32>
    ensures { SomeIff result ((0 < figure) × (figure ≤ FIGURE_MOST)) figure }
{
    if figure == 0 || figure > FIGURE_MOST {
        return None;
    }
    Some(figure)
}

/// Appends what is entered for the lots of a section, and returns how many figures there are then.
/// `None` if they are too many.
fn append(
    figures: &mut [u32; RETURNED_MOST],
    numbers: &mut [u8; RETURNED_MOST],
    used: usize,
    entered: &[u32; LOT_MOST],
) -> Option<usize>
    requires { used ≤ RETURNED_MOST }
    ensures { MatchOption result (RETURNED_MOST < used + count_entered entered.now)
        (λ end. (end ≡ used + count_entered entered.now) × (end ≤ RETURNED_MOST)
        × Appends figures.old numbers.old figures.new numbers.new used end entered.now) }
{
    let mut end = used;
    for index in 0..last_entered(entered) as usize {
        if entered[index] != 0 {
            if end == RETURNED_MOST {
                return None;
            }
            figures[end] = entered[index];
            numbers[end] = index as u8 + 1;
            end += 1;
        }
    }
    Some(end)
}

/// The number of the last lot for which something is entered, or 0. The loop has no early exit, so
/// LLVM looks at many lots at once.
fn last_entered(entered: &[u32; LOT_MOST]) -> u32
    ensures most { result ≤ LOT_NUMBER_MOST }
    ensures rest { (index : ℕ) → result ≤ index → get_or entered.now index 0 ≡ 0 }
{
    let mut last = 0;
    for index in 0..LOT_MOST as u32 {
        if entered[index as usize] != 0 {
            last = index + 1;
        }
    }
    last
}
