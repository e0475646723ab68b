//! Exact areas as plain data.
ghost use Rattle.twp_calls.specs.Calls.{IsFractionOf};

use twp_measure::Area;

/// How many values a word of 64 bits has.
const WORD: u128 = 1 << 64;

/// An exact area: `units` square thousandths of a chain over `over`, which is at least 1.
#[repr(C)]
#[derive(Clone, Copy)]
pub struct TownshipFraction {
    /// The low 64 bits of the units.
    pub units_low: u64,
    /// And the high ones.
    pub units_high: u64,
    /// What they are divided by.
    pub over: u64,
}

impl TownshipFraction {
    /// The parts of an area.
    pub(crate) fn of(area: &Area) -> TownshipFraction
        ensures { IsFractionOf result area.now }
    {
        let units = area.units();
        TownshipFraction {
            units_low: (units % WORD) as u64,
            units_high: (units / WORD) as u64,
            over: area.over(),
        }
    }
}
