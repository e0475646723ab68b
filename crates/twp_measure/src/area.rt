ghost use Rattle.std.specs.Prelude.{◌≡◌, ◌+◌, ◌≤◌, ◌<◌, SomeIff, ◌++◌, OnOk, OnErr};
ghost use Rattle.twp_measure.specs.Areas.{Fraction, IsArea, MOST_UNITS, IsRounded, acres_text};

use itoa::write_digits;
use std::alloc::AllocError;
use std::marker::Model;

/// The most units that an area can have: 10 to the 24th. A township has about 2.3 times 10 to the
/// 11th units over 1, and about 10 to the 22nd over the greatest denominator of a plat.
pub const AREA_MAX: u128 = 1_000_000_000_000_000_000_000_000;

/// An area of land as an exact fraction: `units` square thousandths of a chain over `over`, which
/// is at least 1 (this project's rule). 10,000,000 units over 1 make an acre, which is 10 square
/// chains.
#[derive(Clone, Copy)]
pub struct Area {
    units: u128,
    over: u64,
}

impl Model for Area {
    ghost use Rattle.twp_measure.specs.Areas.{Fraction, IsArea};

    ghost Value = { Fraction };

    ghost view = { λ area. record { units = area.units; over = area.over } };

    ghost invariant = { λ area. IsArea area.units area.over };

    ghost inverse = { λ fraction. record { units = fraction.units; over = fraction.over } };
}

/// A hundredth of an acre, in square thousandths of a chain.
pub const HUNDREDTH_OF_AN_ACRE: u128 = 100_000;

impl Area {
    /// `units` over `over`, or `None` if `over` is 0 or `units` is more than `AREA_MAX`.
    pub fn new(units: u128, over: u64) -> Option<Area>
        ensures { SomeIff result (IsArea units over) (record { units = units; over = over }) }
    {
        if over == 0 || units > AREA_MAX {
            return None;
        }
        Some(Area { units, over })
    }

    /// Zero area, over the given denominator.
    pub fn zero(over: u64) -> Area
        requires { 0 < over }
        ensures { result ≡ record { units = 0; over = over } }
    {
        Area { units: 0, over }
    }

    /// The area in square thousandths of a chain, times `over`.
    pub fn units(&self) -> u128
        ensures value { result ≡ self.now.units }
        ensures range { result ≤ MOST_UNITS }
    {
        self.units
    }

    /// The number that the units are divided by.
    pub fn over(&self) -> u64
        ensures value { result ≡ self.now.over }
        ensures range { 0 < result }
    {
        self.over
    }

    /// The sum of two areas with the same denominator.
    pub fn plus(&self, other: &Area) -> Area
        requires same_over { self.now.over ≡ other.now.over }
        requires room { self.now.units + other.now.units ≤ MOST_UNITS }
        ensures units { result.units ≡ self.now.units + other.now.units }
        ensures over { result.over ≡ self.now.over }
    {
        let Area { units, over } = *self;
        Area {
            units: units + other.units,
            over,
        }
    }

    /// The area in hundredths of an acre, rounded half up.
    pub fn hundredths(&self) -> u64
        ensures { IsRounded self.now result }
    {
        let Area { units, over } = *self;
        let hundredth = HUNDREDTH_OF_AN_ACRE * u128::from(over);
        ((2 * units + hundredth) / (2 * hundredth)) as u64
    }
}

/// The most digits of whole acres.
const MOST_DIGITS: usize = 18;

/// Appends acres with two decimals, such as `39.05`, from hundredths of an acre. If memory runs
/// out, the vector is unchanged.
pub fn write_acres(hundredths: u64, out: &mut Vec<u8>) -> Result<(), AllocError>
    ensures ok { OnOk result (out.new.items ≡ out.old.items ++ acres_text hundredths) }
    ensures err { OnErr result (out.new.items ≡ out.old.items) }
{
    let mut text = [b'.'; MOST_DIGITS + 3];
    text[MOST_DIGITS + 1] = b'0' + (hundredths / 10 % 10) as u8;
    text[MOST_DIGITS + 2] = b'0' + (hundredths % 10) as u8;
    let start = write_digits(hundredths / 100, &mut text, MOST_DIGITS);
    out.extend_from_slice(&text[start..])
}
