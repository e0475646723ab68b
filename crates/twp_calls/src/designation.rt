//! Designations of townships as plain data.
ghost use Rattle.std.specs.Prelude.{◌≡◌, ◌↔◌, IsTrue, MatchOption};
ghost use Rattle.twp_calls.specs.GivenTownships.{IsGivenTownship, IsNoGivenTownship};
ghost use Rattle.twp_calls.specs.GivenTownships.{given_designation};
ghost use Rattle.twp_calls.specs.GivenTownships.{north_south_of, east_west_of};
ghost use Rattle.twp_calls.specs.GivenTownships.{code_of_north_south, code_of_east_west};

use twp_grid::{EastWest, NorthSouth, Township};

/// The parts of a township's designation, whether they are valid or not.
#[repr(C)]
#[derive(Clone, Copy)]
pub struct TownshipDesignation {
    /// The township's number, 1 to 99.
    pub number: u8,
    /// 0 for north of the base line, 1 for south of it.
    pub north_south: u8,
    /// The range's number, 1 to 99.
    pub range: u8,
    /// 0 for east of the principal meridian, 1 for west of it.
    pub east_west: u8,
}

impl TownshipDesignation {
    /// The parts of a township's designation.
    pub(crate) fn of(township: Township) -> TownshipDesignation
        ensures { result ≡ given_designation township }
    {
        TownshipDesignation {
            number: township.number(),
            north_south: code_of_north_south(township.north_south()),
            range: township.range(),
            east_west: code_of_east_west(township.east_west()),
        }
    }

    /// The township with these parts, if there is one.
    pub(crate) fn township(self) -> Option<Township>
        ensures { MatchOption result (IsNoGivenTownship self) (IsGivenTownship self) }
    {
        Township::new(
            self.number,
            north_south_of(self.north_south)?,
            self.range,
            east_west_of(self.east_west)?,
        )
    }
}

/// Whether two designations are the same.
pub(crate) fn is_same_township(township: Township, other: Township) -> bool
    ensures { IsTrue result ↔ (township ≡ other) }
{
    township.number() == other.number()
        && township.north_south() == other.north_south()
        && township.range() == other.range()
        && township.east_west() == other.east_west()
}

/// The side of the base line that a number stands for.
fn north_south_of(code: u8) -> Option<NorthSouth>
    ensures { result ≡ north_south_of code }
{
    match code {
        0 => Some(NorthSouth::N),
        1 => Some(NorthSouth::S),
        _ => None,
    }
}

/// The side of the principal meridian that a number stands for.
fn east_west_of(code: u8) -> Option<EastWest>
    ensures { result ≡ east_west_of code }
{
    match code {
        0 => Some(EastWest::E),
        1 => Some(EastWest::W),
        _ => None,
    }
}

/// The number of a side of the base line.
fn code_of_north_south(side: NorthSouth) -> u8
    ensures { result ≡ code_of_north_south side }
{
    match side {
        NorthSouth::N => 0,
        NorthSouth::S => 1,
    }
}

/// The number of a side of the principal meridian.
fn code_of_east_west(side: EastWest) -> u8
    ensures { result ≡ code_of_east_west side }
{
    match side {
        EastWest::E => 0,
        EastWest::W => 1,
    }
}
