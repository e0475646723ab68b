ghost use Rattle.std.specs.Prelude.{◌≡◌, ℕ};
ghost use Rattle.std.specs.Option.{SomeIff};

use std::marker::Model;

/// Which side of the base line a township lies on.
#[derive(Clone, Copy, Debug, PartialEq, Eq)]
pub enum NorthSouth {
    /// North of the base line.
    N,
    /// South of the base line.
    S,
}

/// Which side of the principal meridian a range lies on.
#[derive(Clone, Copy, Debug, PartialEq, Eq)]
pub enum EastWest {
    /// East of the principal meridian.
    E,
    /// West of the principal meridian.
    W,
}

/// A township's designation, such as T. 2 N., R. 3 W., without its principal meridian. Both numbers
/// are 1 to 99 (this project's limit).
#[derive(Clone, Copy, PartialEq, Eq)]
pub struct Township {
    tier_number: u8,
    tier_side: NorthSouth,
    range_number: u8,
    range_side: EastWest,
}

impl Model for Township {
    ghost use Rattle.twp_grid.specs.Townships.{Designation, designation, IsTownshipNumber};

    ghost Value = { Designation };

    ghost view = { λ t. designation t.tier_number t.tier_side t.range_number t.range_side };

    ghost invariant = { λ t. IsTownshipNumber t.tier_number × IsTownshipNumber t.range_number };

    ghost inverse = { λ d. record {
      tier_number = d.number;
      tier_side = d.north_south;
      range_number = d.range;
      range_side = d.east_west;
    } };
}

impl Township {
    ghost use Rattle.twp_grid.specs.Townships.{designation, IsTownshipNumber};

    /// The township with these numbers and directions. `None` if a number is outside 1 to 99.
    pub fn new(
        number: u8,
        north_south: NorthSouth,
        range: u8,
        east_west: EastWest,
    ) -> Option<Township>
        ensures { SomeIff result (IsTownshipNumber number × IsTownshipNumber range)
            (designation number north_south range east_west) }
    {
        if number < 1 || number > 99 || range < 1 || range > 99 {
            return None;
        }
        Some(Township {
            tier_number: number,
            tier_side: north_south,
            range_number: range,
            range_side: east_west,
        })
    }

    /// The township's number, 1 to 99.
    pub fn number(self) -> u8
        ensures value { result ≡ self.number }
        ensures range { IsTownshipNumber result }
    {
        self.tier_number
    }

    /// Whether the township lies north or south of the base line.
    pub fn north_south(self) -> NorthSouth
        ensures { result ≡ self.north_south }
    {
        self.tier_side
    }

    /// The range's number, 1 to 99.
    pub fn range(self) -> u8
        ensures value { result ≡ self.range }
        ensures range { IsTownshipNumber result }
    {
        self.range_number
    }

    /// Whether the range lies east or west of the principal meridian.
    pub fn east_west(self) -> EastWest
        ensures { result ≡ self.east_west }
    {
        self.range_side
    }
}
