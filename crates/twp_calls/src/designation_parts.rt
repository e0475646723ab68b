ghost use Rattle.std.specs.Prelude.{◌≡◌, ◌+◌};
ghost use Rattle.twp_grid.specs.Finding.{Finds};
ghost use Rattle.twp_calls.specs.DesignationTexts.{with_numeral, value_of_spelled, with_mark, no_parts, AreOf};
ghost use Rattle.twp_calls.specs.DesignationTexts.{with_number};
ghost use Rattle.twp_calls.specs.DesignationTexts.{number_of_refusal};

use crate::designation_mark::DesignationMark;
use twp_grid::{EastWest, NorthSouth, Township};

/// A number, as it is written in words: twenty-five is 20 and 5. Digits are all in `ones`.
#[derive(Clone, Copy)]
pub struct SpelledNumber {
    pub tens: u8,
    pub ones: u8,
}

impl SpelledNumber {
    /// The number with one more numeral.
    fn with_numeral(self, mark: DesignationMark) -> SpelledNumber
        ensures { result ≡ with_numeral self mark }
    {
        match mark {
            DesignationMark::Number(value)
            | DesignationMark::Unit(value)
            | DesignationMark::Filled(value) => SpelledNumber {
                tens: self.tens,
                ones: value,
            },
            DesignationMark::Tens(value) => SpelledNumber {
                tens: value,
                ones: self.ones,
            },
            _ => self,
        }
    }

    /// The number.
    fn value(self) -> u16
        ensures { result ≡ value_of_spelled self }
    {
        u16::from(self.tens) + u16::from(self.ones)
    }
}

/// The parts of a township that have been read.
#[derive(Clone, Copy)]
pub struct DesignationParts {
    pub tier: SpelledNumber,
    pub north_south: Option<NorthSouth>,
    pub range: SpelledNumber,
    pub east_west: Option<EastWest>,
}

impl DesignationParts {
    /// Before anything is read.
    pub fn none() -> DesignationParts
        ensures { result ≡ no_parts }
    {
        DesignationParts {
            tier: SpelledNumber { tens: 0, ones: 0 },
            north_south: None,
            range: SpelledNumber { tens: 0, ones: 0 },
            east_west: None,
        }
    }

    /// The parts after one more token.
    pub fn with(self, mark: DesignationMark) -> DesignationParts
        ensures { result ≡ with_mark self mark }
    {
        match mark {
            DesignationMark::NorthSouth(side) => DesignationParts {
                tier: self.tier,
                north_south: Some(side),
                range: self.range,
                east_west: self.east_west,
            },
            DesignationMark::EastWest(side) => DesignationParts {
                tier: self.tier,
                north_south: self.north_south,
                range: self.range,
                east_west: Some(side),
            },
            _ => self.with_number(mark),
        }
    }

    /// The parts after one more token that is no direction.
    fn with_number(self, mark: DesignationMark) -> DesignationParts
        ensures { result ≡ with_number self self.north_south mark }
    {
        match self.north_south {
            None => DesignationParts {
                tier: self.tier.with_numeral(mark),
                north_south: None,
                range: self.range,
                east_west: self.east_west,
            },
            Some(side) => DesignationParts {
                tier: self.tier,
                north_south: Some(side),
                range: self.range.with_numeral(mark),
                east_west: self.east_west,
            },
        }
    }

    /// The township with these parts, if none is missing.
    pub fn township(self) -> Option<Township>
        ensures { Finds result (AreOf self) }
    {
        let number = self.tier.value();
        let range = self.range.value();
        if number > 99 || range > 99 {
            return None;
        }
        Township::new(
            number as u8,
            self.north_south?,
            range as u8,
            self.east_west?,
        )
    }

    /// The number of the refusal of a text that goes wrong after these parts.
    pub fn refusal_number(self) -> u8
        ensures { result ≡ number_of_refusal self }
    {
        if self.tier.value() == 0 {
            return 31;
        }
        if self.north_south.is_none() {
            return 32;
        }
        if self.range.value() == 0 {
            return 33;
        }
        if self.east_west.is_none() { 34 } else { 35 }
    }
}
