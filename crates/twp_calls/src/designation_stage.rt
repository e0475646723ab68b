ghost use Rattle.std.specs.Prelude.{◌≡◌};
ghost use Rattle.twp_calls.specs.DesignationTexts.{sort_of, tier_word, range_word, complete, unit, tens, filled};
ghost use Rattle.twp_calls.specs.DesignationTexts.{north_south, east_west, stop, comma, hyphen, slash};
ghost use Rattle.twp_calls.specs.steps.DesignationSteps.{next_stage, ends_spelling};

use crate::designation_mark::DesignationMark;

/// How far the tokens so far are into a township's name, named after the last token. These are the
/// stages of the machine that reads the spellings.
#[derive(Clone, Copy, PartialEq, Eq)]
pub enum DesignationStage {
    /// Before the first token.
    Start,
    /// After the word for a township, and in its number.
    Tier,
    TierMark,
    TierNumber,
    TierTens,
    TierTensHyphen,
    TierHyphen,
    /// After the direction of a township.
    TierSide,
    TierStop,
    TierEnd,
    /// After the word for a range, and in its number.
    Range,
    RangeMark,
    RangeNumber,
    RangeTens,
    RangeTensHyphen,
    RangeHyphen,
    /// After the direction of a range.
    RangeSide,
    RangeStop,
    RangeEnd,
    /// In the number of a township that has no word before it.
    BareNumber,
    BareTens,
    BareTensHyphen,
    BareHyphen,
    BareSide,
    BareStop,
    /// After the digits of a register.
    Filled,
    FilledSide,
    FilledEnd,
    FilledRange,
}

impl DesignationStage {
    /// The stage after one more token. `None` if no spelling begins with the tokens so far and this one.
    pub fn next(self, mark: DesignationMark) -> Option<DesignationStage>
        ensures { result ≡ next_stage self (sort_of mark) }
    {
        match mark {
            DesignationMark::Township => self.with_township(),
            DesignationMark::Range => self.with_range(),
            DesignationMark::Number(_) => self.with_number(),
            DesignationMark::Unit(_) => self.with_unit(),
            DesignationMark::Tens(_) => self.with_tens(),
            DesignationMark::Filled(_) => self.with_filled(),
            DesignationMark::NorthSouth(_) => self.with_north_south(),
            DesignationMark::EastWest(_) => self.with_east_west(),
            DesignationMark::Stop => self.with_stop(),
            DesignationMark::Comma => self.with_comma(),
            DesignationMark::Hyphen => self.with_hyphen(),
            DesignationMark::Slash => self.with_slash(),
            DesignationMark::Other => None,
        }
    }

    /// The word for a township.
    fn with_township(self) -> Option<DesignationStage>
        ensures { result ≡ next_stage self tier_word }
    {
        match self {
            DesignationStage::Start => Some(DesignationStage::Tier),
            _ => None,
        }
    }

    /// The word for a range.
    fn with_range(self) -> Option<DesignationStage>
        ensures { result ≡ next_stage self range_word }
    {
        match self {
            DesignationStage::TierSide | DesignationStage::TierStop | DesignationStage::TierEnd =>
                Some(DesignationStage::Range),
            _ => None,
        }
    }

    /// A complete number.
    fn with_number(self) -> Option<DesignationStage>
        ensures { result ≡ next_stage self complete }
    {
        match self {
            DesignationStage::Start => Some(DesignationStage::BareNumber),
            DesignationStage::Tier | DesignationStage::TierMark => Some(
                DesignationStage::TierNumber,
            ),
            DesignationStage::Range
            | DesignationStage::RangeMark
            | DesignationStage::BareSide
            | DesignationStage::BareStop => Some(DesignationStage::RangeNumber),
            _ => None,
        }
    }

    /// A word from one to nine.
    fn with_unit(self) -> Option<DesignationStage>
        ensures { result ≡ next_stage self unit }
    {
        match self {
            DesignationStage::Start
            | DesignationStage::BareTens
            | DesignationStage::BareTensHyphen => Some(DesignationStage::BareNumber),
            DesignationStage::Tier
            | DesignationStage::TierMark
            | DesignationStage::TierTens
            | DesignationStage::TierTensHyphen => Some(DesignationStage::TierNumber),
            DesignationStage::Range
            | DesignationStage::RangeMark
            | DesignationStage::RangeTens
            | DesignationStage::RangeTensHyphen
            | DesignationStage::BareSide
            | DesignationStage::BareStop => Some(DesignationStage::RangeNumber),
            _ => None,
        }
    }

    /// `twenty` or `thirty`.
    fn with_tens(self) -> Option<DesignationStage>
        ensures { result ≡ next_stage self tens }
    {
        match self {
            DesignationStage::Start => Some(DesignationStage::BareTens),
            DesignationStage::Tier | DesignationStage::TierMark => Some(DesignationStage::TierTens),
            DesignationStage::Range
            | DesignationStage::RangeMark
            | DesignationStage::BareSide
            | DesignationStage::BareStop => Some(DesignationStage::RangeTens),
            _ => None,
        }
    }

    /// The digits of a register.
    fn with_filled(self) -> Option<DesignationStage>
        ensures { result ≡ next_stage self filled }
    {
        match self {
            DesignationStage::Start => Some(DesignationStage::Filled),
            DesignationStage::FilledSide | DesignationStage::FilledEnd => Some(
                DesignationStage::FilledRange,
            ),
            _ => None,
        }
    }

    /// A direction from the base line.
    fn with_north_south(self) -> Option<DesignationStage>
        ensures { result ≡ next_stage self north_south }
    {
        match self {
            DesignationStage::TierNumber
            | DesignationStage::TierTens
            | DesignationStage::TierTensHyphen
            | DesignationStage::TierHyphen => Some(DesignationStage::TierSide),
            DesignationStage::BareNumber
            | DesignationStage::BareTens
            | DesignationStage::BareTensHyphen
            | DesignationStage::BareHyphen => Some(DesignationStage::BareSide),
            DesignationStage::Filled => Some(DesignationStage::FilledSide),
            _ => None,
        }
    }

    /// A direction from the meridian.
    fn with_east_west(self) -> Option<DesignationStage>
        ensures { result ≡ next_stage self east_west }
    {
        match self {
            DesignationStage::RangeNumber
            | DesignationStage::RangeTens
            | DesignationStage::RangeTensHyphen
            | DesignationStage::RangeHyphen
            | DesignationStage::FilledRange => Some(DesignationStage::RangeSide),
            _ => None,
        }
    }

    /// A period.
    fn with_stop(self) -> Option<DesignationStage>
        ensures { result ≡ next_stage self stop }
    {
        match self {
            DesignationStage::Tier => Some(DesignationStage::TierMark),
            DesignationStage::TierSide => Some(DesignationStage::TierStop),
            DesignationStage::Range => Some(DesignationStage::RangeMark),
            DesignationStage::RangeSide => Some(DesignationStage::RangeStop),
            DesignationStage::BareSide => Some(DesignationStage::BareStop),
            _ => None,
        }
    }

    /// A comma.
    fn with_comma(self) -> Option<DesignationStage>
        ensures { result ≡ next_stage self comma }
    {
        match self {
            DesignationStage::TierSide | DesignationStage::TierStop => Some(
                DesignationStage::TierEnd,
            ),
            DesignationStage::RangeSide | DesignationStage::RangeStop => Some(
                DesignationStage::RangeEnd,
            ),
            DesignationStage::BareSide | DesignationStage::BareStop => Some(
                DesignationStage::RangeMark,
            ),
            DesignationStage::FilledSide => Some(DesignationStage::FilledEnd),
            _ => None,
        }
    }

    /// A hyphen.
    fn with_hyphen(self) -> Option<DesignationStage>
        ensures { result ≡ next_stage self hyphen }
    {
        match self {
            DesignationStage::Tier => Some(DesignationStage::TierMark),
            DesignationStage::TierNumber => Some(DesignationStage::TierHyphen),
            DesignationStage::TierTens => Some(DesignationStage::TierTensHyphen),
            DesignationStage::TierSide | DesignationStage::TierStop => Some(
                DesignationStage::TierEnd,
            ),
            DesignationStage::Range | DesignationStage::BareSide | DesignationStage::BareStop =>
                Some(DesignationStage::RangeMark),
            DesignationStage::RangeNumber => Some(DesignationStage::RangeHyphen),
            DesignationStage::RangeTens => Some(DesignationStage::RangeTensHyphen),
            DesignationStage::BareNumber => Some(DesignationStage::BareHyphen),
            DesignationStage::BareTens => Some(DesignationStage::BareTensHyphen),
            DesignationStage::FilledSide => Some(DesignationStage::FilledEnd),
            _ => None,
        }
    }

    /// A slash.
    fn with_slash(self) -> Option<DesignationStage>
        ensures { result ≡ next_stage self slash }
    {
        match self {
            DesignationStage::TierSide | DesignationStage::TierStop => Some(
                DesignationStage::TierEnd,
            ),
            DesignationStage::BareSide | DesignationStage::BareStop => Some(
                DesignationStage::RangeMark,
            ),
            DesignationStage::FilledSide => Some(DesignationStage::FilledEnd),
            _ => None,
        }
    }

    /// Whether the tokens so far are those of a spelling.
    pub fn ends_spelling(self) -> bool
        ensures { result ≡ ends_spelling self }
    {
        matches!(
            self,
            DesignationStage::RangeSide | DesignationStage::RangeStop | DesignationStage::RangeEnd
        )
    }
}
