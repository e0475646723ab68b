ghost use Rattle.std.specs.Prelude.{◌≡◌};
ghost use Rattle.std.specs.Option.{is_some};
ghost use Rattle.twp_grammar.specs.Grammar.{lot, corner, sec};
ghost use Rattle.twp_grammar.specs.Machine.{next, is_final, is_in_chain};
ghost use Rattle.twp_grammar.specs.Expected.{expected_of};

use crate::expected::Expected;

/// How far the tokens so far are into a description, named after the last token. These are the
/// states of the smallest machine that accepts the sentences of the grammar.
#[derive(Clone, Copy, PartialEq, Eq)]
pub enum State {
    /// Before the first token.
    Start,
    /// In a heading, such as `T. 2 N., R. 3 W.,`.
    Township,
    TownshipStop,
    TownshipNumber,
    TownshipSide,
    TownshipSideStop,
    TownshipComma,
    Range,
    RangeStop,
    RangeNumber,
    RangeSide,
    RangeSideStop,
    /// After a heading's comma, or after `and` between two groups: sections must follow.
    BeforeGroup,
    /// After the semicolon between two groups.
    Semicolon,
    /// In a group that has one section so far.
    SectionWord,
    SectionStop,
    SectionNumber,
    SectionComma,
    /// In a list of sections, from its first `to` or `and` on, or from the number of its second
    /// entry on.
    ListNumber,
    ListTo,
    ListLast,
    ListInclusive,
    ListComma,
    ListLastComma,
    ListAnd,
    /// After the colon that follows several sections.
    ListColon,
    /// After the `all` that follows several sections.
    ListAll,
    /// In a list of lots, from the word `lot` on.
    Lot,
    LotNumber,
    LotTo,
    LotLast,
    LotInclusive,
    LotComma,
    LotLastComma,
    LotAnd,
    /// Among the parts of one section, after a colon or after `and`: a part must follow.
    BeforePart,
    PartComma,
    /// After the letter of a half.
    Side,
    /// After the letters of a quarter.
    Corner,
    /// After a complete step of an aliquot part.
    Step,
    Of,
    OfThe,
    All,
    /// After the final period.
    End,
}

impl State {
    /// What is expected after the tokens so far.
    pub fn expected(self) -> Expected
        ensures { result ≡ expected_of self }
    {
        match self {
            State::Start => Expected::Beginning,
            State::Township | State::TownshipStop => Expected::TownshipNumber,
            State::TownshipNumber => Expected::TownshipSide,
            State::TownshipSide | State::TownshipSideStop | State::TownshipComma => Expected::Range,
            State::Range | State::RangeStop => Expected::RangeNumber,
            State::RangeNumber => Expected::RangeSide,
            State::RangeSide | State::RangeSideStop => Expected::Sections,
            State::BeforeGroup | State::Semicolon => Expected::Sections,
            State::SectionWord | State::SectionStop | State::ListAnd => Expected::SectionNumber,
            State::SectionNumber => Expected::PartsOrSections,
            State::SectionComma => Expected::PartOrSection,
            State::ListNumber | State::ListInclusive => Expected::MoreSections,
            State::ListLast => Expected::InclusiveOrMoreSections,
            State::ListTo => Expected::LastSection,
            State::ListComma => Expected::SectionOrAll,
            State::ListLastComma => Expected::InclusiveSectionOrAll,
            State::ListColon => Expected::All,
            State::ListAll => Expected::GroupEnd,
            State::Lot => Expected::LotNumber,
            State::LotNumber | State::LotInclusive => Expected::MoreLots,
            State::LotLast => Expected::InclusiveOrMoreLots,
            State::LotTo => Expected::LastLot,
            State::LotComma | State::LotAnd => Expected::LotOrPart,
            State::LotLastComma => Expected::InclusiveLotOrPart,
            State::BeforePart | State::PartComma => Expected::Part,
            State::Side => Expected::Half,
            State::Corner => Expected::Quarter,
            State::Step => Expected::MoreStepsOrParts,
            State::All => Expected::MoreParts,
            State::Of | State::OfThe => Expected::Step,
            State::End => Expected::Nothing,
        }
    }

    /// Whether the tokens so far are a sentence.
    #[inline(always)]
    pub fn is_final(self) -> bool
        ensures { result ≡ is_final self }
    {
        matches!(
            self,
            State::SectionNumber
                | State::ListNumber
                | State::ListLast
                | State::ListInclusive
                | State::ListAll
                | State::LotNumber
                | State::LotLast
                | State::LotInclusive
                | State::Step
                | State::All
                | State::End
        )
    }

    /// Whether one more step may follow in a sequence of steps.
    #[inline(always)]
    pub fn is_in_chain(self) -> bool
        ensures { result ≡ is_in_chain self }
    {
        matches!(self, State::Step | State::Of | State::OfThe)
    }

    /// Whether a group of sections may begin here.
    #[inline(always)]
    pub fn begins_sections(self) -> bool
        ensures { result ≡ is_some (next self sec) }
    {
        matches!(
            self,
            State::Start
                | State::RangeSide
                | State::RangeSideStop
                | State::BeforeGroup
                | State::Semicolon
        )
    }

    /// Whether a part of one section may begin here.
    #[inline(always)]
    pub fn begins_part(self) -> bool
        ensures { result ≡ is_some (next self lot) }
    {
        matches!(
            self,
            State::SectionNumber
                | State::SectionComma
                | State::LotComma
                | State::LotLastComma
                | State::LotAnd
                | State::BeforePart
                | State::PartComma
        )
    }

    /// Whether a step may begin here, which may be the first of a part.
    #[inline(always)]
    #[tactic(auto, using(crate::proofs::StateFacts::part_goes_on))]
    pub fn begins_step(self) -> bool
        ensures { result ≡ is_some (next self corner) }
    {
        self.is_in_chain() || self.begins_part()
    }
}
