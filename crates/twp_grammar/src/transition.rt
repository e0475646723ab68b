//! The state that each kind of token leads to from a state, with a method for each kind that
//! several states accept.

ghost use Rattle.std.specs.Prelude.{◌≡◌};
ghost use Rattle.std.specs.Option.{option_map};
ghost use Rattle.twp_grammar.specs.Grammar.{class_of, sec, lot, all, and, to, inclusive, north_south};
ghost use Rattle.twp_grammar.specs.Grammar.{east_west, corner, number, comma, semicolon, colon, stop};
ghost use Rattle.twp_grammar.specs.Grammar.{r};
ghost use Rattle.twp_grammar.specs.Machine.{next};

use crate::state::State;
use crate::tokens::Kind;

impl State {
    /// The state after one more token. `None` if no description begins with the tokens so far and
    /// this one.
    #[inline(always)]
    pub fn next(self, kind: Kind) -> Option<State>
        ensures { result ≡ next self (class_of kind) }
    {
        match kind {
            Kind::T => match self {
                State::Start => Some(State::Township),
                _ => None,
            },
            Kind::R => self.with_range(),
            Kind::Sec => self.with_sections(),
            Kind::Lot => self.with_part(State::Lot),
            Kind::All => self.with_all(),
            Kind::NorthSouth(_) => self.with_north_south(),
            Kind::EastWest(_) => self.with_east_west(),
            Kind::Corner(_) => self.with_step(State::Corner),
            Kind::Half => match self {
                State::Side => Some(State::Step),
                _ => None,
            },
            Kind::Quarter => match self {
                State::Corner => Some(State::Step),
                _ => None,
            },
            Kind::Of => match self {
                State::Step => Some(State::Of),
                _ => None,
            },
            Kind::The => match self {
                State::Of => Some(State::OfThe),
                _ => None,
            },
            Kind::Number(_) => self.with_number(),
            Kind::To => self.with_to(),
            Kind::Inclusive => self.with_inclusive(),
            Kind::Comma => self.with_comma(),
            Kind::And => self.with_and(),
            Kind::Semicolon => self.with_end(State::Semicolon),
            Kind::Colon => self.with_colon(),
            Kind::Stop => self.with_stop(),
            Kind::Other | Kind::BadNumber | Kind::BadByte => None,
        }
    }

    /// The `R` of a heading.
    #[inline(always)]
    fn with_range(self) -> Option<State>
        ensures { result ≡ next self r }
    {
        match self {
            State::TownshipSide | State::TownshipSideStop => Some(State::Range),
            State::TownshipComma => Some(State::Range),
            _ => None,
        }
    }

    /// The word before section numbers.
    #[inline(always)]
    #[tactic(auto, using(crate::proofs::StateFacts::sections_begin_there))]
    fn with_sections(self) -> Option<State>
        ensures { result ≡ next self sec }
    {
        if self.begins_sections() {
            Some(State::SectionWord)
        } else {
            None
        }
    }

    /// The first token of a part of one section, which leads to the given state.
    #[inline(always)]
    #[tactic(auto, using(crate::proofs::StateFacts::leads))]
    fn with_part(self, after: State) -> Option<State>
        ensures { result ≡ option_map (λ _. after) (next self lot) }
    {
        if self.begins_part() {
            Some(after)
        } else {
            None
        }
    }

    /// The first token of a step, which leads to the given state.
    #[inline(always)]
    #[tactic(auto, using(crate::proofs::StateFacts::leads))]
    fn with_step(self, after: State) -> Option<State>
        ensures { result ≡ option_map (λ _. after) (next self corner) }
    {
        if self.begins_step() {
            Some(after)
        } else {
            None
        }
    }

    /// `N` or `S`.
    #[inline(always)]
    #[tactic(auto, using(crate::proofs::StateFacts::north_south_of_step))]
    fn with_north_south(self) -> Option<State>
        ensures { result ≡ next self north_south }
    {
        if self.begins_step() {
            return Some(State::Side);
        }
        match self {
            State::TownshipNumber => Some(State::TownshipSide),
            _ => None,
        }
    }

    /// `E` or `W`.
    #[inline(always)]
    #[tactic(auto, using(crate::proofs::StateFacts::east_west_of_step))]
    fn with_east_west(self) -> Option<State>
        ensures { result ≡ next self east_west }
    {
        if self.begins_step() {
            return Some(State::Side);
        }
        match self {
            State::RangeNumber => Some(State::RangeSide),
            _ => None,
        }
    }

    /// `all`, of one section or of several.
    #[inline(always)]
    fn with_all(self) -> Option<State>
        ensures { result ≡ next self all }
    {
        match self {
            State::ListNumber
            | State::ListLast
            | State::ListInclusive
            | State::ListComma
            | State::ListLastComma
            | State::ListColon => Some(State::ListAll),
            _ => self.with_part(State::All),
        }
    }

    /// A number, of the heading or of a list.
    #[inline(always)]
    fn with_number(self) -> Option<State>
        ensures { result ≡ next self number }
    {
        match self {
            State::Township | State::TownshipStop => Some(State::TownshipNumber),
            State::Range | State::RangeStop => Some(State::RangeNumber),
            State::SectionWord | State::SectionStop => Some(State::SectionNumber),
            State::SectionComma | State::ListComma | State::ListLastComma | State::ListAnd => {
                Some(State::ListNumber)
            }
            State::ListTo => Some(State::ListLast),
            State::Lot | State::LotComma | State::LotLastComma | State::LotAnd => {
                Some(State::LotNumber)
            }
            State::LotTo => Some(State::LotLast),
            _ => None,
        }
    }

    /// `to`, after the first number of a range.
    #[inline(always)]
    fn with_to(self) -> Option<State>
        ensures { result ≡ next self to }
    {
        match self {
            State::SectionNumber | State::ListNumber => Some(State::ListTo),
            State::LotNumber => Some(State::LotTo),
            _ => None,
        }
    }

    /// `inclusive`, after a range.
    #[inline(always)]
    fn with_inclusive(self) -> Option<State>
        ensures { result ≡ next self inclusive }
    {
        match self {
            State::ListLast | State::ListLastComma => Some(State::ListInclusive),
            State::LotLast | State::LotLastComma => Some(State::LotInclusive),
            _ => None,
        }
    }

    /// A comma.
    #[inline(always)]
    fn with_comma(self) -> Option<State>
        ensures { result ≡ next self comma }
    {
        match self {
            State::TownshipSide | State::TownshipSideStop => Some(State::TownshipComma),
            State::RangeSide | State::RangeSideStop => Some(State::BeforeGroup),
            State::SectionNumber => Some(State::SectionComma),
            State::ListNumber | State::ListInclusive => Some(State::ListComma),
            State::ListLast => Some(State::ListLastComma),
            State::LotNumber | State::LotInclusive => Some(State::LotComma),
            State::LotLast => Some(State::LotLastComma),
            State::Step | State::All => Some(State::PartComma),
            _ => None,
        }
    }

    /// `and`, which may come after a comma.
    #[inline(always)]
    fn with_and(self) -> Option<State>
        ensures { result ≡ next self and }
    {
        match self {
            State::Semicolon => Some(State::BeforeGroup),
            State::SectionNumber
            | State::SectionComma
            | State::ListNumber
            | State::ListLast
            | State::ListInclusive
            | State::ListComma
            | State::ListLastComma => Some(State::ListAnd),
            State::LotNumber
            | State::LotLast
            | State::LotInclusive
            | State::LotComma
            | State::LotLastComma => Some(State::LotAnd),
            State::PartComma | State::Step | State::All => Some(State::BeforePart),
            _ => None,
        }
    }

    /// The colon before the parts of one section, or before the `all` of several.
    #[inline(always)]
    fn with_colon(self) -> Option<State>
        ensures { result ≡ next self colon }
    {
        match self {
            State::SectionNumber => Some(State::BeforePart),
            State::ListNumber | State::ListLast | State::ListInclusive => Some(State::ListColon),
            _ => None,
        }
    }

    /// A period: after an abbreviation, or the final one.
    #[inline(always)]
    fn with_stop(self) -> Option<State>
        ensures { result ≡ next self stop }
    {
        match self {
            State::Township => Some(State::TownshipStop),
            State::TownshipSide => Some(State::TownshipSideStop),
            State::Range => Some(State::RangeStop),
            State::RangeSide => Some(State::RangeSideStop),
            State::SectionWord => Some(State::SectionStop),
            _ => self.with_end(State::End),
        }
    }

    /// The end of a group, which leads to the given state.
    #[inline(always)]
    fn with_end(self, after: State) -> Option<State>
        ensures { result ≡ option_map (λ _. after) (next self semicolon) }
    {
        match self {
            State::SectionNumber
            | State::ListNumber
            | State::ListLast
            | State::ListInclusive
            | State::ListAll
            | State::LotNumber
            | State::LotLast
            | State::LotInclusive
            | State::Step
            | State::All => Some(after),
            _ => None,
        }
    }
}
