use std::fmt;

/// The tokens that are expected at the place where a description is wrong, depending on the tokens
/// before it.
#[derive(Clone, Copy, PartialEq, Eq)]
pub enum Expected {
    /// Before the first token.
    Beginning,
    /// After the `T` of a heading.
    TownshipNumber,
    /// After the number of the township.
    TownshipSide,
    /// After the direction of the township.
    Range,
    /// After the `R` of a heading.
    RangeNumber,
    /// After the number of the range.
    RangeSide,
    /// After a heading, or after the semicolon that ends a group.
    Sections,
    /// After `sec`, or after `and` in a list of sections.
    SectionNumber,
    /// After the number of one section.
    PartsOrSections,
    /// After the comma that follows it.
    PartOrSection,
    /// After an entry of a list of sections.
    MoreSections,
    /// After the last number of a range of sections.
    InclusiveOrMoreSections,
    /// After `to` in a list of sections.
    LastSection,
    /// After a comma in a list of sections.
    SectionOrAll,
    /// After the comma that follows the last number of a range of sections.
    InclusiveSectionOrAll,
    /// After the colon that follows several sections.
    All,
    /// After the `all` of several sections.
    GroupEnd,
    /// After `lot`.
    LotNumber,
    /// After an entry of a list of lots.
    MoreLots,
    /// After the last number of a range of lots.
    InclusiveOrMoreLots,
    /// After `to` in a list of lots.
    LastLot,
    /// After a comma or `and` in a list of lots.
    LotOrPart,
    /// After the comma that follows the last number of a range of lots.
    InclusiveLotOrPart,
    /// After the colon that follows one section, or after a separator between its parts.
    Part,
    /// After the letter of a half.
    Half,
    /// After the letters of a quarter.
    Quarter,
    /// After a step of an aliquot part.
    MoreStepsOrParts,
    /// After the `all` of one section.
    MoreParts,
    /// After `of`.
    Step,
    /// After the final period.
    Nothing,
}

/// Written as it is displayed. An error that contains it needs this impl, and deriving one for
/// thirty names would have to be proved for no use.
impl fmt::Debug for Expected {
    fn fmt<W: fmt::Write>(&self, f: &mut fmt::Formatter<W>) -> fmt::Result {
        fmt::Display::fmt(self, f)
    }
}

impl fmt::Display for Expected {
    fn fmt<W: fmt::Write>(&self, f: &mut fmt::Formatter<W>) -> fmt::Result {
        f.write_str(match self {
            Expected::Beginning => "`T.` of a heading, or `sec.`",
            Expected::TownshipNumber => "the township's number",
            Expected::TownshipSide => "`N` or `S`",
            Expected::Range => "`R.` of the range",
            Expected::RangeNumber => "the range's number",
            Expected::RangeSide => "`E` or `W`",
            Expected::Sections => "`sec.`",
            Expected::SectionNumber => "a section's number",
            Expected::PartsOrSections => "parts of the section, more sections, `;`, or the end",
            Expected::PartOrSection => "a part of the section, or another section's number",
            Expected::MoreSections => "more sections, `all`, `;`, or the end",
            Expected::InclusiveOrMoreSections =>
                "`inclusive` of the range, more sections, `all`, `;`, or the end",
            Expected::LastSection => "the number of the last section",
            Expected::SectionOrAll => "another section's number, or `all`",
            Expected::InclusiveSectionOrAll =>
                "`inclusive` of the range, another section's number, or `all`",
            Expected::All => "`all`",
            Expected::GroupEnd => "`;`, or the end",
            Expected::LotNumber => "a lot's number",
            Expected::MoreLots => "more lots, another part, `;`, or the end",
            Expected::InclusiveOrMoreLots =>
                "`inclusive` of the range, more lots, another part, `;`, or the end",
            Expected::LastLot => "the number of the last lot",
            Expected::LotOrPart => "another lot's number, or another part",
            Expected::InclusiveLotOrPart =>
                "`inclusive` of the range, another lot's number, or another part",
            Expected::Part => "`lot`, an aliquot part, or `all`",
            Expected::Half => "`1/2`",
            Expected::Quarter => "`1/4`",
            Expected::MoreStepsOrParts =>
                "`of` or more steps of an aliquot part, another part, `;`, or the end",
            Expected::MoreParts => "another part, `;`, or the end",
            Expected::Step => "what the aliquot part is of, as `NE1/4`",
            Expected::Nothing => "nothing more",
        })
    }
}
