/// The rule of a change: what it looks at, what it writes, and where, is in the specification
/// (`specs/Rules.antt`).
#[derive(Clone, Copy, Debug, PartialEq, Eq)]
pub enum Rule {
    /// A half is written `1/2`.
    Half,
    /// A quarter is written `1/4`.
    Quarter,
    /// A word for a side or a corner is written as its letters.
    Direction,
    /// A word for a number is written in digits.
    Numeral,
    /// A section's number, or a township's or a range's, is written where it belongs. It is in the
    /// text from one place up to another.
    Copied(usize, usize),
    /// A step of an aliquot part is written again where it belongs too. It is in the text from one
    /// place up to another.
    CopiedStep(usize, usize),
    /// A digit that scanning made a letter of, or a letter that it made a digit of.
    Damage,
    /// What follows is what the land is without.
    Exception,
    /// The zeros before a number are left out.
    Zeros,
    /// The fraction digit of a register is left out: a 0 after the number of a township or a range.
    FractionDigit,
    /// The township and range are written `T. 2 N., R. 3 W.`
    Heading,
    /// The word for a section or for several is written `sec.` or `secs.`
    SectionWord,
    /// The word for lots is written `lot` or `lots`.
    LotWord,
    /// A hyphen or a dash between numbers is written `thru`.
    Through,
    /// An ampersand is written `and`.
    And,
    /// Between the parts of a section, before them, and after a heading is a comma.
    Comma,
    /// Between one section, with its parts, and another is a semicolon.
    Semicolon,
    /// White space within a part is left out.
    OnePart,
    /// A mark that means nothing is left out.
    Mark,
    /// A word that means nothing is left out.
    Word,
    /// What is in parentheses, or after `being`, is left out: it is said before.
    Repeated,
    /// A section is left out where it is written before its land.
    MovedSection,
    /// A township and range are left out where they are written at the beginning.
    MovedHeading,
    /// The meridian, the state, or the county is left out, which is taken for that of the plat.
    Meridian,
    /// The acreage is left out, and isn't compared.
    Acreage,
    /// A label, which isn't land, is left out.
    Label,
}
