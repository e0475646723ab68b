/// What a number is that is copied at a place.
#[derive(Clone, Copy)]
pub(crate) enum NumberRole {
    /// No number is expected there.
    Nothing,
    /// That of a section.
    Section,
    /// That of a township.
    Tier,
    /// That of a range.
    Range,
}
