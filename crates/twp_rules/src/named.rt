use crate::role::NumberRole;

/// What the text that changes make has named so far: the last section, and the last township and range.
#[derive(Clone, Copy)]
pub(crate) struct Named {
    /// What a number is that follows.
    pub(crate) next: NumberRole,
    /// The last number of a section.
    pub(crate) section: u16,
    /// The last number of a township.
    pub(crate) tier: u16,
    /// The letter of its side, in lowercase.
    pub(crate) tier_side: u8,
    /// The last number of a range.
    pub(crate) range: u16,
    /// The letter of its side, in lowercase.
    pub(crate) range_side: u8,
    /// The last byte.
    pub(crate) before: u8,
}
