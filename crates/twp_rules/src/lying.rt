/// Land, and the section that it is in.
#[derive(Clone, Copy)]
pub(crate) struct Lying {
    /// The number of the section.
    pub(crate) number: u16,
    /// The place of that number in the text.
    pub(crate) section: usize,
    /// The place of the land in the text.
    pub(crate) land: usize,
}
