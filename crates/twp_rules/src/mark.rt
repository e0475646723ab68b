/// What a changed text names, with its place in the text: the number of a section, or land in the
/// section named last.
#[derive(Clone, Copy)]
pub(crate) enum Mark {
    /// A section's number, and its place.
    Section(u16, usize),
    /// The place of land.
    Land(usize),
}
