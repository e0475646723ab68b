/// What is written elsewhere in a description than in the text.
#[derive(Clone, Copy)]
pub(crate) enum Moved {
    /// A section, or several.
    Section,
    /// A township and range.
    Heading,
}
