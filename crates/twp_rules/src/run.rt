/// Steps of a part that are written again at a place.
#[derive(Clone, Copy)]
pub(crate) struct CopiedSteps {
    /// Where they are written again in the text.
    pub(crate) place: usize,
    /// Where the first of them begins in the text.
    pub(crate) from: usize,
    /// Where the last of them ends.
    pub(crate) to: usize,
}
