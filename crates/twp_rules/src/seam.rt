/// Where something is written after what was written before.
#[derive(Clone, Copy)]
pub(crate) struct Seam {
    /// Whether what was written ends with a step of a part.
    pub(crate) ends_step: bool,
    /// Whether something that may be between two parts was left out after it.
    pub(crate) lost: bool,
}
