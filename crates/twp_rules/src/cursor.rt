/// How far a changed text was followed: before a change, or to the end.
#[derive(Clone, Copy)]
pub(crate) struct Cursor {
    /// The index of the next change.
    pub(crate) index: usize,
    /// The place in the text from which on nothing was followed.
    pub(crate) at: usize,
    /// The offset of that place in the changed text.
    pub(crate) offset: usize,
}
