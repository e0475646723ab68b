//! Everything that is answered about a description, as plain data.
use crate::answer::TownshipAnswer;

/// Room for a canonical text.
pub(crate) const TEXT_ROOM: usize = 256;

/// Everything that is answered about a description.
#[repr(C)]
#[derive(Clone, Copy)]
pub struct TownshipFullAnswer {
    /// The answer of `township_acres`.
    pub acres: TownshipAnswer,
    /// The answer of `township_normal`, if there is room for texts of 256 bytes.
    pub normal: TownshipAnswer,
    /// The answer of `township_explain_description`, if there is no room for its text; or `acres` again,
    /// if that does not accept the description.
    pub note: TownshipAnswer,
    /// The text of `township_normal`; the bytes after it are as they were.
    pub text: [u8; TEXT_ROOM],
}
