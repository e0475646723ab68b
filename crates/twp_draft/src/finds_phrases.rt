//! What finds the phrases of a text, as a trait.

use crate::draft::Draft;
use std::alloc::AllocError;

/// What finds the phrases of a text. What arranges phrases, and what proposes changes, take this as a type,
/// so that they don't depend on how phrases are found. Nothing is promised of the phrases, since none of them
/// is trusted.
pub trait FindsPhrases {
    /// Adds the phrases of a text to a draft in which nothing was found yet. The draft is filled in place,
    /// because it is large: if it were returned, it would be copied several times.
    fn add_phrases<'a>(draft: &mut Draft<'a>) -> Result<(), AllocError>;
}
