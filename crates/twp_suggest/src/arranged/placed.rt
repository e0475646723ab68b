//! The phrases of a text with what becomes of them.

use twp_draft::{PhraseKind, Placed};

/// Whether a phrase begins an exception.
pub fn has_except(list: &[Placed]) -> bool {
    for placed in list {
        if placed.phrase.kind == PhraseKind::Except {
            return true;
        }
    }
    false
}
