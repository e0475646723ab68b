//! The writer of a text's changes: what becomes of the phrases that are arranged.

use crate::arranged::Plan;

/// The phrases of a text, whose changes are written.
#[derive(Drop)]
pub(crate) struct ChangeWriter<'p, 'a> {
    pub(crate) plan: &'p mut Plan<'a>,
}
