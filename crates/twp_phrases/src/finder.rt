//! The search for the phrases of a text: the draft of it, and what only the search has to know.

use std::alloc::AllocError;
use std::mem;
use twp_draft::{Draft, FindsPhrases};

/// Finds the phrases of a text, by a search from left to right.
pub struct Phrases;

impl FindsPhrases for Phrases {
    fn add_phrases<'a>(draft: &mut Draft<'a>) -> Result<(), AllocError> {
        draft.begin()?;
        let spare = Draft::new(*draft.phrases.allocator(), draft.pieces.text);
        let mut finder = Finder {
            draft: mem::replace(draft, spare),
            names_land: false,
            has_depths: false,
            has_open: false,
        };
        finder.add_phrases();
        *draft = finder.draft;
        draft.all_added()
    }
}

/// A search for phrases. How phrases of one kind are found is in the module for that kind: the function for
/// it adds the phrase at an index to the draft, and returns the index after it.
#[derive(Drop)]
pub(crate) struct Finder<'a> {
    /// What was found so far. The search owns it: a reference to it in a field can't be lent again.
    pub(crate) draft: Draft<'a>,
    /// Whether a section or land was found.
    pub(crate) names_land: bool,
    /// Whether land was said to be meant at some depths, in parentheses.
    pub(crate) has_depths: bool,
    /// Whether a parenthesis before land is open.
    pub(crate) has_open: bool,
}
