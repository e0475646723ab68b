//! What a note says of a doubtful place.
use crate::note::acres::Reckoner;
use crate::note::heading::write_heading;
use crate::note::lists::{write_lots, write_sections};
use crate::note::parts::{write_joined, write_shared, write_spread};
use std::alloc::{AllocError, Global};
use twp_grammar::{Kind, Tokens};
use twp_read::{Doubt, DoubtfulPlace};

/// A text with a doubtful place, and what its acres are reckoned by.
#[derive(Clone, Copy)]
pub struct Doubtful<'a> {
    pub bytes: &'a [u8],
    pub at: usize,
    pub reckoner: Reckoner<'a>,
}

impl Doubtful<'_> {
    /// Appends the acres of land in parentheses, if it is on the plat.
    pub(crate) fn write_acres(
        &self,
        alloc: Global,
        land: &str,
        out: &mut String,
    ) -> Result<(), AllocError> {
        self.reckoner.write_acres(alloc, " (", land, ")", out)
    }
}

/// A sentence that has begun, with the reading of a doubtful place and the other one.
pub(crate) fn sentence_of(
    alloc: Global,
    reckoner: &Reckoner<'_>,
    bytes: &[u8],
    place: DoubtfulPlace,
    begun: String,
) -> Result<String, AllocError> {
    let mut text = begun;
    let doubtful = Doubtful {
        bytes,
        at: place.at,
        reckoner: *reckoner,
    };
    match place.doubt {
        Doubt::Joined => write_joined(alloc, &doubtful, &mut text)?,
        Doubt::Shared => write_shared(alloc, &doubtful, &mut text)?,
        Doubt::Spread => write_spread(alloc, &doubtful, &mut text)?,
        Doubt::Several => write_several(alloc, &doubtful, &mut text)?,
        Doubt::Padded => write_heading(&doubtful, &mut text)?,
    }
    Ok(text)
}

/// Appends what is said of a list after a word in the singular.
fn write_several(
    alloc: Global,
    doubtful: &Doubtful<'_>,
    out: &mut String,
) -> Result<(), AllocError> {
    let at = doubtful.at.min(doubtful.bytes.len());
    let mut tokens = Tokens::after(doubtful.bytes, at);
    match tokens.next() {
        Some(word) if word.kind == Kind::Lot => write_lots(alloc, doubtful, out),
        _ => write_sections(alloc, doubtful, out),
    }
}
