ghost use Rattle.std.specs.Prelude.{IfOk};
ghost use Rattle.twp_diagnose.specs.Suggestions.{IsOfTownship};
ghost use Rattle.twp_grid.specs.Lands.{lotting};

use std::alloc::{AllocError, Global};
use twp_grid::Township;
use twp_land::Lotting;

/// What is known of a text that is not read, besides its fault.
#[derive(Drop)]
pub enum Suggestion {
    /// Nothing.
    Nothing,
    /// Lots and aliquot parts can't describe the land, for this reason.
    Beyond(&'static str),
    /// It has several readings.
    Several,
    /// It has one reading.
    Only(Suggested),
}

/// The only reading of a text, which names land on the plat at hand.
#[derive(Drop)]
pub struct Suggested {
    /// The reading, on one line.
    pub text: Vec<u8>,
    /// What it assumes that the text doesn't say; empty if it assumes nothing.
    pub assumptions: String,
}

/// What else is known of a text that is not read. The explanations take this as a type, so that they
/// don't depend on how texts are read that are written otherwise.
pub trait Suggests {
    /// Why lots and aliquot parts can't describe the land of a text, or how the text is read on the
    /// plat of a township with these lots.
    fn suggest<P: Lotting>(
        alloc: Global,
        text: &[u8],
        township: Township,
        lots: &P,
    ) -> Result<Suggestion, AllocError>
        ensures { IfOk result (IsOfTownship (lotting (P.layout lots.now)) township) };
}
