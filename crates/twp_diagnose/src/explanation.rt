use crate::location::Location;
use twp_excerpt::{MessageParts, Span, Spot};
use twp_grid::Refusal;

/// Another place that an explanation names: where the land, the name, or the line was given before.
#[derive(Clone, Copy, PartialEq, Eq)]
pub struct OtherPlace {
    /// The number of its record, from 1; 0 in a text that is no list of records.
    pub number: u32,
    /// Its bytes in the file.
    pub span: Span,
}

/// An explanation of a refusal.
#[derive(Drop)]
pub struct Explanation {
    /// The refusal that is explained.
    pub refusal: Refusal,
    /// Where in its file the fault is shown.
    pub place: Location,
    /// On which line and in which column that is, where it is at one place.
    pub spot: Option<Spot>,
    /// Some lines, each with a line feed at its end.
    pub text: String,
    /// Where in the text its parts are.
    pub parts: MessageParts,
    /// The other place that it names, if it names one.
    pub other: Option<OtherPlace>,
    /// The reading of the text with which it ends, if it ends with one.
    pub reading: Option<Vec<u8>>,
}
