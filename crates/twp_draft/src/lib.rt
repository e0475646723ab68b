//! What is found in a text that people write as a description of land: the phrases, what each of them names,
//! and the changes in it. None of this is trusted: each change is checked against its rule, and the text that
//! they make is read.
#![tactic(auto)]

mod again;
mod draft;
mod finds_phrases;
mod headings;
mod numerals;
mod phrase;
mod phrases;
mod steps;

pub use again::{Again, Said};
pub use draft::{Checkpoint, Draft, LastSection};
pub use finds_phrases::FindsPhrases;
pub use numerals::WrittenNumber;
pub use phrase::{Form, IndexRange, LeftOut, Phrase, PhraseKind, Placed, Role};
pub use steps::{PlacedStep, Thereof};
