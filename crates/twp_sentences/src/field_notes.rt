//! Explanations of faults in field notes, and of notes that make no plat: which fields of a record are at
//! fault, a sentence for each fault, and a hint on how to correct it if the record's bytes show how.

mod blamed;
mod columns;
mod half_mile_hints;
mod lines;
mod note_faults;
mod note_hints;
mod notes;
mod plat;
mod stops;

pub(crate) use blamed::{FieldRange, unlike_township};
pub(crate) use note_faults::{write_section_fault, write_township_fault};
pub(crate) use note_hints::{begins, is_spaced, is_word, note_hint_on};
pub(crate) use notes::{EarlierRecord, other_of};
pub use stops::{stop_of_notes, stop_of_plat};
