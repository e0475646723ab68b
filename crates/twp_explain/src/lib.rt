//! Explanations of refused input, so that its writer can correct it, and notes on accepted input, so that
//! its writer can say what is meant. For an explanation, the stages of the run are repeated on the bytes
//! that it read, and the message shows the fault that stops them; for a list of tracts, it shows the
//! tract with the fault. A note is on a place of a description that can be read in two ways, though the
//! grammar reads it in one: it gives the reading with its acres, and says how to write the other one.
#![tactic(auto)]

mod explaining;
mod list;
mod lot_lists;
mod note;
mod on_lots;
mod on_plat;
mod rows;
mod sharing;
mod tracts;

pub use explaining::{explain_land, explain_plat};
pub use list::explain_list;
pub use lot_lists::explain_tracts_by_lots;
pub use note::{
    Note, note_description, note_land, note_list, note_tracts, note_tracts_without_acres,
    note_without_acres, without_mark,
};
pub use on_lots::{explain_lacking, explain_lots};
pub use on_plat::{ExplainedFault, explain_description, explain_notes, explain_tracts};
