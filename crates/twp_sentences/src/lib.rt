//! The sentences of explanations: for each fault of field notes, of notes that make no plat
//! (`field_notes`), of lot tables (`lot_tables`), and of descriptions (`descriptions`), a sentence, a hint,
//! and for descriptions the only reading of the text. What is at fault, and where, comes from `twp_diagnose`.
#![tactic(auto)]

mod descriptions;
mod field_notes;
mod lot_tables;

pub use descriptions::{stop_of_places, stop_of_text, write_land};
pub use field_notes::{stop_of_notes, stop_of_plat};
pub use lot_tables::{find_lacking, stop_of_lots};
