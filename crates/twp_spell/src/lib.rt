//! The canonical text of land: the parts that the land in each section is written as, and the text
//! of the whole, which is read back as that land.
#![tactic(auto)]

mod blocks;
mod fine_parts;
mod full_quarters;
pub mod laws;
mod line_start;
mod open_halves;
mod part_text;
mod spelling;
mod written_parts;

pub use blocks::part_blocks;
pub use spelling::{held_lots, spell, spell_set};
