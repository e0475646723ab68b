//! Readings of what people write as descriptions of land: which bytes of a text are left out, which are
//! written instead, by which rule, and the description that comes of this. The phrases of a text are put with
//! their sections (`arranged`), changes are proposed, and the text that they make is read (`meaning`).
//! An explanation shows the reading of a text that has only one (`only_reading`).
#![tactic(auto)]

mod arranged;
mod assumptions;
mod bytes;
mod candidates;
mod closed;
mod fractional;
mod gaps;
mod joints;
mod last_land;
mod meaning;
mod moved;
mod only_reading;
mod outline;
mod part_tokens;
mod phrases;
mod plain;
mod reading;
mod repeated;
mod said;
mod sharing;
mod turned;
mod way;
mod writer;

pub use assumptions::{Assumption, assumption_of};
pub use meaning::Manner;
pub use only_reading::OnlyReading;
pub use phrases::phrase_of;
pub use reading::{Reading, readings_of};
pub use twp_asides::{Beyond, beyond_of};
pub use twp_rules::{Change, Rule};
