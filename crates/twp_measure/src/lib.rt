//! What a survey measures: the lengths of its lines and areas of land as exact fractions; how acres
//! are printed; and the numerals in the texts of lengths and acres.
#![tactic(auto)]

mod area;
pub mod laws;
mod length;
mod numeral;

pub use area::{AREA_MAX, Area, HUNDREDTH_OF_AN_ACRE, write_acres};
pub use length::{Length, LengthFault};
pub use numeral::{digit, is_numeral, numeral_value};
