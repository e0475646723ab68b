//! Explanations of faults in descriptions: in a text that cannot be read, the sign at fault; in one that
//! names no land on the plat, the item at fault; a sentence for each fault, a
//! hint, and the only reading of the text.

mod help;
mod hints;
mod places;
mod stops;
mod text;

pub use places::write_land;
pub(crate) use places::write_lots_of;
pub use stops::{stop_of_places, stop_of_text};
