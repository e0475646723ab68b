//! The township's grid: its sections, the section lines between them, the lots of its closing
//! sections, the blocks of places in a section, and its designation; and the devices that bytes are
//! read from and written to.
#![tactic(auto)]

mod block;
mod device;
pub mod laws;
mod line;
mod lot;
mod refusal;
mod section;
mod township;

pub use block::{Block, Corner, PLACE_DIGITS, PLACES_ACROSS, PLACES_TO_POSITION, Side};
pub use device::{Bytes, Device, DeviceFault, Sink, Source};
pub use line::{LINES, Line, Run, sides};
pub use lot::{POSITIONS_ACROSS, lot_at, lot_count, lot_place};
pub use refusal::Refusal;
pub use section::{SECTIONS, Section};
pub use township::{EastWest, NorthSouth, Township};
