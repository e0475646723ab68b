//! How the phrases of a text go together: which land belongs to which section, what is left out or moved,
//! what joins two phrases, and what isn't sure of all of them.

mod acreage;
mod after_sections;
mod arranging;
mod before_sections;
mod beside;
mod cells;
mod corners;
mod distances;
mod exceptions;
mod joining;
mod larger_part;
mod parcels;
mod placed;
mod plan;
mod sharing;
mod together;
mod whole_first;

pub use joining::{Between, Gap, Joining, is_joint, is_written, mark_between};
pub use placed::has_except;
pub use plan::Plan;
