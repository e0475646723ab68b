//! The land that the items of a description name on a township's plat, or their first fault: the
//! reason that they do not lie on it without overlapping.
#![tactic(auto)]

mod chain;
pub mod laws;
mod place_fault;
mod ranges;
mod resolving;
mod shared;
mod whole;

pub use place_fault::PlaceFault;
pub use resolving::{names_one_section, resolve, resolve_if_room, resolve_into};
pub use shared::{SharingItems, shared_into};
pub use whole::{may_be_whole, resolve_whole};
