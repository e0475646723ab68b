//! Explanations of faults in lot tables: which fields of a record are at fault, a sentence for each fault,
//! the earlier record for the same lot, and a hint on how to correct the record if its bytes show how.

mod acres;
mod blamed;
mod earlier;
mod faults;
mod lacking;
mod lot_hints;
mod lot_patterns;
mod stops;
mod tables;

pub use lacking::find_lacking;
pub use stops::stop_of_lots;
