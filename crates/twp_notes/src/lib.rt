//! The field notes of a township: their records, read from bytes into the distances returned for
//! each line, or refused for their first fault; and reading bytes up to a limit, which the crates
//! above also use.
#![tactic(auto)]

mod fault;
mod fields;
pub mod laws;
mod notes;
mod parsing;
mod reading;
mod writing;

pub use fault::NotesFault;
pub use fields::{FIELDS, named_line, section_of, short_number, township_of};
pub use notes::Notes;
pub use parsing::Returned;
pub use reading::{ReadFault, Records, field, is_exactly, read_up_to, read_whole};
pub use writing::{LineNames, names_of};
