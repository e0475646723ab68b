//! The reader of descriptions: the tokens of a text are read as the items that a sentence of the grammar
//! names; or the place where the text goes wrong is reported, and what could be there. Also the places of
//! accepted descriptions that can be read in two ways, though the grammar reads them in one.
#![tactic(auto)]

mod description;
mod doubt;
mod doubts;
mod fault;
mod items;
pub mod laws;
mod usual;
mod watch;

pub use description::{Description, Noted};
pub use doubt::{Clarity, Doubt, DoubtfulPlace, Doubts, begins_step, is_padded, is_singular};
pub use doubts::{after_part, doubts_in, is_of_part, is_of_step};
pub use fault::{TEXT_LIMIT, TextFault};
