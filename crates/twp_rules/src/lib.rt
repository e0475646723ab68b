//! The rules by which a text that people write is changed into a description of land: changes of a
//! text, whether the rule of each allows it, and the text that they make.
#![tactic(auto)]

mod allowed;
mod alone;
mod apart;
mod arrangement;
mod change;
mod context;
mod copying;
mod cursor;
mod endings;
mod figures;
mod keeping;
mod left_out;
mod lying;
mod mark;
mod moved;
mod moves;
mod moving;
mod named;
mod naming;
mod origins;
mod role;
mod roles;
mod rows;
mod rule;
mod run;
mod same;
mod saying;
mod sayings;
mod seam;
mod steps;
mod tables;
mod words;

pub use allowed::is_worn;
pub use arrangement::lie_with_sections;
pub use change::{Change, are_changes, changed};
pub use copying::copy_whole;
pub use naming::{byte_at, byte_before, digits_of, is_side, word_of};
pub use rule::Rule;
pub use same::{are_same, begins_with, ends_with, is_text};
pub use sayings::is_remark;
