//! How the phrases of a text are found that people write as a description of land, and the changes
//! in them. None of this is trusted: each change is checked against its rule, and the text that
//! they make is read. Of a text without readings, the words that no phrase covers are found
//! (`unread`), with a contract (`stretches`).
#![tactic(auto)]

mod asides;
mod bare;
mod bare_sections;
mod dotted;
mod exceptions;
mod finder;
mod fractions;
mod headings;
mod letters;
mod lots;
mod numbered;
mod parts;
mod phrases;
mod registers;
mod sections;
mod setting_aside;
mod sought;
mod stretches;
mod sure;
mod unread;
mod whole;
mod worded;

pub use finder::Phrases;
pub use setting_aside::{first_of_land, set_aside};
pub use stretches::{Stretch, unread_of};
pub use unread::{Ambiguity, AmbiguousPhrase, Unread, unread_in};
