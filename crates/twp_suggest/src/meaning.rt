//! What a text describes, for those who change texts into descriptions: whether it is a description
//! as it is, the land that it names, and the description that a changed text leads to.

mod clear;
mod kept;
mod manner;
mod named;
mod no_reading;
mod on_plat;
mod some_land;
mod wording;

pub use clear::is_clear;
pub use manner::Manner;
pub use named::find_named_land;
pub use no_reading::NoReading;
pub use on_plat::{find_land, find_own_land, first_township};
pub use wording::{Wording, described};
