//! The line and column of a byte in a text, and excerpts of a text that are safe to show in a
//! terminal: characters that are visible and move nothing are shown, and everything else is
//! escaped.
#![tactic(auto)]

mod escaped;
mod excerpt;
mod kept_part;
mod message;
mod spot;
mod wrapped;

pub use escaped::write_escaped;
pub use excerpt::write_excerpt;
pub use message::{Extract, Message, MessageParts, MessagePlace, MessageText};
pub use spot::{Span, Spot, end_of_text, first_size, spot_of};
pub use wrapped::{columns_of, write_wrapped};
