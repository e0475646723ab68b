//! What is wrong with refused input, and where, as data: the bytes of a token, an aliquot part, or a record's
//! field; where a text is in its file; the land that two items share; and the lots that a part includes. No
//! sentences are written here; `message_at` makes the message that shows a sentence at a place in a file.
#![tactic(auto)]

mod explanation;
mod finding;
mod listed;
mod location;
mod mark;
mod numbers;
mod quoted;
mod records;
mod section_lots;
mod shared_land;
mod sight;
mod suggests;

pub use explanation::{Explanation, OtherPlace};
pub use finding::{Finding, PartOfLots, SearchStop, part_of_lots};
pub use listed::Listed;
pub use location::{Given, Located, Location, Origin, line_in, message_at, spot_in, spot_of_place};
pub use mark::{chain_span, heading_span, range_span, token_span};
pub use numbers::{is_short_number, number_in, thousandths, thousandths_of};
pub use quoted::write_quoted;
pub use records::{Record, text_in, write_count};
pub use section_lots::holds_whole_lots;
pub use shared_land::{SharedLand, shared_land_text};
pub use sight::{Surroundings, TokenAt};
pub use suggests::{Suggested, Suggestion, Suggests};
