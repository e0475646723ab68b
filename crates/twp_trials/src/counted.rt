//! Work whose instructions `make bench` counts: calls of one kind, with mixed blocks, on land of
//! one kind; and the reading of a description from standard input.

mod reading;
mod task;
mod work;

pub use reading::read_text;
pub use task::LandTask;
