//! The endings of what the rules leave out, and the beginnings, as code.

pub(crate) mod beside;
pub(crate) mod labels;
pub(crate) mod meridians;
pub(crate) mod parts;
