//! The tables of the rules, as code: whether a text is one that a rule looks at, and what is written instead
//! is what the rule writes.

pub(crate) mod headings;
pub(crate) mod marks;
pub(crate) mod parts;
pub(crate) mod words;
