//! The words and marks that tell what names land, what takes it away, and what a number is of.

pub(crate) mod land;
pub(crate) mod limits;
pub(crate) mod numbers;
pub(crate) mod sections;
pub(crate) mod sides;
