/// The version of the library.
pub(crate) const VERSION: &str = "1.0.0";
