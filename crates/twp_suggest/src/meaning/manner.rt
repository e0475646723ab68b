/// How the description of a reading comes of the changed text.
#[derive(Clone, Copy, Debug, PartialEq, Eq)]
pub enum Manner {
    /// It is the changed text.
    Changed,
    /// It is the canonical description of the land of the changed text, in which an aliquot part includes
    /// lots.
    LotsNamed,
    /// It is the canonical description of what is left: the land of the changed text before `except`, without
    /// the land after it.
    Remainder,
}
