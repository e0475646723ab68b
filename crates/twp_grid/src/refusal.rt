/// A numbered refusal and its place: a record's number, a line's index, or an offset or a length in
/// bytes, depending on the number.
#[derive(Clone, Copy, Debug, PartialEq, Eq)]
pub struct Refusal {
    /// The refusal's number, as in `docs/REFUSALS.md`.
    pub number: u8,
    /// The place of the fault, in the unit that goes with the number.
    pub at: u32,
}
