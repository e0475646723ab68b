//! The readings of a text, as plain data. One array of bytes contains the texts of the readings and the
//! bytes that their changes write.

/// A reading: the positions of its text and of its changes.
#[repr(C)]
#[derive(Clone, Copy)]
pub struct TownshipReading {
    /// Where its text begins in the bytes.
    pub text: u64,
    /// How many bytes it has.
    pub text_length: u64,
    /// Where its changes begin among all changes.
    pub changes: u64,
    /// How many there are.
    pub changes_length: u64,
    /// How its text was derived from the changed text: the number of a `Manner`.
    pub manner: u32,
    /// Unused; always 0.
    pub reserved: u32,
}

/// A change: some bytes of the text are replaced by others.
#[repr(C)]
#[derive(Clone, Copy)]
pub struct TownshipChange {
    /// Where the replaced bytes begin in the text.
    pub start: u64,
    /// Where they end.
    pub end: u64,
    /// Where the written bytes begin in the array.
    pub written: u64,
    /// The number of written bytes.
    pub written_length: u64,
    /// Where the copied bytes begin in the text, or 0 if the change copies none.
    pub copied: u64,
    /// Where they end, or 0.
    pub copied_end: u64,
    /// The number of the rule of the change.
    pub rule: u32,
    /// The number of the assumption that the change makes, or 0.
    pub assumes: u32,
}

/// The sizes of the whole suggestion, even if there was no room to write it.
#[repr(C)]
#[derive(Clone, Copy)]
pub struct TownshipSuggestion {
    /// The number of readings.
    pub readings: u64,
    /// The number of their changes.
    pub changes: u64,
    /// The number of bytes of their texts, of the bytes that the changes write, and of the reason.
    pub bytes: u64,
    /// Where the reason begins in the array, if there are no readings because lots and aliquot parts can't
    /// describe the land; otherwise 0.
    pub reason: u64,
    /// How many bytes it has, or 0.
    pub reason_length: u64,
    /// Where the phrase that shows this begins in the text, or 0.
    pub beyond: u64,
    /// Where it ends, or 0.
    pub beyond_end: u64,
}
