use std::alloc::AllocError;

/// Why a text has no reading.
#[derive(Clone, Copy, PartialEq, Eq)]
pub enum NoReading {
    /// It names what no township has, or the reader refuses it.
    Refused,
    /// It names some land twice, or excepts what isn't of the land: another candidate may do neither.
    Unfit,
    /// Memory ran out.
    Memory,
}

impl From<AllocError> for NoReading {
    fn from(_: AllocError) -> NoReading {
        NoReading::Memory
    }
}
