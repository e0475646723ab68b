//! The verdicts of answers, as numbers for C.

/// The input is accepted.
pub const ACCEPTED: u32 = 0;
/// The input has a fault.
pub const REFUSED: u32 = 1;
/// The description of a tract has a fault.
pub const TRACT_REFUSED: u32 = 2;
/// The plat is not valid.
pub const NO_PLAT: u32 = 3;
/// The account is not one of the known numbers.
pub const NO_ACCOUNT: u32 = 4;
/// The caller's buffer is too small.
pub const NO_ROOM: u32 = 5;
/// Memory ran out.
pub const NO_MEMORY: u32 = 6;
/// Two offsets do not enclose a part of the bytes.
pub const NO_RANGE: u32 = 7;
/// The land is not valid.
pub const NO_LAND: u32 = 8;
/// The lot table is not valid.
pub const NO_LOTS: u32 = 9;
/// The designation of the township is not valid.
pub const NO_TOWNSHIP: u32 = 10;
/// The operation is not one of the known numbers.
pub const NO_OPERATION: u32 = 11;
/// The two arguments are in different townships.
pub const OTHER_TOWNSHIP: u32 = 12;
/// The two arguments are of different plats of one township.
pub const OTHER_PLAT: u32 = 13;

/// The refusal of a tract whose own description is refused.
pub const TRACT_NUMBER: u32 = 83;
