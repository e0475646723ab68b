//! The value of digits, and acreage that land is called by.

/// The value of up to four digits.
pub fn value_of(digits: &[u8]) -> u16 {
    let mut value: u16 = 0;
    for digit in digits {
        value = value
            .saturating_mul(10)
            .saturating_add(u16::from(digit.saturating_sub(b'0')));
    }
    value
}

/// Acreage that people call land by, as in `the Smith 80`.
pub fn is_round_acreage(number: u16) -> bool {
    matches!(
        number,
        40 | 60 | 80 | 120 | 160 | 200 | 240 | 280 | 320 | 480 | 640
    )
}
