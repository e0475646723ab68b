//! Numbers that fields of a record may be.

/// Whether a text is some digits, and no more than so many.
pub fn is_short_number(text: &[u8], most: usize) -> bool {
    !text.is_empty() && text.len() <= most && text.iter().all(|byte| byte.is_ascii_digit())
}

/// The thousandths of a decimal number of few digits.
pub fn thousandths(text: &[u8]) -> Option<u64> {
    let whole = text.iter().take_while(|byte| **byte != b'.').count();
    let decimals = text.get(whole.saturating_add(1)..).unwrap_or(b"");
    thousandths_of(text.get(..whole)?, decimals)
}

/// The thousandths of a decimal number, by the digits before its point and those after it.
pub fn thousandths_of(whole: &[u8], decimals: &[u8]) -> Option<u64> {
    let mut value = number_in(whole)?;
    for place in 0..3 {
        let digit = number_in(decimals.get(place..place + 1).unwrap_or(b"0"))?;
        value = value.saturating_mul(10).saturating_add(digit);
    }
    Some(value)
}

/// The number that digits spell.
pub fn number_in(digits: &[u8]) -> Option<u64> {
    let mut value: u64 = 0;
    for digit in digits {
        if !digit.is_ascii_digit() {
            return None;
        }
        value = value
            .saturating_mul(10)
            .saturating_add(u64::from(*digit - b'0'));
    }
    Some(value)
}
