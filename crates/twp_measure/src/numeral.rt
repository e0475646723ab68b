ghost use Rattle.std.specs.Prelude.{◌≡◌, ◌+◌, ◌%◌, ◌^◌, ◌<◌, ◌≤◌, ◌↔◌, length, IsTrue};
ghost use Rattle.std.specs.Char.{is_ascii_digit};
ghost use Rattle.std.specs.List.{list_all};
ghost use Rattle.std.specs.Str.Parse.{IsNumeral, digits_value};

/// Whether the text consists of one or more digits.
#[tactic(auto, using(crate::proofs::Numerals::digits_tested, crate::proofs::Numerals::digits_test))]
pub fn is_numeral(text: &[u8]) -> bool
    ensures { IsTrue result ↔ IsNumeral 10 text.now }
{
    !text.is_empty() && has_only_digits(text)
}

/// Whether every byte is a digit.
fn has_only_digits(text: &[u8]) -> bool
    ensures { result ≡ list_all is_ascii_digit text.now }
{
    text.iter().all(|byte| byte.is_ascii_digit())
}

/// The number that up to three digits spell.
pub fn numeral_value(digits: &[u8]) -> u32
    requires digits { IsNumeral 10 digits.now }
    requires few { length digits.now ≤ 3 }
    ensures value { result ≡ digits_value 10 digits.now }
    ensures range { result < 10 ^ length digits.now }
{
    let mut value = 0;
    for byte in digits {
        value = 10 * value + u32::from(*byte - b'0');
    }
    value
}

/// The byte of a number's last decimal digit.
pub fn digit(number: u32) -> u8
    ensures { result ≡ 48 + number % 10 }
{
    b'0' + (number % 10) as u8
}
