ghost use Rattle.std.specs.Prelude.{◌≡◌, ◌<◌, ◌++◌, IfOk, OnOk, decimal};
ghost use Rattle.twp_calls.specs.DesignationTexts.{IsSpelling, designation_text, after_tier, after_range};

use std::alloc::{AllocError, Global};
use twp_grid::{EastWest, NorthSouth, Township};

/// Writes a township as in `T. 2 N., R. 3 W.`.
pub fn spell_designation(alloc: Global, township: Township) -> Result<Vec<u8>, AllocError>
    ensures text { IfOk result (λ text. text.items ≡ designation_text township) }
    ensures read_back { IfOk result (λ text. IsSpelling text.items township) }
{
    let mut text = Vec::new(alloc);
    text.extend_from_slice(b"T. ")?;
    push_number(&mut text, township.number())?;
    text.extend_from_slice(text_after_tier(township.north_south()))?;
    push_number(&mut text, township.range())?;
    text.extend_from_slice(text_after_range(township.east_west()))?;
    Ok(text)
}

/// Appends a number in decimal.
fn push_number(text: &mut Vec<u8>, number: u8) -> Result<(), AllocError>
    requires { number < 100 }
    ensures { OnOk result (text.new.items ≡ text.old.items ++ decimal number) }
{
    if number < 10 {
        return text.extend_from_slice(&[b'0' + number]);
    }
    text.extend_from_slice(&[b'0' + number / 10, b'0' + number % 10])
}

/// The text between the number of a township and that of its range.
fn text_after_tier(side: NorthSouth) -> &'static [u8; 8]
    ensures { result.now ≡ after_tier side }
{
    match side {
        NorthSouth::N => b" N., R. ",
        NorthSouth::S => b" S., R. ",
    }
}

/// The text after the number of a range.
fn text_after_range(side: EastWest) -> &'static [u8; 3]
    ensures { result.now ≡ after_range side }
{
    match side {
        EastWest::E => b" E.",
        EastWest::W => b" W.",
    }
}
