//! Prefixes of descriptions: their first bytes, including those that end within a character.

use crate::trials::descriptions::DESCRIPTIONS;
use std::io;
use twp_answers::{Stop, acres_on};
use twp_plat::{Account, Plat};

/// A description with the answer for each of its prefixes printed.
const SHORT: &str = "sec. 14, NE1/4.";

/// Counts the prefixes of each description that are accepted or refused: one for each of its bytes,
/// and the empty one. `½` and `¼` are two bytes each.
pub fn try_fronts(rt: &HostRuntime, plat: &Plat) -> io::Result<()> {
    for text in DESCRIPTIONS.iter() {
        rt.print("fronts with an answer, of `")?;
        rt.print(text)?;
        rt.print("`: ")?;
        rt.println(answered_fronts(rt, plat, text.as_bytes()))?;
    }
    print_fronts(rt, plat)
}

/// How many prefixes of a text are accepted or refused.
fn answered_fronts(rt: &HostRuntime, plat: &Plat, text: &[u8]) -> u32 {
    let mut answered = 0u32;
    for length in 0..text.len() + 1 {
        match acres_on(rt.alloc(), plat, &text[..length], Account::Exact) {
            Ok(_) | Err(Stop::Refused(_)) => answered = answered.saturating_add(1),
            Err(Stop::Failed(_)) => {}
        }
    }
    answered
}

/// Prints the answers for the prefixes of one description. `s` is an unknown word and `se` a
/// corner, and neither begins a description; after `sec`, more may follow. `sec. 1` and `sec. 14`
/// are 640 acres, and an N after `sec. 14, ` can be a side. `NE` needs 1/4: a 1 alone at 11 is
/// wrong, and in `1/` the `/` at 12 is not a token. The northeast quarter is 160 acres.
fn print_fronts(rt: &HostRuntime, plat: &Plat) -> io::Result<()> {
    let text = SHORT.as_bytes();
    for length in 0..text.len() + 1 {
        rt.print("the first ")?;
        rt.print(length)?;
        rt.print(" bytes of `sec. 14, NE1/4.`: ")?;
        match acres_on(rt.alloc(), plat, &text[..length], Account::Exact) {
            Ok(hundredths) => {
                rt.print(hundredths)?;
                rt.println(" hundredths of an acre")?;
            }
            Err(stop) => rt.println(stop)?,
        }
    }
    Ok(())
}
