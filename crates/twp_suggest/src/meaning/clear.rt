//! Whether a text is a description as it is.
ghost use Rattle.std.specs.Prelude.{◌≡◌, ◌↔◌, IsTrue, IfOk};
ghost use Rattle.twp_suggest.specs.Descriptions.{IsAccepted, IsClear};

use std::alloc::{AllocError, Global};
use twp_grammar::{State, first_token};
use twp_read::{Clarity, Description, doubts_in};

/// Whether the reader accepts a text, and it has no doubtful place.
#[tactic(auto, using(crate::proofs::meaning::ClearFacts::if_refused, crate::proofs::meaning::ClearFacts::if_wrong))]
pub fn is_clear(alloc: Global, text: &[u8]) -> Result<bool, AllocError>
    ensures { IfOk result (λ it. IsTrue it ↔ IsClear text.now) }
{
    if goes_wrong(text) {
        return Ok(false);
    }
    match Description::read_noting(alloc, text) {
        Ok(noted) => match noted.clarity {
            Clarity::Clear => Ok(true),
            Clarity::Unclear => has_no_doubt(alloc, text),
        },
        Err(fault) => match fault.refusal() {
            Some(_) => Ok(false),
            None => Err(AllocError),
        },
    }
}

/// Whether a token of a text can't follow those before it in any description, or the text ends too early.
/// Most texts go wrong at one of their first tokens, which takes much less time than to say how.
fn goes_wrong(text: &[u8]) -> bool
    ensures { IsTrue result → ¬ IsAccepted text.now }
{
    let mut at = 0;
    let mut state = State::Start;
    while let Some(token) = first_token(text, at) {
        let Some(after) = state.next(token.kind) else {
            return true;
        };
        at = token.at + token.text.len();
        state = after;
    }
    !state.is_final()
}

/// Whether a text that the reader accepts has no doubtful place.
#[tactic(auto, using(crate::proofs::meaning::ClearFacts::with_doubt))]
fn has_no_doubt(alloc: Global, text: &[u8]) -> Result<bool, AllocError>
    requires { IsAccepted text.now }
    ensures { IfOk result (λ it. IsTrue it ↔ IsClear text.now) }
{
    match doubts_in(alloc, text)? {
        Some(_) => Ok(false),
        None => Ok(true),
    }
}
