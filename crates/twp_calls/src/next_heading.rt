ghost use Rattle.std.specs.Prelude.{◌≤◌, length};
ghost use Rattle.twp_calls.specs.steps.SplitSteps.{GivesHeading};

use crate::land_end::LandEnd;
use twp_grammar::{Kind, first_token};

/// The next heading of a text.
#[derive(Clone, Copy)]
pub struct NextHeading {
    /// Where the heading begins.
    pub at: usize,
    /// Where its first token ends.
    pub end: usize,
    /// Where the land before it ends, without the separator.
    pub land_end: usize,
}

/// The first heading after a place.
pub fn next_heading(text: &[u8], from: usize) -> Option<NextHeading>
    requires { from ≤ length text.now }
    ensures { GivesHeading text.now from result }
{
    let mut at = from;
    let mut land_end = LandEnd::at(from);
    'tokens: loop {
        let Some(token) = first_token(text, at) else {
            return None;
        };
        let end = token.at + token.text.len();
        if let Kind::T = token.kind {
            return Some(NextHeading {
                at: token.at,
                end,
                land_end: land_end.land,
            });
        }
        land_end = land_end.with(token.kind, end);
        at = end;
    }
}
