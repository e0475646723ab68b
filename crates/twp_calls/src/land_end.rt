ghost use Rattle.std.specs.Prelude.{◌≡◌};
ghost use Rattle.twp_calls.specs.steps.SplitSteps.{after_and, after_land, after_token};

use twp_grammar::Kind;

/// What the tokens so far end with, of a separator between two townships: `;`, or `; and`.
#[derive(Clone, Copy, PartialEq, Eq)]
pub enum Separator {
    /// Land, or another mark.
    Nothing,
    Semicolon,
    SemicolonAnd,
}

/// Where land ends if a heading comes next.
#[derive(Clone, Copy)]
pub struct LandEnd {
    /// Where the land ends, before a separator.
    pub land: usize,
    /// Where the last token ends.
    pub end: usize,
    /// The separator after the land.
    pub separator: Separator,
}

impl LandEnd {
    /// At a place that a separator can't include.
    pub fn at(place: usize) -> LandEnd
        ensures { result ≡ after_land place }
    {
        LandEnd {
            land: place,
            end: place,
            separator: Separator::Nothing,
        }
    }

    /// After one more token, which ends at this place.
    pub fn with(self, kind: Kind, place: usize) -> LandEnd
        ensures { result ≡ after_token self kind place }
    {
        match kind {
            Kind::Semicolon => LandEnd {
                land: self.end,
                end: place,
                separator: Separator::Semicolon,
            },
            Kind::And => self.with_and(place),
            _ => LandEnd::at(place),
        }
    }

    /// After the word `and`.
    fn with_and(self, place: usize) -> LandEnd
        ensures { result ≡ after_and self.separator self.land place }
    {
        match self.separator {
            Separator::Semicolon => LandEnd {
                land: self.land,
                end: place,
                separator: Separator::SemicolonAnd,
            },
            _ => LandEnd::at(place),
        }
    }
}
