//! The land of a record: a sequence of aliquot parts, whose places get marks.
ghost use Rattle.std.specs.Prelude.{◌≡◌, ◌≤◌, ◌++◌, ◌∷◌, [], ℕ, List, OnOk, IfErr};
ghost use Rattle.twp_grammar.specs.declared.item.Step.{Step};
ghost use Rattle.twp_grammar.specs.Grammar.{class_of};
ghost use Rattle.twp_plat.specs.steps.LandPaints.{IsPainting, IsLandPainted, AreUnpainted};
ghost use Rattle.twp_plat.specs.steps.LandWalk.{next, ends_part, step_begun, step_of};

use std::alloc::{AllocError, Global};
use twp_grammar::{Kind, Step, Steps, chain_block, first_token};
use twp_grid::{EastWest, NorthSouth, Section, Side};
use twp_land::LotMarks;

/// How far the tokens of a record's land are into a sequence of aliquot parts, named after the last token.
#[derive(Clone, Copy)]
pub enum LandState {
    /// Before the first part, or after `and`: a part must follow.
    Part,
    /// After a comma, which `and` may follow.
    Comma,
    /// After the letter of a half.
    Side,
    /// After the letters of a quarter.
    Corner,
    /// After a complete step of a part.
    Step,
    /// After `of`, which `the` may follow.
    Of,
    /// After `of the`: a step must follow.
    OfThe,
}

/// What the aliquot parts so far are: their places are painted, or why they can't be.
#[derive(Clone, Copy)]
pub enum Painting {
    /// The places of all parts got the mark.
    Painted,
    /// One of the places had a mark.
    Shared,
    /// One of the parts halves a side of one place.
    TooFine,
}

/// Why the places of a record's land can't be painted.
#[derive(Clone, Copy)]
pub enum LandFault {
    /// It is not a sequence of aliquot parts.
    NoParts,
    /// One of the parts halves a side of one place.
    TooFine,
    /// One of the places had a mark, or is in two parts.
    Shared,
    /// Memory ran out.
    Memory,
}

impl From<AllocError> for LandFault {
    ghost use Rattle.std.specs.Prelude.{◌≡◌};
    ghost use Rattle.twp_plat.specs.declared.lots.land_text.LandFault.TheVariants.{Memory};

    ghost from_gives = { λ _ fault. fault ≡ Memory };

    fn from(_fault: AllocError) -> LandFault {
        LandFault::Memory
    }
}

impl LandState {
    /// The state after one more token. `None` if no sequence of aliquot parts begins with the tokens
    /// so far and this one.
    fn after(self, kind: Kind) -> Option<LandState>
        ensures { result ≡ next self (class_of kind) }
    {
        match self {
            LandState::Part | LandState::OfThe => step_begun(kind),
            LandState::Comma => match kind {
                Kind::And => Some(LandState::Part),
                _ => step_begun(kind),
            },
            LandState::Side => match kind {
                Kind::Half => Some(LandState::Step),
                _ => None,
            },
            LandState::Corner => match kind {
                Kind::Quarter => Some(LandState::Step),
                _ => None,
            },
            LandState::Step => match kind {
                Kind::Comma => Some(LandState::Comma),
                Kind::And => Some(LandState::Part),
                Kind::Of => Some(LandState::Of),
                _ => step_begun(kind),
            },
            LandState::Of => match kind {
                Kind::The => Some(LandState::OfThe),
                _ => step_begun(kind),
            },
        }
    }

    /// Whether a part ends here, before a token that separates it from the next one.
    fn ends_part(self, kind: Kind) -> bool
        ensures { result ≡ ends_part self (class_of kind) }
    {
        match self {
            LandState::Step => matches!(kind, Kind::Comma | Kind::And),
            _ => false,
        }
    }
}

/// The state after the first token of a step. `None` for other tokens.
fn step_begun(kind: Kind) -> Option<LandState>
    ensures { result ≡ step_begun (class_of kind) }
{
    match kind {
        Kind::NorthSouth(_) | Kind::EastWest(_) => Some(LandState::Side),
        Kind::Corner(_) => Some(LandState::Corner),
        _ => None,
    }
}

/// The step whose first token is of this kind.
fn step_of(kind: Kind) -> Option<Step>
    ensures { result ≡ step_of kind }
{
    match kind {
        Kind::NorthSouth(NorthSouth::N) => Some(Step::Half(Side::N)),
        Kind::NorthSouth(NorthSouth::S) => Some(Step::Half(Side::S)),
        Kind::EastWest(EastWest::E) => Some(Step::Half(Side::E)),
        Kind::EastWest(EastWest::W) => Some(Step::Half(Side::W)),
        Kind::Corner(corner) => Some(Step::Quarter(corner)),
        _ => None,
    }
}

/// Gives the places of a section's land a mark, if it is a sequence of aliquot parts, none of its
/// places has a mark, and none is in two parts. After a fault, the marks have no meaning.
pub(crate) fn paint_land(
    alloc: Global,
    marks: &mut LotMarks,
    section: Section,
    mark: u8,
    text: &[u8],
) -> Result<(), LandFault>
    requires { 1 ≤ mark }
    ensures painted { OnOk result
        (IsLandPainted section text.now mark marks.old.sections marks.new.sections) }
    ensures fault { IfErr result (AreUnpainted section text.now marks.old.sections) }
{
    let mut reached = LandState::Part;
    let mut painting = Painting::Painted;
    let mut steps = Steps::none(alloc);
    let mut at = 0;
    'tokens: while let Some(token) = first_token(text, at) {
        let Some(after) = reached.after(token.kind) else {
            return Err(LandFault::NoParts);
        };
        if reached.ends_part(token.kind) {
            painting = paint_part(painting, marks, section, mark, &steps);
            steps = Steps::none(alloc);
        } else if let Some(step) = step_of(token.kind) {
            steps.push(step)?;
        }
        reached = after;
        at = token.at + token.text.len();
    }
    let LandState::Step = reached else {
        return Err(LandFault::NoParts);
    };
    match paint_part(painting, marks, section, mark, &steps) {
        Painting::Painted => Ok(()),
        Painting::Shared => Err(LandFault::Shared),
        Painting::TooFine => Err(LandFault::TooFine),
    }
}

/// Gives the places of one more part a mark, if those of the parts so far could get it.
fn paint_part(
    painting: Painting,
    marks: &mut LotMarks,
    section: Section,
    mark: u8,
    steps: &Steps,
) -> Painting
    requires { 1 ≤ mark }
    ensures { (parts : List (List Step)) (old : List (List ℕ))
        → IsPainting painting section parts mark old marks.old.sections
        → IsPainting result section (parts ++ steps.now ∷ []) mark old marks.new.sections }
{
    let Some(block) = chain_block(steps) else {
        return Painting::TooFine;
    };
    match painting {
        Painting::Painted => {
            if marks.paint(section, block, mark) {
                Painting::Painted
            } else {
                Painting::Shared
            }
        }
        Painting::Shared => Painting::Shared,
        Painting::TooFine => Painting::TooFine,
    }
}
