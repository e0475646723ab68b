ghost use Rattle.std.specs.Prelude.{◌≡◌, ◌≤◌, length, IfOk, IfErr};
ghost use Rattle.twp_grid.specs.Finding.{Finds};
ghost use Rattle.twp_grid.specs.Townships.{Designation};
ghost use Rattle.twp_calls.specs.DesignationTexts.{IsSpelling, IsNoDesignation};
ghost use Rattle.twp_calls.specs.steps.DesignationSteps.{IsDesignationProgress, IsOfDesignationProgress};

use crate::designation_mark::DesignationMark;
use crate::designation_parts::DesignationParts;
use crate::designation_stage::DesignationStage;
use twp_grammar::first_token;
use twp_grid::{Refusal, Township};
use twp_read::TEXT_LIMIT;

/// The township that a text spells: as in the heading of a description, in words, or as registers
/// write it. Otherwise the refusal, 31 to 35 at the place of the token that no spelling has there,
/// or at the end of the text; or 36, if the text is too large.
pub fn read_designation(text: &[u8]) -> Result<Township, Refusal>
    ensures spelled { IfOk result (IsSpelling text.now) }
    ensures taken { (township : Designation) → IsSpelling text.now township → result ≡ Ok township }
    ensures refused { IfErr result (IsNoDesignation text.now) }
{
    if text.len() > TEXT_LIMIT {
        return Err(Refusal {
            number: 36,
            at: TEXT_LIMIT as u32,
        });
    }
    let progress = progress_in(text);
    match progress.township() {
        Some(township) => Ok(township),
        None => Err(Refusal {
            number: progress.parts.refusal_number(),
            at: progress.at as u32,
        }),
    }
}

/// What was read of a text: the parts so far, the place of the token that no spelling has there, or
/// of the text's end, and whether the tokens are those of a spelling.
#[derive(Clone, Copy)]
struct DesignationProgress {
    parts: DesignationParts,
    at: usize,
    whole: bool,
}

impl DesignationProgress {
    /// The township, if the tokens spell one.
    #[tactic(auto, using(crate::proofs::DesignationFacts::finding))]
    fn township(self) -> Option<Township>
        ensures { Finds result (IsOfDesignationProgress self) }
    {
        if self.whole {
            self.parts.township()
        } else {
            None
        }
    }
}

/// Reads the tokens of a text, up to one that no spelling has there.
fn progress_in(text: &[u8]) -> DesignationProgress
    ensures is { IsDesignationProgress text.now result }
    ensures within { result.at ≤ length text.now }
{
    let mut at = 0;
    let mut stage = DesignationStage::Start;
    let mut parts = DesignationParts::none();
    'tokens: loop {
        let Some(token) = first_token(text, at) else {
            break;
        };
        let mark = DesignationMark::of(&token);
        let Some(after) = stage.next(mark) else {
            return DesignationProgress {
                parts,
                at: token.at,
                whole: false,
            };
        };
        parts = parts.with(mark);
        stage = after;
        at = token.at + token.text.len();
    }
    DesignationProgress {
        parts,
        at: text.len(),
        whole: stage.ends_spelling(),
    }
}
