//! The answer of the spelling run.
ghost use Rattle.std.specs.Prelude.{◌≡◌, ℕ, List, Some, false, IfOk, IfErr};
ghost use Rattle.twp_read.specs.Doubts.{HasNoDoubtfulPlace};
ghost use Rattle.twp_read.specs.TextFaults.{TEXT_LIMIT};
ghost use Rattle.twp_answers.specs.Answers.{MakePlat};
ghost use Rattle.twp_answers.specs.NormalAnswers.{IsNormalAnswer};
ghost use Rattle.twp_answers.specs.Uses.{used};
ghost use Rattle.twp_answers.specs.Runs.{ReadsTwo};
ghost use Rattle.twp_answers.specs.steps.Stages.{ReadsOnPlat, same_fault};
ghost use Rattle.twp_answers.specs.steps.OnPlatSteps.{IsNormalAnswerOn};

use crate::on_plat::{normal_described, read_noting};
use crate::runs::answer::{Answer, answer_stop, read_texts};
use crate::stop::{RunFault, Verdict};
use std::alloc::Global;
use twp_grid::Source;
use twp_plat::Plat;
use twp_read::Clarity;

/// The answer for field notes and a description: the canonical text of the land. The description is
/// read only if the notes make a plat.
pub fn answer_of<N: Source, D: Source>(
    alloc: Global,
    notes: &mut N,
    description: &mut D,
) -> Result<Answer, RunFault>
    requires notes { N.has_failed notes.old ≡ false }
    requires description { D.has_failed description.old ≡ false }
    ensures reads { ReadsOnPlat same_fault TEXT_LIMIT
        (used (N.remaining notes.old) (N.remaining notes.new) (N.has_failed notes.new))
        (used (D.remaining description.old) (D.remaining description.new)
        (D.has_failed description.new))
        (description.new ≡ description.old) result }
    ensures answer { ReadsTwo (N.remaining notes.old) (D.remaining description.old)
        MakePlat (description.new ≡ description.old)
        (λ n d. IfOk result (λ answer. IsNormalAnswer n d answer.text.items answer.verdict)) }
    ensures clear { IfOk result (λ answer. (d : List ℕ) → D.remaining description.old ≡ Some d
        → answer.clarity ≡ Clarity.Clear → HasNoDoubtfulPlace d) }
{
    match read_texts(alloc, notes, description) {
        Ok(read) => answer_on(alloc, &read.plat, read.description.as_slice()),
        Err(stop) => answer_stop(alloc, stop),
    }
}

/// The answer for a description on a plat.
fn answer_on(alloc: Global, plat: &Plat, description: &[u8]) -> Result<Answer, RunFault>
    ensures answer { IfOk result (λ answer.
        IsNormalAnswerOn plat.now description.now answer.text.items answer.verdict) }
    ensures memory { IfErr result (λ fault. fault ≡ RunFault.Memory) }
    ensures clear { IfOk result (λ answer.
        answer.clarity ≡ Clarity.Clear → HasNoDoubtfulPlace description.now) }
{
    let noted = match read_noting(alloc, description) {
        Ok(noted) => noted,
        Err(stop) => return answer_stop(alloc, stop),
    };
    match normal_described(alloc, plat, &noted.description) {
        Ok(text) => Ok(Answer {
            text,
            verdict: Verdict::Accepted,
            clarity: noted.clarity,
        }),
        Err(stop) => answer_stop(alloc, stop),
    }
}
