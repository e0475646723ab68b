//! The answer of the plat run.
ghost use Rattle.std.specs.Prelude.{◌≡◌, false, IfOk, IfErr};
ghost use Rattle.twp_notes.specs.FieldNotes.{NOTES_MOST};
ghost use Rattle.twp_answers.specs.OnPlats.{IsTextOfPlat};
ghost use Rattle.twp_answers.specs.PlatAnswers.{IsPlatAnswer};
ghost use Rattle.twp_answers.specs.PlatReading.{ReadsUpTo};
ghost use Rattle.twp_answers.specs.Uses.{Reads, used};
ghost use Rattle.twp_answers.specs.steps.Stages.{same_fault};

use crate::on_plat::read_plat;
use crate::plat_text::print_plat;
use crate::runs::answer::{Answer, answer_stop};
use crate::stop::{RunFault, Verdict};
use std::alloc::Global;
use twp_grid::Source;
use twp_plat::Plat;
use twp_read::Clarity;

/// The answer for field notes: the printed plat, or the refusal.
pub fn answer_of<N: Source>(alloc: Global, notes: &mut N) -> Result<Answer, RunFault>
    requires { N.has_failed notes.old ≡ false }
    ensures reads { ReadsUpTo same_fault NOTES_MOST
        (used (N.remaining notes.old) (N.remaining notes.new) (N.has_failed notes.new))
        result }
    ensures answer { Reads (N.remaining notes.old) (λ n.
        IfOk result (λ answer. IsPlatAnswer n answer.text.items answer.verdict)) }
{
    match read_plat(alloc, notes) {
        Ok(plat) => accept(alloc, &plat),
        Err(stop) => answer_stop(alloc, stop),
    }
}

/// The answer that accepts: the text of a plat.
fn accept(alloc: Global, plat: &Plat) -> Result<Answer, RunFault>
    ensures answer { IfOk result (λ answer. (answer.verdict ≡ Verdict.Accepted)
        × IsTextOfPlat plat.now answer.text.items) }
    ensures memory { IfErr result (λ fault. fault ≡ RunFault.Memory) }
{
    let text = print_plat(alloc, plat)?;
    Ok(Answer {
        text,
        verdict: Verdict::Accepted,
        // There is no description.
        clarity: Clarity::Clear,
    })
}
