//! The answer of the report run.
ghost use Rattle.std.specs.Prelude.{◌≡◌, ◌≢◌, ℕ, List, Some, false, IfOk, IfErr};
ghost use Rattle.twp_answers.specs.Answers.{MakePlat};
ghost use Rattle.twp_answers.specs.ClearTracts.{IsClearList};
ghost use Rattle.twp_answers.specs.Tracts.{TRACTS_LIMIT};
ghost use Rattle.twp_answers.specs.TractFaults.{verdict_of};
ghost use Rattle.twp_answers.specs.ReportAnswers.{IsReportAnswer, AnswersList, refusal_lines};
ghost use Rattle.twp_answers.specs.Uses.{Reads, used};
ghost use Rattle.twp_answers.specs.Runs.{ReadsTwo};
ghost use Rattle.twp_answers.specs.PlatReading.{ReadsUpTo};
ghost use Rattle.twp_answers.specs.steps.Stages.{ReadsOnPlat, same_fault};

use crate::on_plat::read_plat;
use crate::runs::answer::{Answer, answer_stop, write_refusal};
use crate::stop::{RunFault, Verdict};
use crate::tract_fault::{TRACTS_LIMIT, TractFault};
use crate::tracts::account_of as account_of_tracts;
use std::alloc::Global;
use twp_grid::Source;
use twp_notes::read_whole;
use twp_plat::Plat;
use twp_read::Clarity;

/// The answer for field notes and a list of tracts. The list is read only if the notes make a plat.
pub fn answer_of<N: Source, T: Source>(
    alloc: Global,
    notes: &mut N,
    tracts: &mut T,
) -> Result<Answer, RunFault>
    requires notes { N.has_failed notes.old ≡ false }
    requires tracts { T.has_failed tracts.old ≡ false }
    ensures reads { ReadsOnPlat same_fault TRACTS_LIMIT
        (used (N.remaining notes.old) (N.remaining notes.new) (N.has_failed notes.new))
        (used (T.remaining tracts.old) (T.remaining tracts.new)
        (T.has_failed tracts.new))
        (tracts.new ≡ tracts.old) result }
    ensures answer { ReadsTwo (N.remaining notes.old) (T.remaining tracts.old)
        MakePlat (tracts.new ≡ tracts.old)
        (λ n t. IfOk result (λ answer. IsReportAnswer n t answer.text.items answer.verdict)) }
    ensures clear { IfOk result (λ answer. (t : List ℕ) → T.remaining tracts.old ≡ Some t
        → answer.clarity ≡ Clarity.Clear → IsClearList t) }
{
    match read_plat(alloc, notes) {
        Ok(plat) => report_on(alloc, &plat, tracts),
        Err(stop) => answer_stop(alloc, stop),
    }
}

/// The answer for a list of tracts on a plat.
// Not inlined, because otherwise its reader would be on the stack while the notes are read.
#[inline(never)]
fn report_on<T: Source>(alloc: Global, plat: &Plat, tracts: &mut T) -> Result<Answer, RunFault>
    requires { T.has_failed tracts.old ≡ false }
    ensures reads { ReadsUpTo same_fault TRACTS_LIMIT
        (used (T.remaining tracts.old) (T.remaining tracts.new) (T.has_failed tracts.new))
        result }
    ensures answer { Reads (T.remaining tracts.old) (λ t.
        IfOk result (λ answer. AnswersList plat.now t answer.text.items answer.verdict)) }
    ensures clear { IfOk result (λ answer. (t : List ℕ) → T.remaining tracts.old ≡ Some t
        → answer.clarity ≡ Clarity.Clear → IsClearList t) }
{
    let Some(bytes) = read_whole(alloc, tracts, TRACTS_LIMIT as usize)? else {
        return refuse_list(alloc, TractFault::TractsTooLarge);
    };
    match account_of_tracts(alloc, plat, bytes.as_slice()) {
        Ok(account) => Ok(Answer {
            text: account.text,
            verdict: Verdict::Accepted,
            clarity: account.clarity,
        }),
        Err(fault) => refuse_list(alloc, fault),
    }
}

/// The answer for a list that has a fault: its refusal, and on a second line that of a tract's
/// description.
fn refuse_list(alloc: Global, fault: TractFault) -> Result<Answer, RunFault>
    ensures answer { IfOk result (λ answer. (verdict_of fault ≡ Some answer.verdict)
        × (answer.verdict ≢ Verdict.Accepted)
        × (answer.text.items ≡ refusal_lines answer.verdict)) }
    ensures unclear { IfOk result (λ answer. answer.clarity ≡ Clarity.Unclear) }
    ensures memory { IfErr result (λ failed. failed ≡ RunFault.Memory) }
{
    let Some(refusal) = fault.refusal() else {
        return Err(RunFault::Memory);
    };
    let mut text = Vec::new(alloc);
    write_refusal(refusal, &mut text)?;
    if let TractFault::TractRefused { inner, .. } = fault {
        write_refusal(inner, &mut text)?;
    }
    Ok(Answer {
        text,
        verdict: fault.verdict().unwrap(),
        clarity: Clarity::Unclear,
    })
}
