//! The answer of a run, with its verdict, and how the run ended; the texts that the runs on a description
//! read: the field notes, as their plat, and the bytes of the description; and the writing of the answer.
ghost use Rattle.std.specs.Prelude.{◌≡◌, ◌++◌, OnOk, IfOk, IfErr, false, Err, OnErr, is_err};
ghost use Rattle.twp_answers.specs.Answers.{refusal_line, MakePlat};
ghost use Rattle.twp_answers.specs.steps.RunStops.{AnswersStop};
ghost use Rattle.twp_read.specs.TextFaults.{TEXT_LIMIT};
ghost use Rattle.twp_answers.specs.PlatReading.{ReadsUpTo};
ghost use Rattle.twp_answers.specs.Uses.{Reads, used};
ghost use Rattle.twp_answers.specs.declared.stop.Stop.TheVariants.{Failed};
ghost use Rattle.twp_answers.specs.Runs.{ReadsTwo, AppendsFront};
ghost use Rattle.twp_answers.specs.steps.OnPlatSteps.{AreRead, IsTextRead};
ghost use Rattle.twp_answers.specs.steps.Stages.{ReadsOnPlat};
ghost use Rattle.std.specs.Io.KnownBytes.{Appends};

use crate::on_plat::read_plat;
use crate::stop::{RunFault, Stop, Verdict};
use itoa::Buffer;
use std::alloc::{AllocError, Global};
use twp_grid::{DeviceFault, Refusal, Sink, Source};
use twp_notes::read_whole;
use twp_plat::Plat;
use twp_read::{Clarity, TEXT_LIMIT, TextFault};

/// The answer of a run.
#[derive(Drop)]
pub struct Answer {
    pub text: Vec<u8>,
    pub verdict: Verdict,
    /// Whether a place in the descriptions that the run accepts may be doubtful.
    pub clarity: Clarity,
}

/// How a run on descriptions ended, and what it noticed in them.
#[derive(Clone, Copy)]
pub struct Ran {
    pub outcome: Result<Verdict, RunFault>,
    /// Whether a place in the descriptions that it accepted may be doubtful.
    pub clarity: Clarity,
}

impl Ran {
    /// A run that failed, so that nothing is known of the descriptions.
    pub fn failed(fault: RunFault) -> Ran
        ensures outcome { result.outcome ≡ Err fault }
        ensures unclear { result.clarity ≡ Clarity.Unclear }
    {
        Ran {
            outcome: Err(fault),
            clarity: Clarity::Unclear,
        }
    }
}

/// The answer of a run that stopped: its refusal, or no answer if it failed.
#[tactic(auto, using(crate::proofs::runs::StopFacts::answers_refusal))]
pub fn answer_stop(alloc: Global, stop: Stop) -> Result<Answer, RunFault>
    ensures answer { AnswersStop stop result }
    ensures unclear { IfOk result (λ answer. answer.clarity ≡ Clarity.Unclear) }
{
    match stop {
        Stop::Refused(refusal) => refuse(alloc, refusal),
        Stop::Failed(fault) => Err(fault),
    }
}

/// The answer that refuses: the line of a refusal.
fn refuse(alloc: Global, refusal: Refusal) -> Result<Answer, RunFault>
    ensures answer { IfOk result (λ answer.
        (answer.text.items ≡ refusal_line refusal) × (answer.verdict ≡ Verdict.Refused refusal)) }
    ensures unclear { IfOk result (λ answer. answer.clarity ≡ Clarity.Unclear) }
    ensures memory { IfErr result (λ fault. fault ≡ RunFault.Memory) }
{
    let mut text = Vec::new(alloc);
    write_refusal(refusal, &mut text)?;
    Ok(Answer {
        text,
        verdict: Verdict::Refused(refusal),
        clarity: Clarity::Unclear,
    })
}

/// Appends the line of a refusal, such as `refused 67 at 19`.
pub fn write_refusal(refusal: Refusal, text: &mut Vec<u8>) -> Result<(), AllocError>
    ensures ok { OnOk result (text.new.items ≡ text.old.items ++ refusal_line refusal) }
{
    let mut buffer = Buffer::new();
    text.extend_from_slice(b"refused ")?;
    text.extend_from_slice(buffer.format(refusal.number).as_bytes())?;
    text.extend_from_slice(b" at ")?;
    text.extend_from_slice(buffer.format(refusal.at).as_bytes())?;
    text.extend_from_slice(b"\n")
}

/// The texts that the runs on a description read: the plat of the notes, and the description's
/// bytes.
#[derive(Drop)]
pub(crate) struct Texts {
    pub(crate) plat: Plat,
    pub(crate) description: Vec<u8>,
}

/// The bytes of the description from a source, or the refusal if there are too many.
fn read_description<D: Source>(alloc: Global, description: &mut D) -> Result<Vec<u8>, Stop>
    requires { D.has_failed description.old ≡ false }
    ensures reads { ReadsUpTo Failed TEXT_LIMIT
        (used (D.remaining description.old) (D.remaining description.new)
        (D.has_failed description.new)) result }
    ensures text { Reads (D.remaining description.old) (λ d.
        IsTextRead (λ text. text.items) d result) }
{
    let Some(text) = read_whole(alloc, description, TEXT_LIMIT)? else {
        return Err(Stop::from(TextFault::TooLarge));
    };
    Ok(text)
}

/// The plat of the notes from one source, and the bytes of the description from another, which is
/// read only if the notes make a plat.
pub(crate) fn read_texts<N: Source, D: Source>(
    alloc: Global,
    notes: &mut N,
    description: &mut D,
) -> Result<Texts, Stop>
    requires notes { N.has_failed notes.old ≡ false }
    requires description { D.has_failed description.old ≡ false }
    ensures reads { ReadsOnPlat Failed TEXT_LIMIT
        (used (N.remaining notes.old) (N.remaining notes.new) (N.has_failed notes.new))
        (used (D.remaining description.old) (D.remaining description.new)
        (D.has_failed description.new))
        (description.new ≡ description.old) result }
    ensures texts { ReadsTwo (N.remaining notes.old) (D.remaining description.old)
        MakePlat (description.new ≡ description.old) (λ n d. AreRead n d result) }
{
    let plat = read_plat(alloc, notes)?;
    let description = read_description(alloc, description)?;
    Ok(Texts { plat, description })
}

/// Writes all the bytes, and then flushes once.
pub fn write_whole<W: Sink>(out: &mut W, bytes: &[u8]) -> Result<(), DeviceFault>
    requires { W.has_failed out.old ≡ false }
    ensures whole { OnOk result (Appends (W.contents out.old) (W.contents out.new) bytes.now) }
    ensures front { OnErr result
        (AppendsFront (W.contents out.old) (W.contents out.new) bytes.now) }
    ensures failed { W.has_failed out.new ≡ is_err result }
{
    let mut at = 0;
    'pieces: while at < bytes.len() {
        at += out.put(&bytes[at..])?;
    }
    out.flush()
}
