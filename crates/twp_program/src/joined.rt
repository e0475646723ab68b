ghost use Rattle.std.specs.Prelude.{◌≡◌, ◌≢◌, ◌==◌, ◌≤◌, ◌↔◌, ℕ, List, length, Some, true, false};
ghost use Rattle.std.specs.Prelude.{IsErrOf, IsOkUnless};
ghost use Rattle.std.specs.List.{before_first, after_first, position_or_len};
ghost use Rattle.twp_grid.specs.Devices.{TakesAtMost};
ghost use Rattle.twp_grid.specs.Devices.{TakesFirst};
ghost use Rattle.twp_read.specs.Doubts.{HasNoDoubtfulPlace};
ghost use Rattle.twp_read.specs.declared.doubt.Clarity.{Clarity};
ghost use Rattle.twp_answers.specs.Answers.{IsAcresAnswer};
ghost use Rattle.twp_program.specs.Joined.{JOINED_MOST, joined_notes, joined_description};
ghost use Rattle.twp_answers.specs.Uses.{Reads};
ghost use Rattle.twp_answers.specs.Runs.{IsRun};

use memchr::memchr;
use std::alloc::Global;
use twp_answers::{Account, Ran, RunFault, Verdict, run_acres_noting};
use twp_grid::{Bytes, Sink, Source};
use twp_notes::read_up_to;

/// The most bytes of joined input: a description, a line feed, and one byte more than notes can
/// have.
const MOST_BYTES: usize = 131_074;

/// The byte that ends the description of joined input.
const LINE_FEED: u8 = b'\n';

/// Reads a description and field notes from one source, and answers as `run_acres` does: the
/// description is the text before the first line feed, and the notes are the text after it. No more
/// than the first 131,074 bytes are read.
#[inline(never)]
pub fn run_joined<R: Source, W: Sink>(
    alloc: Global,
    input: &mut R,
    out: &mut W,
) -> Result<Verdict, RunFault>
    requires input { R.has_failed input.old ≡ false }
    requires out { W.has_failed out.old ≡ false }

    // A device's fault is returned exactly if that device failed in this call.
    ensures read { IsErrOf result RunFault.Read ↔ (R.has_failed input.new ≡ true) }
    ensures write { IsErrOf result RunFault.Write ↔ (W.has_failed out.new ≡ true) }

    // Reading ends at most with the last byte that is used.
    ensures most { TakesAtMost (R.remaining input.old) (R.remaining input.new) JOINED_MOST }

    // It ends exactly there or at the end of the input, if the reader does not fail and memory does
    // not run out.
    ensures exact { R.has_failed input.new ≡ false → result ≢ Err RunFault.Memory
        → TakesFirst (R.remaining input.old) (R.remaining input.new) JOINED_MOST }

    // The text that was written is the answer for the bytes that were read, whether or not they are
    // known.
    ensures ran { Reads (R.remaining input.old) (λ bytes.
        IsRun (IsAcresAnswer (joined_notes bytes) (joined_description bytes))
        (W.contents out.old) (W.contents out.new) result) }

    // The same for a source whose bytes are known, in single facts.
    ensures answers { R.has_failed input.new ≡ false → W.has_failed out.new ≡ false
        → IsOkUnless result RunFault.Memory }
    ensures told { (bytes : List ℕ) → R.remaining input.old ≡ Some bytes
        → IsRun (IsAcresAnswer (joined_notes bytes) (joined_description bytes))
        (W.contents out.old) (W.contents out.new) result }
{
    run_joined_noting(alloc, input, out).outcome
}

/// Answers joined input as `run_joined` does, with the same clauses, and notes whether the description may
/// have a place that can be read in two ways.
#[inline(never)]
pub fn run_joined_noting<R: Source, W: Sink>(alloc: Global, input: &mut R, out: &mut W) -> Ran
    requires input { R.has_failed input.old ≡ false }
    requires out { W.has_failed out.old ≡ false }

    // A device's fault is returned exactly if that device failed in this call.
    ensures read { IsErrOf result.outcome RunFault.Read ↔ (R.has_failed input.new ≡ true) }
    ensures write { IsErrOf result.outcome RunFault.Write ↔ (W.has_failed out.new ≡ true) }

    // Reading ends at most with the last byte that is used.
    ensures most { TakesAtMost (R.remaining input.old) (R.remaining input.new) JOINED_MOST }

    // It ends exactly there or at the end of the input, if the reader does not fail and memory does
    // not run out.
    ensures exact { R.has_failed input.new ≡ false → result.outcome ≢ Err RunFault.Memory
        → TakesFirst (R.remaining input.old) (R.remaining input.new) JOINED_MOST }

    // The text that was written is the answer for the bytes that were read, whether or not they are
    // known.
    ensures ran { Reads (R.remaining input.old) (λ bytes.
        IsRun (IsAcresAnswer (joined_notes bytes) (joined_description bytes))
        (W.contents out.old) (W.contents out.new) result.outcome) }

    // The same for a source whose bytes are known, in single facts.
    ensures answers { R.has_failed input.new ≡ false → W.has_failed out.new ≡ false
        → IsOkUnless result.outcome RunFault.Memory }
    ensures told { (bytes : List ℕ) → R.remaining input.old ≡ Some bytes
        → IsRun (IsAcresAnswer (joined_notes bytes) (joined_description bytes))
        (W.contents out.old) (W.contents out.new) result.outcome }

    // What is noted as clear has no doubtful place.
    ensures clear { (bytes : List ℕ) → R.remaining input.old ≡ Some bytes
        → result.clarity ≡ Clarity.Clear → HasNoDoubtfulPlace (joined_description bytes) }
{
    let bytes = match read_up_to(alloc, input, MOST_BYTES) {
        Ok(bytes) => bytes,
        Err(fault) => return Ran::failed(RunFault::from(fault)),
    };
    let (description, notes) = split_at_line_feed(bytes.as_slice());
    run_acres_noting(
        alloc,
        &mut Bytes::new(notes),
        &mut Bytes::new(description),
        out,
        Account::Exact,
    )
}

/// The bytes before the first line feed and those after it; all and none if there is no line feed.
pub fn split_at_line_feed(bytes: &[u8]) -> (&[u8], &[u8])
    ensures before { result.0.now ≡ before_first (λ byte. byte == 10) bytes.now }
    ensures after { result.1.now ≡ after_first (λ byte. byte == 10) bytes.now }
{
    let at = line_feed_place(bytes);
    if at == bytes.len() {
        return (bytes, b"");
    }
    (&bytes[..at], &bytes[at + 1..])
}

/// The index of the first line feed, or the length if there is none.
fn line_feed_place(bytes: &[u8]) -> usize
    ensures place { result ≡ position_or_len (λ byte. byte == 10) bytes.now }
    ensures within { result ≤ length bytes.now }
{
    memchr(LINE_FEED, bytes).unwrap_or(bytes.len())
}
