//! What a reading assumes that its text doesn't say, in words.
ghost use Rattle.std.specs.Prelude.{◌≡◌, ◌↔◌, false, All, IfOk, IsTrue, string_bytes};
ghost use Rattle.twp_suggest.specs.Told.{AreSaid, Assumes, Grows, IsSaid};

use crate::assumptions::{Assumption, assumption_of};
use crate::phrases::phrase_of;
use std::alloc::AllocError;
use twp_excerpt::write_escaped;
use twp_rules::Change;

/// The most phrases that are named for an assumption.
const NAMED_MOST: usize = 3;

/// Appends what changes of a text assume that it doesn't say: for each assumption, the phrases that
/// it is about.
pub(crate) fn write_assumptions(
    text: &[u8],
    changes: &[Change<'_>],
    out: &mut String,
) -> Result<(), AllocError>
    ensures { IfOk result (λ _. AreSaid text.now changes.now (string_bytes out.new)) }
{
    write_assumption(text, changes, Assumption::SameMeridian, out)?;
    write_assumption(text, changes, Assumption::SameAcreage, out)?;
    write_assumption(text, changes, Assumption::NotLand, out)?;
    write_assumption(text, changes, Assumption::SaidBefore, out)?;
    write_assumption(text, changes, Assumption::WrongLetter, out)?;
    write_assumption(text, changes, Assumption::NoMissingComma, out)?;
    Ok(())
}

/// Appends an assumption, if some changes make it, and the phrases of the text that it is about.
#[tactic(auto, using(crate::proofs::ToldFacts::same, crate::proofs::ToldFacts::none_made, crate::proofs::ToldFacts::said_at_end, crate::proofs::ToldFacts::grown, crate::proofs::ToldFacts::on))]
fn write_assumption(
    text: &[u8],
    changes: &[Change<'_>],
    assumption: Assumption,
    out: &mut String,
) -> Result<(), AllocError>
    ensures said { IfOk result (λ _. All (IsSaid text.now (string_bytes out.new) assumption) changes.now) }
    ensures more { IfOk result (λ _. Grows (string_bytes out.old) (string_bytes out.new)) }
{
    let made = is_made(text, changes, assumption);
    if !made {
        return Ok(());
    }
    write_phrases(text, changes, assumption, out)?;
    out.push_str(": ")?;
    out.push_str(assumption.words())?;
    Ok(())
}

/// Whether some changes of a text make an assumption.
fn is_made(text: &[u8], changes: &[Change<'_>], assumption: Assumption) -> bool
    ensures { result ≡ false → All (λ change. Assumes text.now assumption change → ⊥) changes.now }
{
    for change in changes {
        if assumes(text, change, assumption) {
            return true;
        }
    }
    false
}

/// Appends the phrases of a text that an assumption is about, each once.
fn write_phrases(
    text: &[u8],
    changes: &[Change<'_>],
    assumption: Assumption,
    out: &mut String,
) -> Result<(), AllocError>
    ensures { IfOk result (λ _. Grows (string_bytes out.old) (string_bytes out.new)) }
{
    let mut count: usize = 0;
    for index in 0..changes.len() {
        let change = &changes[index];
        let earlier = &changes[..index];
        if !assumes(text, change, assumption) || is_said(text, earlier, change, assumption) {
            continue;
        }
        if count == NAMED_MOST {
            out.push_str(", and others")?;
            break;
        }
        write_phrase(
            before_phrase(count, out.is_empty(), assumption),
            phrase_of(text, change),
            out,
        )?;
        count += 1;
    }
    Ok(())
}

/// What to write before the next phrase of an assumption, after `count` others: a separator, and
/// before the first one `without`, if the phrases are left out.
fn before_phrase(count: usize, is_first: bool, assumption: Assumption) -> &'static str {
    match (count, is_first, assumption.is_of_left_out()) {
        (0, true, true) => "without ",
        (0, true, false) => "",
        (0, false, true) => "; without ",
        (0, false, false) => "; ",
        _ => ", ",
    }
}

/// Appends a phrase in backquotes, and what is before it.
#[tactic(auto, using(crate::proofs::ToldFacts::grown, crate::proofs::ToldFacts::on))]
fn write_phrase(before: &str, phrase: &[u8], out: &mut String) -> Result<(), AllocError>
    ensures { IfOk result (λ _. Grows (string_bytes out.old) (string_bytes out.new)) }
{
    out.push_str(before)?;
    out.push_str("`")?;
    write_escaped(phrase.trim_ascii(), out)?;
    out.push_str("`")?;
    Ok(())
}

/// Whether a change of a text makes an assumption.
fn assumes(text: &[u8], change: &Change<'_>, assumption: Assumption) -> bool
    ensures { IsTrue result ↔ Assumes text.now assumption change.now }
{
    assumption_of(text, change) == Some(assumption)
}

/// Whether one of some changes makes an assumption about the same phrase as another change.
fn is_said(
    text: &[u8],
    changes: &[Change<'_>],
    other: &Change<'_>,
    assumption: Assumption,
) -> bool {
    let phrase = phrase_of(text, other).trim_ascii();
    for change in changes {
        let said = phrase_of(text, change).trim_ascii();
        if assumes(text, change, assumption) && said == phrase {
            return true;
        }
    }
    false
}
