//! Why a text isn't read as a description.
ghost use Rattle.std.specs.Prelude.{◌≡◌, ◌≢◌, ◌+◌, None, length, min, IfOk, IfSome};
ghost use Rattle.twp_diagnose.specs.Sights.{shown_place};
ghost use Rattle.twp_read.specs.declared.fault.TextFault.TheVariants.{TooLarge};
ghost use Rattle.twp_sentences.specs.ShownPlaces.{ShowsAt};
ghost use Rattle.twp_diagnose.specs.Suggestions.{NamesLandOf};
ghost use Rattle.twp_grid.specs.Lands.{lotting};
ghost use Rattle.twp_sentences.specs.Underlined.{EndsAt, EndsWithSign};

mod character;

use crate::descriptions::help::{Help, help_with};
use crate::descriptions::text::character::write_not_allowed;
use std::alloc::{AllocError, Global};
use twp_diagnose::{Finding, Location, Origin, Suggests, Surroundings};
use twp_excerpt::{Span, write_escaped};
use twp_grammar::Expected;
use twp_grid::{Refusal, Township};
use twp_land::Lotting;
use twp_read::TextFault;

/// The most bytes of a token that a sentence quotes.
const QUOTED_LIMIT: usize = 20;

/// The explanation of a text, which is the whole of its file or a field of it, that has a fault.
pub(crate) fn find<S: Suggests, P: Lotting>(
    alloc: Global,
    origin: &Origin<'_>,
    text: &[u8],
    township: Township,
    lots: &P,
    fault: TextFault,
    refusal: Refusal,
) -> Result<Finding, AllocError>
    ensures refusal { IfOk result (λ finding. finding.refusal ≡ refusal) }
    ensures place { IfOk result (λ finding.
        ShowsAt origin.now fault (shown_place text.now refusal.at) finding.place) }
    ensures end { fault ≢ TooLarge → IfOk result (λ finding.
        EndsWithSign origin.now text.now refusal.at finding.place) }
    ensures other { IfOk result (λ finding. finding.other ≡ None) }
    ensures reading { IfOk result (λ finding.
        IfSome finding.reading
        (λ text. NamesLandOf (lotting (P.layout lots.now)) township text.items)) }
{
    let expected = expected(fault);
    let sight = Surroundings::of(text, refusal, expected);
    let mut sentence = String::new(alloc);
    write_sentence(&sight, fault, &mut sentence)?;
    let Help {
        text: help,
        reading,
    } = help_with::<S, P>(alloc, &sight, township, lots)?;
    Ok(Finding {
        refusal,
        place: place(origin, text, &sight, fault),
        sentence,
        help,
        other: None,
        reading,
    })
}

/// What is expected where a fault of syntax is.
fn expected(fault: TextFault) -> Option<Expected> {
    match fault {
        TextFault::Syntax { expected, .. } => Some(expected),
        _ => None,
    }
}

/// What is underlined: the refused sign, or the place where the text ends.
#[tactic(auto, using(crate::proofs::UnderlinedFacts::shows_a_part))]
fn place(origin: &Origin<'_>, text: &[u8], sight: &Surroundings<'_>, fault: TextFault) -> Location
    ensures begins { ShowsAt origin.now fault sight.now.start result }
    ensures ends { fault ≢ TooLarge
        → EndsAt origin.now (min (sight.now.start + length sight.now.at.bytes.now) (length text.now)) result }
{
    if fault == TextFault::TooLarge {
        return Location::Whole;
    }
    let end = sight.start.saturating_add(sight.at.bytes.len());
    let end = end.min(text.len());
    Location::Part(Span {
        start: origin.in_file(sight.start),
        end: origin.in_file(end),
    })
}

/// Appends what is wrong.
fn write_sentence(
    sight: &Surroundings<'_>,
    fault: TextFault,
    out: &mut String,
) -> Result<(), AllocError> {
    match fault {
        TextFault::TooLarge => out.push_str("the description is longer than 65,536 bytes"),
        TextFault::BadByte { .. } => write_not_allowed(sight.at.bytes, out),
        TextFault::BadNumber { .. } => {
            write_quoted(sight.at.bytes, out)?;
            out.push_str(" has more than four digits")
        }
        TextFault::Syntax { expected, .. } => write_syntax(sight, expected, out),
        TextFault::Memory => out.push_str("out of memory"),
    }
}

/// Appends what goes wrong at a token, or where a text ends.
fn write_syntax(
    sight: &Surroundings<'_>,
    expected: Expected,
    out: &mut String,
) -> Result<(), AllocError> {
    if !sight.at.bytes.is_empty() {
        out.push_str("unexpected `")?;
        write_quoted(sight.at.bytes, out)?;
        out.push_str(if expected == Expected::Nothing {
            "`: the period before it ends the description"
        } else {
            "`; "
        })?;
    } else if sight.before.bytes.is_empty() {
        out.push_str("the description is empty: ")?;
    } else {
        out.push_str("incomplete description: ")?;
    }
    if expected == Expected::Nothing {
        return Ok(());
    }
    write!(out, "expected {}", expected)
}

/// Appends a token, cut where it is long.
fn write_quoted(token: &[u8], out: &mut String) -> Result<(), AllocError> {
    if token.len() <= QUOTED_LIMIT {
        return write_escaped(token, out);
    }
    write_escaped(&token[..QUOTED_LIMIT], out)?;
    out.push_str("..")
}
