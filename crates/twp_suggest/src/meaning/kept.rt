//! What a changed text keeps, and what it takes away, if it excepts land: its first exception, and
//! its divisions.
ghost use Rattle.std.specs.Prelude.{◌≡◌, ◌≢◌, ◌≤◌, ◌<◌, ◌++◌, ◌∷◌, [], ℕ, IfOk, IfSome, MatchBool, MatchOption, OnOk};
ghost use Rattle.std.specs.Prelude.{drop, length, slice_index, take};
ghost use Rattle.twp_suggest.specs.Excepting.{HasNoExceptBefore, HasNoSemicolon, IsDivided};
ghost use Rattle.twp_suggest.specs.Excepting.{AreAroundExcept, alone, blanks};
ghost use Rattle.twp_suggest.specs.Excepting.{except, kept, semicolon, taken, without};
ghost use Rattle.twp_suggest.specs.steps.ExceptingSteps.{IsDivisionAdded};

use std::alloc::{AllocError, Global};

/// What is between land and what it is without.
pub(crate) const EXCEPT: &[u8] = b" except ";

/// A text before its first `except`, and after it.
#[derive(Clone, Copy)]
pub(crate) struct Excepting<'a> {
    pub(crate) whole: &'a [u8],
    pub(crate) excepted: &'a [u8],
}

/// What the divisions of a text keep, and what they take away.
#[derive(Drop)]
pub(crate) struct Divided {
    pub(crate) whole: Vec<u8>,
    pub(crate) excepted: Vec<u8>,
}

/// The first division of a text, and the text after the semicolon that ends it.
#[derive(Clone, Copy)]
struct FirstDivision<'a> {
    text: &'a [u8],
    more: Option<&'a [u8]>,
}

/// What the divisions of a text keep: their land, and blanks instead of each exception. And what
/// they take away: blanks instead of all but the exceptions, and a semicolon between two of them.
pub(crate) fn divide(alloc: Global, made: &[u8]) -> Result<Divided, AllocError>
    ensures { IfOk result (λ it. IsDivided made.now it.whole.items it.excepted.items) }
{
    let mut whole = Vec::with_capacity(alloc, made.len())?;
    let mut excepted = Vec::with_capacity(alloc, made.len())?;
    let mut mark = b' ';
    let mut rest = made;
    'divisions: loop {
        let division = first_division(rest);
        mark = add_division(&mut whole, &mut excepted, division.text, mark)?;
        let Some(more) = division.more else {
            return Ok(Divided { whole, excepted });
        };
        whole.push(b';')?;
        excepted.push(b' ')?;
        rest = more;
    }
}

/// The first division of a text.
fn first_division(text: &[u8]) -> FirstDivision<'_>
    ensures none { HasNoSemicolon result.text.now }
    ensures rest { MatchOption result.more (text.now ≡ result.text.now)
        (λ more. text.now ≡ result.text.now ++ semicolon ∷ more.now) }
{
    let at = before_semicolon(text);
    let (first, rest) = text.split_at(at);
    let Some((_, more)) = rest.split_first() else {
        return FirstDivision {
            text: first,
            more: None,
        };
    };
    FirstDivision {
        text: first,
        more: Some(more),
    }
}

/// Adds a division to what is kept and to what is taken away, in which a mark is before an
/// exception. Returns the mark before the next one.
fn add_division(
    whole: &mut Vec<u8>,
    excepted: &mut Vec<u8>,
    text: &[u8],
    mark: u8,
) -> Result<u8, AllocError>
    requires { HasNoSemicolon text.now }
    ensures { IfOk result (λ after. IsDivisionAdded text.now mark after whole.old.items whole.new.items
        excepted.old.items excepted.new.items) }
{
    match around_except(text) {
        Some(parts) => {
            add_exception(whole, excepted, parts, mark)?;
            Ok(b';')
        }
        None => {
            add_land(whole, excepted, text)?;
            Ok(mark)
        }
    }
}

/// Adds land that nothing is excepted from.
fn add_land(whole: &mut Vec<u8>, excepted: &mut Vec<u8>, land: &[u8]) -> Result<(), AllocError>
    ensures whole { OnOk result (whole.new.items ≡ whole.old.items ++ kept (alone land.now)) }
    ensures excepted { OnOk result ((mark : ℕ)
        → excepted.new.items ≡ excepted.old.items ++ taken mark (alone land.now)) }
{
    whole.extend_from_slice(land)?;
    add_blanks(excepted, land.len())
}

/// Adds land, and what is excepted from it.
fn add_exception(
    whole: &mut Vec<u8>,
    excepted: &mut Vec<u8>,
    parts: Excepting<'_>,
    mark: u8,
) -> Result<(), AllocError>
    ensures whole { OnOk result (whole.new.items
        ≡ whole.old.items ++ kept (without parts.entry.whole.now parts.entry.excepted.now)) }
    ensures excepted { OnOk result (excepted.new.items
        ≡ excepted.old.items ++ taken mark (without parts.entry.whole.now parts.entry.excepted.now)) }
{
    keep(whole, parts)?;
    take(excepted, parts, mark)
}

/// Adds land, and blanks instead of what is excepted from it.
fn keep(whole: &mut Vec<u8>, parts: Excepting<'_>) -> Result<(), AllocError>
    ensures { OnOk result (whole.new.items
        ≡ whole.old.items ++ kept (without parts.entry.whole.now parts.entry.excepted.now)) }
{
    whole.extend_from_slice(parts.whole)?;
    add_blanks(whole, EXCEPT.len())?;
    add_blanks(whole, parts.excepted.len())
}

/// Adds what is excepted after a mark, and blanks instead of the rest.
fn take(excepted: &mut Vec<u8>, parts: Excepting<'_>, mark: u8) -> Result<(), AllocError>
    ensures { OnOk result (excepted.new.items
        ≡ excepted.old.items ++ taken mark (without parts.entry.whole.now parts.entry.excepted.now)) }
{
    add_blanks(excepted, parts.whole.len())?;
    excepted.push(mark)?;
    add_blanks(excepted, EXCEPT.len() - 1)?;
    excepted.extend_from_slice(parts.excepted)
}

/// Adds as many blanks.
fn add_blanks(text: &mut Vec<u8>, count: usize) -> Result<(), AllocError>
    ensures { OnOk result (text.new.items ≡ text.old.items ++ blanks count) }
{
    for _index in 0..count {
        text.push(b' ')?;
    }
    Ok(())
}

/// Whether a text contains a semicolon.
pub(crate) fn has_semicolon(text: &[u8]) -> bool
    ensures { MatchBool result (¬ HasNoSemicolon text.now) (HasNoSemicolon text.now) }
{
    before_semicolon(text) < text.len()
}

/// How many bytes are before the first semicolon of a text.
fn before_semicolon(text: &[u8]) -> usize
    ensures within { result ≤ length text.now }
    ensures none { (at : ℕ) → at < result → slice_index text.now at ≢ semicolon }
    ensures ends { result < length text.now → slice_index text.now result ≡ semicolon }
{
    for at in 0..text.len() {
        if text[at] == b';' {
            return at;
        }
    }
    text.len()
}

/// The texts before the first `except` and after it.
pub(crate) fn around_except(text: &[u8]) -> Option<Excepting<'_>>
    ensures { MatchOption result (HasNoExceptBefore text.now (length text.now))
        (λ parts. AreAroundExcept text.now parts.whole.now parts.excepted.now) }
{
    for at in 0..text.len() {
        if let Some(parts) = split_at_except(text, at) {
            return Some(parts);
        }
    }
    None
}

/// The texts before a place and after the `except` there.
fn split_at_except(text: &[u8], at: usize) -> Option<Excepting<'_>>
    requires { at ≤ length text.now }
    ensures none { MatchOption result (take (length except) (drop at text.now) ≢ except)
        (λ parts. length parts.whole.now ≡ at) }
    ensures some { IfSome result (λ parts. text.now ≡ parts.whole.now ++ except ++ parts.excepted.now) }
{
    let (whole, rest) = text.split_at(at);
    if rest.len() < EXCEPT.len() {
        return None;
    }
    let (mark, excepted) = rest.split_at(EXCEPT.len());
    if mark != EXCEPT {
        return None;
    }
    Some(Excepting { whole, excepted })
}
