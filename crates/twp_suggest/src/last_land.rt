//! The land that is named last in a text, and whether parts name the same.
ghost use Rattle.std.specs.Prelude.{◌≡◌, ◌≤◌, ◌+◌, true, IfOk, length, drop};
ghost use Rattle.twp_grid.specs.Lands.{lotting};
ghost use Rattle.twp_suggest.specs.Repeats.{IsLastLand, NameLastLand, are_marks, begins_parts, is_before_part, is_last_land, is_last_section, is_mark};
ghost use Rattle.twp_suggest.specs.Repeats.{is_without, name_end, of_section, section_name};

use crate::bytes::{after, between, front};
use crate::meaning::find_named_land;
use std::alloc::{AllocError, Global};
use twp_land::{Land, Lanes, Lotting, PlaceSet};
use twp_rules::{begins_with, digits_of, ends_with};

/// The most places from the right at which the last land is looked for: a list of all lots of a
/// section has no more.
const LAST_MOST: usize = 8;

/// The most places from the left at which all land is looked for: after the name of a section, and
/// after the mark there.
const FIRST_MOST: usize = 2;

/// There is room from the start for so many bytes of land.
const ROOM: usize = 64;

/// Whether parts name the same places as the last land before them, in the same section. Not inlined, since
/// its set of land would be cleared for each text.
#[inline(never)]
pub(crate) fn names_last_land<P: Lotting>(
    alloc: Global,
    before: &[u8],
    parts: &[u8],
    lots: &P,
) -> Result<bool, AllocError>
    ensures { IfOk result (λ it. it ≡ true →
        NameLastLand (lotting (P.layout lots.now)) before.now parts.now) }
{
    let end = end_of_land(before);
    let section = section_before(before, end);
    if !is_last_section(before, section) {
        return Ok(false);
    }
    let again = of_section(alloc, section_name(before, section), parts)?;
    let mut land = Lanes::empty();
    let is_named = find_named_land(alloc, again.as_slice(), &mut land, lots)?;
    if !is_named {
        return Ok(false);
    }
    let is_last = is_last_land(alloc, before, section, end, &land, lots)?;
    Ok(is_last)
}

/// Whether land is the last of a text, in the section that begins at a place, up to another: its
/// last parts, or all of them. Not inlined, since its sets of land would be cleared for each text.
#[inline(never)]
fn is_last_land<P: Lotting>(
    alloc: Global,
    text: &[u8],
    section: usize,
    end: usize,
    land: &Lanes,
    lots: &P,
) -> Result<bool, AllocError>
    requires end { end ≤ length text.now }
    requires last { is_last_section text.now section ≡ true }
    ensures { IfOk result (λ it. it ≡ true →
        IsLastLand (lotting (P.layout lots.now)) text.now section (⟦<Lanes as PlaceSet>⟧.places land.now)) }
{
    let first = first_of_parts(text, section);
    let mut tried = 0;
    for count in 0..end {
        let at = end - 1 - count;
        if at < first || tried == LAST_MOST {
            break;
        }
        if begins_parts(text, first, at) {
            tried += 1;
            let is_it = is_land_at(alloc, text, section, at, end, land, lots)?;
            if is_it {
                return Ok(true);
            }
        }
    }
    are_all_parts(alloc, text, section, end, land, lots)
}

/// Whether land is all parts of a section before a place.
fn are_all_parts<P: Lotting>(
    alloc: Global,
    text: &[u8],
    section: usize,
    end: usize,
    land: &Lanes,
    lots: &P,
) -> Result<bool, AllocError>
    requires end { end ≤ length text.now }
    requires last { is_last_section text.now section ≡ true }
    ensures { IfOk result (λ it. it ≡ true →
        IsLastLand (lotting (P.layout lots.now)) text.now section (⟦<Lanes as PlaceSet>⟧.places land.now)) }
{
    let first = first_of_parts(text, section);
    let mut tried = 0;
    for at in first..end {
        if tried == FIRST_MOST {
            break;
        }
        if begins_parts(text, first, at) {
            tried += 1;
            let is_it = is_land_at(alloc, text, section, at, end, land, lots)?;
            if is_it {
                return Ok(true);
            }
        }
    }
    Ok(false)
}

/// Whether land is the last of a text, from one place up to another. Not inlined, since its set of land would
/// be cleared for places where there can be none.
#[inline(never)]
fn is_land_at<P: Lotting>(
    alloc: Global,
    text: &[u8],
    section: usize,
    at: usize,
    end: usize,
    land: &Lanes,
    lots: &P,
) -> Result<bool, AllocError>
    requires order { at ≤ end }
    requires end { end ≤ length text.now }
    ensures { IfOk result (λ it. it ≡ true →
        IsLastLand (lotting (P.layout lots.now)) text.now section (⟦<Lanes as PlaceSet>⟧.places land.now)) }
{
    if !is_last_land_at(text, section, at, end) {
        return Ok(false);
    }
    let parts = of_section(alloc, section_name(text, section), between(text, at, end))?;
    let mut found = Lanes::empty();
    let is_named = find_named_land(alloc, parts.as_slice(), &mut found, lots)?;
    if !is_named {
        return Ok(false);
    }
    let is_same = found.same(land);
    Ok(is_same)
}

/// Whether the last land of a text may be from one place up to another.
fn is_last_land_at(text: &[u8], section: usize, at: usize, end: usize) -> bool
    requires order { at ≤ end }
    requires end { end ≤ length text.now }
    ensures { result ≡ is_last_land text.now section at end }
{
    is_last_section(text, section)
        && begins_parts(text, first_of_parts(text, section), at)
        && are_marks(after(text, end))
}

/// Where the name of the section at a place ends.
fn first_of_parts(text: &[u8], section: usize) -> usize
    requires { section ≤ length text.now }
    ensures { result ≡ section + name_end (drop section text.now) }
{
    section + name_end(after(text, section))
}

/// The text of a section with parts.
fn of_section(alloc: Global, name: &[u8], parts: &[u8]) -> Result<Vec<u8>, AllocError>
    ensures { IfOk result (λ text. text.items ≡ of_section name.now parts.now) }
{
    let mut text = Vec::with_capacity(alloc, ROOM)?;
    text.extend_from_slice(name)?;
    text.extend_from_slice(b", ")?;
    text.extend_from_slice(parts)?;
    Ok(text)
}

/// The name of the section at a place.
fn section_name(text: &[u8], section: usize) -> &[u8]
    requires { section ≤ length text.now }
    ensures { result.now ≡ section_name text.now section }
{
    let rest = after(text, section);
    front(rest, name_end(rest))
}

/// Where the name of a section ends with which a text begins.
fn name_end(text: &[u8]) -> usize
    ensures end { result ≡ name_end text.now }
    ensures within { result ≤ length text.now }
{
    for index in 0..text.len() {
        if text[index].is_ascii_digit() {
            return index + digits_of(after(text, index)).len();
        }
    }
    text.len()
}

/// Where the last section before a place may begin.
fn section_before(text: &[u8], end: usize) -> usize
    requires { end ≤ length text.now }
    ensures { result ≤ length text.now }
{
    for count in 0..end {
        let at = end - 1 - count;
        if begins_with(after(text, at), b"sec") {
            return at;
        }
    }
    0
}

/// Whether the section that is named last in a text begins at a place.
fn is_last_section(text: &[u8], section: usize) -> bool
    ensures is { result ≡ is_last_section text.now section }
    ensures within { result ≡ true → section ≤ length text.now }
{
    if text.len() < 3 || text.len() - 3 < section {
        return false;
    }
    begins_with(after(text, section), b"sec") && is_without(b"sec", after(text, section + 3))
}

/// Whether parts, or the last steps of one, begin at a place after the name of a section.
fn begins_parts(text: &[u8], name: usize, at: usize) -> bool
    requires { at ≤ length text.now }
    ensures { result ≡ begins_parts text.now name at }
{
    at == name || (name < at && is_before_part(front(text, at)))
}

/// Whether a part may follow, or the last steps of one.
fn is_before_part(front: &[u8]) -> bool
    ensures { result ≡ is_before_part front.now }
{
    ends_with(front, b",")
        || ends_with(front, b":")
        || ends_with(front, b"and")
        || ends_with(front, b"of")
        || ends_with(front, b"the")
}

/// Where the land ends with which a text ends, before marks.
fn end_of_land(text: &[u8]) -> usize
    ensures { result ≤ length text.now }
{
    for count in 0..text.len() {
        let end = text.len() - count;
        if !is_mark(text[end - 1]) {
            return end;
        }
    }
    0
}

/// Whether a text has only marks.
fn are_marks(text: &[u8]) -> bool
    ensures { result ≡ are_marks text.now }
{
    for byte in text {
        if !is_mark(*byte) {
            return false;
        }
    }
    true
}

/// Whether a byte is white space, a comma, or a semicolon.
fn is_mark(byte: u8) -> bool
    ensures { result ≡ is_mark byte }
{
    byte == b' ' || byte == b'\t' || byte == b'\n' || byte == b'\r' || byte == b',' || byte == b';'
}

/// Whether a word begins nowhere in a text.
#[tactic(auto, using(crate::proofs::WordFacts::begins_here, crate::proofs::WordFacts::begins_later))]
pub(crate) fn is_without(word: &[u8], text: &[u8]) -> bool
    ensures { result ≡ is_without word.now text.now }
{
    for index in 0..text.len() {
        if begins_with(after(text, index), word) {
            return false;
        }
    }
    true
}
