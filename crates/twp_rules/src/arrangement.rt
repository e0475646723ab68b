//! Whether land lies with the section that the text gives it to.
ghost use Rattle.std.specs.Prelude.{◌≡◌, ◌++◌, true, IfOk, None, drop, map, slice_range};
ghost use Rattle.twp_rules.specs.Arrangement.{has_break, has_no_other, is_after, is_list_from, is_listed_at};
ghost use Rattle.twp_rules.specs.Arrangement.{is_colon, is_joined, is_no_other};
ghost use Rattle.twp_rules.specs.Arrangement.{is_number_with_colon, is_one_list, leads_to};
ghost use Rattle.twp_rules.specs.Arrangement.{lie_from, lie_with_sections, lies, lies_after, lies_before};
ghost use Rattle.twp_rules.specs.Changes.{seen};
ghost use Rattle.twp_rules.specs.steps.Sections.{begins_with_section, section_before, sections_of};

use crate::alone::is_alone;
use crate::apart::is_blank;
use crate::change::Change;
use crate::context::before;
use crate::endings::beside::*;
use crate::figures::without_white;
use crate::keeping::rest_of;
use crate::lying::Lying;
use crate::mark::Mark;
use crate::naming::{begins_word, byte_at, digits_of, word_of};
use crate::origins::marks_of;
use crate::roles::goes_on_with_list;
use crate::words::sections::is_in_section_names;
use std::alloc::{AllocError, Global};
use twp_grammar::Item;

/// Of fewer marks, a list of the sections among them takes longer than it saves.
const MARKS_FEW: usize = 16;

/// Whether all land of a changed text lies with the section that the text gives it to. The items
/// are those of the changed text from an offset on.
#[tactic(auto, using(crate::proofs::AloneFacts::alone_lies, crate::proofs::SectionFacts::lie_by_sections))]
pub fn lie_with_sections(
    alloc: Global,
    text: &[u8],
    changes: &[Change<'_>],
    base: usize,
    items: &[Item],
) -> Result<bool, AllocError>
    ensures { IfOk result (λ it. it ≡ true →
        lie_with_sections text.now (map seen changes.now) base items.now ≡ true) }
{
    if is_alone(changes, base, items) {
        return Ok(true);
    }
    let Some(marks) = marks_of(alloc, changes, base, items)? else {
        return Ok(false);
    };
    if marks.len() < MARKS_FEW {
        return Ok(lie(text, marks.as_slice(), marks.as_slice()));
    }
    let sections = sections_of(alloc, marks.as_slice())?;
    Ok(lie(text, sections.as_slice(), marks.as_slice()))
}

/// The sections among marks. They are compared with each piece of land, and land with none, so a
/// list of them alone saves most of the comparisons. A single section is named twice, as the first
/// and the last of a list.
fn sections_of(alloc: Global, marks: &[Mark]) -> Result<Vec<Mark>, AllocError>
    ensures { IfOk result (λ it. it.items ≡ sections_of marks.now) }
{
    let mut sections = Vec::with_capacity(alloc, marks.len())?;
    let mut left = marks;
    while let [mark, more @ ..] = left {
        add_section(*mark, more, &mut sections)?;
        left = more;
    }
    Ok(sections)
}

/// Adds a mark before others to sections, if it is one, and the next one isn't the same.
fn add_section(mark: Mark, more: &[Mark], sections: &mut Vec<Mark>) -> Result<(), AllocError>
    ensures { IfOk result (λ _. sections.new.items ≡ sections.old.items ++ section_before mark more.now) }
{
    match mark {
        Mark::Section(number, place) => {
            if !begins_with_section(number, place, more) {
                sections.push(Mark::Section(number, place))?;
            }
        }
        Mark::Land(_) => {}
    }
    Ok(())
}

/// Whether the first of some marks is this section.
fn begins_with_section(number: u16, place: usize, marks: &[Mark]) -> bool
    ensures { result ≡ begins_with_section number place marks.now }
{
    match marks {
        [mark, ..] => match *mark {
            Mark::Section(next, spot) => next == number && spot == place,
            Mark::Land(_) => false,
        },
        [] => false,
    }
}

/// Whether all land lies with its section, of these sections.
fn lie(text: &[u8], sections: &[Mark], marks: &[Mark]) -> bool
    ensures { result ≡ lie_from text.now sections.now 0 0 None marks.now }
{
    let mut number = 0;
    let mut section = 0;
    let mut last: Option<Lying> = None;
    for mark in marks {
        match *mark {
            Mark::Section(next, place) => {
                number = next;
                section = place;
            }
            Mark::Land(place) => {
                let it = Lying {
                    number,
                    section,
                    land: place,
                };
                if !lies(text, sections, last, it) {
                    return false;
                }
                last = Some(it);
            }
        }
    }
    true
}

/// Whether land lies with its section, after other land.
fn lies(text: &[u8], marks: &[Mark], last: Option<Lying>, it: Lying) -> bool
    ensures { result ≡ lies text.now marks.now last it }
{
    if is_after(it) {
        return has_no_other(text, it, it.section, it.land, marks)
            && lies_after(text, marks, last, it);
    }
    has_no_other(text, it, it.land, it.section, marks) && lies_before(text, marks, last, it)
}

/// Whether land is after its section.
fn is_after(it: Lying) -> bool
    ensures { result ≡ is_after it }
{
    it.section <= it.land
}

/// Whether land that is after its section lies with it.
fn lies_after(text: &[u8], marks: &[Mark], last: Option<Lying>, it: Lying) -> bool
    ensures { result ≡ lies_after text.now marks.now last it }
{
    let Some(last) = last else {
        return true;
    };
    if is_after(last) {
        return true;
    }
    if last.section == it.section {
        return has_break(part(text, it.section, it.land))
            || has_no_other(text, it, 0, text.len(), marks);
    }
    has_break(part(text, last.section, it.section))
}

/// Whether land that is before its section lies with it.
fn lies_before(text: &[u8], marks: &[Mark], last: Option<Lying>, it: Lying) -> bool
    ensures { result ≡ lies_before text.now marks.now last it }
{
    let Some(last) = last else {
        return has_no_other(text, it, 0, it.land, marks)
            || has_break(part(text, 0, it.land))
            || is_joined(text, it);
    };
    !is_after(last)
        || (has_break(part(text, last.land, it.land))
            && !has_break(part(text, last.section, last.land))
            && !has_break(part(text, it.land, it.section)))
}

/// Whether `and` joins land to sections before it, and `of` is between the land and its own section.
fn is_joined(text: &[u8], it: Lying) -> bool
    ensures { result ≡ is_joined text.now it }
{
    has_land_joints(before(text, it.land)) && has_section_joints(before(text, it.section))
}

/// Whether no other section is from one place up to another, but those of the same list.
fn has_no_other(text: &[u8], it: Lying, from: usize, to: usize, marks: &[Mark]) -> bool
    ensures { result ≡ has_no_other text.now it from to marks.now }
{
    for mark in marks {
        if !is_no_other(text, it, from, to, *mark) {
            return false;
        }
    }
    true
}

/// Whether a mark is no other section from one place up to another, or one in the same list.
fn is_no_other(text: &[u8], it: Lying, from: usize, to: usize, mark: Mark) -> bool
    ensures { result ≡ is_no_other text.now it from to mark }
{
    match mark {
        Mark::Land(_) => true,
        Mark::Section(number, place) => {
            number == it.number
                || ((place < from || to <= place) && !leads_to(text, place, it.land))
                || is_one_list(text, it.section, place)
        }
    }
}

/// Whether only a colon is between the number of a section and land.
fn leads_to(text: &[u8], section: usize, land: usize) -> bool
    ensures { result ≡ leads_to text.now section land }
{
    is_number_with_colon(part(text, section, land))
}

/// Whether the digits of a number, and a colon, are all of a text.
fn is_number_with_colon(seen: &[u8]) -> bool
    ensures { result ≡ is_number_with_colon seen.now }
{
    is_colon(rest_of(seen, digits_of(seen).len()))
}

/// Whether a colon, with white space, is all of a text.
fn is_colon(seen: &[u8]) -> bool
    ensures { result ≡ is_colon seen.now }
{
    let rest = without_white(seen);
    byte_at(rest, 0) == b':' && is_blank(rest_of(rest, 1))
}

/// Whether only words of a list of sections are between two places.
fn is_one_list(text: &[u8], one: usize, other: usize) -> bool
    ensures { result ≡ is_one_list text.now one other }
{
    if one <= other {
        return is_list(part(text, one, other));
    }
    is_list(part(text, other, one))
}

/// Whether each word of a text is of a list of sections.
fn is_list(seen: &[u8]) -> bool
    ensures { result ≡ is_list_from seen.now 0 seen.now }
{
    for at in 0..seen.len() {
        if !is_listed_at(seen, at) {
            return false;
        }
    }
    true
}

/// Whether the word at a place, if one begins there, is of a list of sections.
fn is_listed_at(seen: &[u8], at: usize) -> bool
    ensures { result ≡ is_listed_at seen.now at (drop at seen.now) }
{
    if !begins_word(seen, at) {
        return true;
    }
    let word = word_of(rest_of(seen, at));
    goes_on_with_list(word) || is_in_section_names(word)
}

/// Whether a semicolon or a line end is in a text.
fn has_break(seen: &[u8]) -> bool
    ensures { result ≡ has_break seen.now }
{
    for byte in seen {
        if *byte == b';' || *byte == b'\n' {
            return true;
        }
    }
    false
}

/// The bytes of a text from one place up to another, as far as there are any.
pub(crate) fn part(text: &[u8], from: usize, to: usize) -> &[u8]
    ensures { result.now ≡ slice_range text.now from to }
{
    let rest = rest_of(text, from);
    let count = to.saturating_sub(from);
    if count >= rest.len() {
        return rest;
    }
    let (front, _) = rest.split_at(count);
    front
}
