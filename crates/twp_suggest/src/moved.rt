//! What is written before land: the township and range, and the section, where they are after it.

use crate::outline::Outline;
use crate::writer::ChangeWriter;
use std::alloc::{AllocError, Global};
use twp_asides::plus;
use twp_draft::{IndexRange, Phrase, PhraseKind, Placed, Role};
use twp_read::TEXT_LIMIT;
use twp_rules::Rule;

/// The most bytes of a text that is read as land and an exception.
const EXCEPTING_MOST: usize = 2 * TEXT_LIMIT + 8;

/// The fewest bytes that are written for a section besides its parts, as in `sec. 1, ; `.
const SECTION_LEAST: usize = 10;

impl<'p, 'a> ChangeWriter<'p, 'a> {
    /// The township and range that have to be written first, if they aren't.
    pub(crate) fn moved_heading(&self, list: &[Placed]) -> Option<Phrase> {
        for placed in list {
            if placed.phrase.kind == PhraseKind::Heading {
                return match placed.role {
                    Role::Kept(_) => None,
                    Role::LeftOut => Some(placed.phrase),
                };
            }
        }
        None
    }

    /// Writes the township and range before the first phrase.
    pub(crate) fn write_heading(
        &mut self,
        heading: Option<Phrase>,
        placed: &Placed,
        out: &mut Outline<'a>,
    ) {
        let Some(heading) = heading else {
            return;
        };
        let from = self.plan.draft.checkpoint();
        let first = self.plan.draft.changes.len();
        let place = self.plan.draft.pieces.start(placed.phrase.first);
        self.plan.draft.copy_heading(place, heading);
        out.add_all(self.plan.draft.changes.get(first..).unwrap_or(&[]));
        self.plan.draft.shrink(from);
    }

    /// Writes the section before its first land, where it isn't there. Several sections with aliquot parts
    /// each have these parts.
    pub(crate) fn write_section(
        &mut self,
        alloc: Global,
        placed: &Placed,
        lands: &[Placed],
        out: &mut Outline<'a>,
    ) -> Result<(), AllocError> {
        let Some(numbers) = placed.section else {
            return Ok(());
        };
        let from = self.plan.draft.checkpoint();
        let first = self.plan.draft.changes.len();
        let place = self.plan.draft.pieces.start(placed.phrase.first);
        let count = numbers.end.saturating_sub(numbers.first);
        let is_each = count > 1 && placed.phrase.kind == PhraseKind::Part;
        let word: &'static [u8] = if count == 1 || is_each {
            b"sec. "
        } else {
            b"secs. "
        };
        self.plan.draft.write(place, place, word, Rule::SectionWord);
        let parts = if is_each {
            self.parts_of(alloc, placed.role, lands)?
        } else {
            Vec::new(alloc)
        };
        let most = if out.has_except {
            EXCEPTING_MOST
        } else {
            TEXT_LIMIT
        };
        let each = plus(self.size_of(parts.as_slice()), SECTION_LEAST);
        if is_each && each.saturating_mul(count.saturating_sub(1)) > most {
            self.plan.draft.doubt();
            return Ok(());
        }
        self.copy_sections(numbers, place, is_each, parts.as_slice());
        out.add_all(self.plan.draft.changes.get(first..).unwrap_or(&[]));
        self.plan.draft.shrink(from);
        Ok(())
    }

    /// Writes the numbers of sections at a place; each but the last with these parts, if it has them.
    fn copy_sections(
        &mut self,
        numbers: IndexRange,
        place: usize,
        is_each: bool,
        parts: &[Phrase],
    ) {
        let last = numbers.end.saturating_sub(1);
        for index in numbers.first..numbers.end {
            if let Some(number) = self.plan.draft.numbers.get(index).copied() {
                self.plan.draft.copy_numeral(place, number, 0);
                self.plan.draft.write(place, place, b", ", Rule::Comma);
            }
            if is_each && index < last {
                self.copy_parts(parts, place);
                let draft = &mut self.plan.draft;
                draft.write(place, place, b"; ", Rule::Semicolon);
                draft.write(place, place, b"sec. ", Rule::SectionWord);
            }
        }
    }

    /// The aliquot parts of a group, with which lands begin. Other land is not sure.
    fn parts_of(
        &mut self,
        alloc: Global,
        group: Role,
        lands: &[Placed],
    ) -> Result<Vec<Phrase>, AllocError> {
        let mut parts = Vec::new(alloc);
        for land in lands {
            match land.role {
                Role::LeftOut => {}
                role if role == group => {
                    if land.phrase.kind != PhraseKind::Part {
                        self.plan.draft.doubt();
                    }
                    parts.push(land.phrase)?;
                }
                Role::Kept(_) => break,
            }
        }
        Ok(parts)
    }

    /// Writes aliquot parts at a place where they aren't.
    fn copy_parts(&mut self, parts: &[Phrase], place: usize) {
        let mut is_first = true;
        for part in parts {
            if !is_first {
                self.plan.draft.write(place, place, b", ", Rule::Comma);
            }
            is_first = false;
            for index in part.steps.first..part.steps.end {
                if let Some(step) = self.plan.draft.steps.get(index).copied() {
                    let rule = Rule::CopiedStep(step.start, step.end);
                    self.plan.draft.write(place, place, step.written, rule);
                }
            }
        }
    }

    /// How many bytes aliquot parts have where they are written again, with commas between them.
    fn size_of(&self, parts: &[Phrase]) -> usize {
        let mut size: usize = 0;
        for part in parts {
            for step in self.plan.draft.steps_of(*part) {
                size = plus(size, step.written.len());
            }
        }
        plus(size, parts.len().saturating_sub(1).saturating_mul(2))
    }
}
