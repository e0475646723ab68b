//! Land that lots and aliquot parts can't describe.

use crate::named_townships::are_different;
use crate::pieces::{Pieces, plus};
use std::alloc::{AllocError, Global};
use twp_grammar::Kind;
use twp_words::is_one_of;

/// A phrase that says that lots and aliquot parts can't describe the land: from one place of the text up to
/// another, and the reason, as in `a portion needs a survey`.
#[derive(Clone, Copy)]
pub struct Beyond {
    pub start: usize,
    pub end: usize,
    pub reason: &'static str,
}

/// The phrases, in the order of trying at a word: the word, the pieces before it, the pieces after it, and
/// the reason; a row without one says that the word is no such phrase there. A column of pieces lists what
/// each may be, and has `;` between one piece and the next; periods and commas between the pieces are
/// passed over. `<n>` is a number, and `<t>` one above 36, since the numbers up to 36 are those of
/// sections; `<w>` is a word, `<side>` the letter of a side, `<lot>` the word for lots, and `<land>` what a
/// part of a section begins with.
const PHRASES: &str = "
thence|||it is described by metes and bounds
m||&;b|it is described by metes and bounds
beginning commencing||at|it is described by metes and bounds
beginning|point;of||it is described by metes and bounds
surface||to|it differs by depth
feet foot ft|below above;<n>||
feet foot ft|below above;<n>;<n>||
feet foot rod rods|||it is described by distances
ft|<n>||it is described by distances
strip strips|||it is described by distances
third thirds one-third||( interest interests|
third thirds diagonal one-third|||aliquot parts are halves and quarters
portion portions|||a portion needs a survey
por pors pt ptn|||a portion needs a survey
part|that||a portion needs a survey
lying||<side> north south east west northerly southerly easterly westerly|a portion needs a survey
lying||outside above below between along|a portion needs a survey
canal ditch creek river|<side> north south east west northerly;of||a portion needs a survey
road rd highway hwy railroad|<side> north south east west northerly;of||a portion needs a survey
canal ditch creek river|<side> north south east west northerly;of;the||a portion needs a survey
road rd highway hwy railroad|<side> north south east west northerly;of;the||a portion needs a survey
corner cor|||a corner is a point
block blocks blk|protraction||the land is unsurveyed
block blocks blk||<n>|it names lots of a town plat
addition subdivision|<lot>;<n>;<w>||it names lots of a town plat
addition subdivision|<lot>;<n>;<w>;<w>||it names lots of a town plat
addition||to;the|it names lots of a town plat
subdivision||according recorded plat|it names lots of a town plat
townsite|||it names lots of a town plat
tract tracts tr|farm;<n>||
tract tracts tr||<t>|it names tracts of a resurvey
tx||<n>|it names lots of a tax map
ms mss||<n>|it names a mineral survey
m||s;<t>|it names a mineral survey
survey surveys|mineral||it names a mineral survey
hes||<n>|it names a homestead entry survey
survey|entry||it names a homestead entry survey
unsurveyed|||the land is unsurveyed
shl bhl|||a location of a well is a point
ff|||FF is not an aliquot part
except excepting excluding less||<n>|the excepted land is not located
except excepting excluding less||a an;<n>|the excepted land is not located
except excepting excluding exception||<land>|
except excepting excluding exception||the that;<land>|
except excepting excluding exception||therefrom;<land>|
except excepting excluding exception||therefrom;the that;<land>|
except excepting excluding exception|||exceptions of other land than lots and aliquot parts are not located
less ls ex exc excl||road rd row right-of-way canal ditch railroad rr hwy highway|a right-of-way needs a survey
rs||<n>;and & , <n>|it is in several townships
tps||<n>|it is in several townships
row||-|
row|||a right-of-way needs a survey
way|of||a right-of-way needs a survey
bed|||a portion needs a survey
acres acre ac||of|it is described by acreage
acres acre ac||in;the|it is described by acreage
out||of|it is described by acreage
";

/// For each letter, a bit for each length of the words in `PHRASES` that begin with it: bit 4 for a word of
/// four letters. For most words of a text, this rules out all rows.
const LENGTHS: [u16; 26] = [
    0x134, 0x268, 0x468, 0x120, 0x25c, 0x014, 0, 0x088, 0, 0, 0, 0x034, 0x00e, 0, 0x208, 0x19c, 0,
    0x13c, 0x8e8, 0x16c, 0x400, 0, 0x008, 0, 0, 0,
];

/// What is said of a part of a lot.
const PART_OF_LOT: &str = "part of a lot needs a survey";

/// What is said of two headings that name different townships.
const SEVERAL_TOWNSHIPS: &str = "it is in several townships";

/// What is said of a township or a range of a register whose last digit, that of fractions, isn't 0.
const FRACTION_OF_TOWNSHIP: &str = "the number of its township or range has a fraction";

/// The first phrase of a text that says that lots and aliquot parts can't describe its land. It is for texts
/// without readings.
pub fn beyond_of(alloc: Global, text: &[u8]) -> Result<Option<Beyond>, AllocError> {
    let pieces = Pieces::of(alloc, text)?;
    let mut first = None;
    for index in 0..pieces.len() {
        let heading = pieces.heading_at(index);
        let found = if are_different(first, heading) {
            Some((pieces.end_of_township(index), SEVERAL_TOWNSHIPS))
        } else {
            pieces.beyond_at(index)
        };
        if let Some((end, reason)) = found {
            return Ok(Some(Beyond {
                start: pieces.start(index),
                end: pieces.end_before(end),
                reason,
            }));
        }
        if first.is_none() {
            first = heading;
        }
    }
    Ok(None)
}

/// Whether a word has the first letter and the length of the first word of a row.
fn may_have_row(word: &[u8]) -> bool {
    let letter = match word.first() {
        Some(first) => first.to_ascii_lowercase(),
        None => return false,
    };
    match (letter, word.len()) {
        (b'a'..=b'z', length @ 0..=15) => (LENGTHS[usize::from(letter - b'a')] >> length) & 1 == 1,
        _ => false,
    }
}

impl<'a> Pieces<'a> {
    /// The phrase at an index: the index after it, and the reason.
    fn beyond_at(&self, index: usize) -> Option<(usize, &'static str)> {
        match self.kind(index) {
            Kind::Other => self.beyond_by_word(index),
            Kind::Lot if self.is_part_of_lot(index) => Some((plus(index, 2), PART_OF_LOT)),
            Kind::Number(_) if self.has_township_fraction(index) => {
                Some((plus(index, 4), FRACTION_OF_TOWNSHIP))
            }
            _ => None,
        }
    }

    /// The first phrase with the word at an index.
    fn beyond_by_word(&self, index: usize) -> Option<(usize, &'static str)> {
        if !may_have_row(self.bytes(index)) {
            return None;
        }
        for line in PHRASES.lines() {
            if let Some((end, reason)) = self.beyond_by_line(line, index) {
                return if reason.is_empty() {
                    None
                } else {
                    Some((end, reason))
                };
            }
        }
        None
    }

    /// The phrase of a line, if it is at an index.
    fn beyond_by_line(&self, line: &'static str, index: usize) -> Option<(usize, &'static str)> {
        let (words, line) = line.split_once('|')?;
        if words.is_empty() || !self.is_one_of(index, words) {
            return None;
        }
        let (before, line) = line.split_once('|')?;
        let (after, reason) = line.split_once('|')?;
        if !self.comes_after(index, before) {
            return None;
        }
        let end = self.end_of_row(plus(index, 1), after)?;
        Some((end, reason))
    }

    /// Whether the pieces before an index fit some columns.
    fn comes_after(&self, index: usize, columns: &str) -> bool {
        if columns.is_empty() {
            return true;
        }
        let mut place = index;
        for column in columns.split(';').rev() {
            place = self.place_before(place);
            if !self.fits(place, column) {
                return false;
            }
        }
        true
    }

    /// The index of the piece before another, past commas and periods; outside where there is none.
    fn place_before(&self, index: usize) -> usize {
        let mut place = index;
        for _ in 0..3 {
            let Some(before) = place.checked_sub(1) else {
                return self.len();
            };
            place = before;
            if !self.is_passed_over(place) {
                break;
            }
        }
        place
    }

    /// The index after the pieces that fit some columns, which begin at an index. None if they don't fit.
    fn end_of_row(&self, index: usize, columns: &str) -> Option<usize> {
        let mut place = index;
        if columns.is_empty() {
            return Some(place);
        }
        for column in columns.split(';') {
            for _ in 0..2 {
                if self.is_passed_over(place) && !self.fits(place, column) {
                    place = plus(place, 1);
                }
            }
            if !self.fits(place, column) {
                return None;
            }
            place = plus(place, 1);
        }
        Some(place)
    }

    /// Whether a comma or a period is at an index.
    fn is_passed_over(&self, index: usize) -> bool {
        matches!(self.kind(index), Kind::Comma | Kind::Stop)
    }

    /// Whether the piece at an index is one of those that a column lists.
    fn fits(&self, index: usize, column: &str) -> bool {
        for name in column.split(' ') {
            let is_listed = match name {
                "<n>" => self.number(index).is_some(),
                "<t>" => self.number(index).unwrap_or(0) > 36,
                "<w>" => matches!(self.kind(index), Kind::Other) && index < self.len(),
                "<lot>" => matches!(self.kind(index), Kind::Lot),
                "<land>" => self.begins_land(index),
                "<side>" => matches!(self.kind(index), Kind::NorthSouth(_) | Kind::EastWest(_)),
                word => self.is_one_of(index, word),
            };
            if is_listed {
                return true;
            }
        }
        false
    }

    /// Whether the piece at an index is one of these, which are separated by spaces, in letters of either
    /// case.
    fn is_one_of(&self, index: usize, texts: &str) -> bool {
        is_one_of(self.bytes(index), texts)
    }

    /// Whether a part of the lot at an index is named.
    fn is_part_of_lot(&self, index: usize) -> bool {
        let Some(fraction) = self.before_of_lot(index) else {
            return false;
        };
        matches!(self.kind(fraction), Kind::Half | Kind::Quarter)
            || self.is_one_of(fraction, "2 4 half quarter")
    }

    /// The index of the piece before an `of` that the lot at an index follows, also with a word such as `the`
    /// between them.
    fn before_of_lot(&self, index: usize) -> Option<usize> {
        let mut of = index.checked_sub(1)?;
        if self.is_one_of(of, "the government govt t") {
            of = of.checked_sub(1)?;
        }
        if self.is_one_of(of, "of") {
            of.checked_sub(1)
        } else {
            None
        }
    }

    /// The index of the piece after another, past commas, periods, and dashes.
    pub(crate) fn place_after(&self, index: usize) -> usize {
        let mut place = plus(index, 1);
        for _ in 0..2 {
            if self.is_passed_over(place) || self.is_dash(place) {
                place = plus(place, 1);
            }
        }
        place
    }

    /// Whether the number of a township at an index, as registers have it, or that of its range has a last
    /// digit, that of fractions, which isn't 0.
    fn has_township_fraction(&self, index: usize) -> bool {
        let range = plus(index, 2);
        self.has_digits(index, 4)
            && self.has_digits(range, 4)
            && self.is_north_south(plus(index, 1))
            && self.is_east_west(plus(index, 3))
            && (self.ends_in_fraction(index) || self.ends_in_fraction(range))
    }

    /// Whether the last digit of the number at an index isn't 0.
    fn ends_in_fraction(&self, index: usize) -> bool {
        self.number(index).unwrap_or(0) % 10 != 0
    }
}
