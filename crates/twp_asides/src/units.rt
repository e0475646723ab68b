//! Acreage that isn't of the land that is named: of a unit, as in `160 ac unit`, and gross acreage with an
//! abbreviation, as in `Gr Ac 400`.

use crate::pieces::{Pieces, plus};
use twp_grammar::Kind;
use twp_words::{is_acres, is_net_or_gross, is_same};

/// The most sections of a township: a greater number is acreage.
const SECTIONS: u16 = 36;

/// The most words for a unit after its acreage, a hyphen counted as one.
const UNIT_MOST: usize = 6;

impl<'a> Pieces<'a> {
    /// Where the acreage of a unit at an index ends, as `160 ac unit`, or `640-acre spacing unit`:
    /// after land, at the end of its line, or before land, with a colon.
    pub fn end_of_unit(&self, index: usize, names_land: bool) -> Option<usize> {
        let first = self.after_lead_of_unit(index);
        let number = self.number(first)?;
        let mark = plus(first, 1);
        let acres = plus(
            mark,
            usize::from(self.is(mark, b"-") && self.is_joined(mark)),
        );
        if number <= SECTIONS || !is_acres(self.lower(acres)) {
            return None;
        }
        let mut end = plus(acres, 1);
        for place in end..plus(end, UNIT_MOST) {
            if place == end && is_of_unit(self.lower(place)) {
                end = plus(place, 1);
            }
        }
        if !matches!(end.checked_sub(1), Some(last) if self.is(last, b"unit")) {
            return None;
        }
        if !names_land {
            let being = plus(end, usize::from(self.is(end, b",")));
            let is_first = self.begins_line(index) || self.follows(index, b":");
            let is_label = self.begins_line(index) && self.is(end, b":");
            let is_same = is_first && self.is(being, b"being") && self.begins_part(plus(being, 1));
            let is_all = matches!(self.kind(being), Kind::All | Kind::Sec)
                || self.begins_part(being);
            if is_first && is_all && being > end {
                return Some(end);
            }
            return if is_label {
                Some(plus(end, 1))
            } else if is_same {
                Some(plus(being, 1))
            } else {
                None
            };
        }
        let is_apart = self.is_after_dash(index)
            || self.follows(index, b",")
            || self.begins_column(index);
        let is_last = end >= self.len() || self.is(end, b";") || self.begins_line(end);
        if is_apart && is_last { Some(end) } else { None }
    }

    /// Where gross acreage with an abbreviation ends that begins a column, as `Gr Ac 400`.
    pub fn end_of_gross_acreage(&self, index: usize) -> Option<usize> {
        let figure = plus(index, 2);
        let is_lead = self.is(index, b"gr")
            && is_acres(self.lower(plus(index, 1)))
            && self.begins_column(index);
        if !is_lead || self.number(figure).unwrap_or(0) <= SECTIONS {
            return None;
        }
        let end = self.end_of_decimal(figure)?;
        if self.begins_column(end) {
            Some(end)
        } else {
            None
        }
    }

    /// The index after `and 320 net acres`, if that is at an index.
    pub(crate) fn after_other_acreage(&self, index: usize) -> usize {
        let number = plus(index, 1);
        let kind = self.end_of_decimal(number).unwrap_or(number);
        let is_other = self.is(index, b"and")
            && kind > number
            && is_net_or_gross(self.lower(kind))
            && is_acres(self.lower(plus(kind, 1)));
        if is_other { plus(kind, 2) } else { index }
    }

    /// The index after `comprising one`, or words like it, before the acreage of a unit.
    fn after_lead_of_unit(&self, index: usize) -> usize {
        let next = plus(index, 1);
        let is_lead = (self.is(index, b"comprising") || self.is(index, b"constituting"))
            && (self.is(next, b"one") || self.is(next, b"a"));
        if is_lead {
            return plus(next, 1);
        }
        let is_article = self.is(index, b"a") || self.is(index, b"an") || self.is(index, b"one");
        if is_article && self.number(next).is_some() {
            next
        } else {
            index
        }
    }
}

/// Whether a word, or the hyphen in one, is of a unit, as in `spacing unit`, or `stand-up unit`.
fn is_of_unit(word: &[u8]) -> bool {
    is_same(word, b"unit")
        || is_same(word, b"spacing")
        || is_same(word, b"drilling")
        || is_same(word, b"pooled")
        || is_same(word, b"stand")
        || is_same(word, b"lay")
        || is_same(word, b"-")
        || is_same(word, b"up")
        || is_same(word, b"down")
        || is_same(word, b".")
}
