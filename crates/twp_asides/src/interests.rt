//! Interests in land, and words for a property, before land: `An undivided one-half interest in`,
//! `that certain real property in Canyon County, Idaho, to wit:`.

use crate::pieces::{Pieces, plus};
use twp_grammar::Kind;
use twp_words::{
    begins_property, is_acres, is_of_interest, is_of_property, is_of_share, is_owner, is_same,
    is_whose, names_property, points_into,
};

/// The most pieces of an interest, or of words for a property.
const PIECES_MOST: usize = 48;

impl<'a> Pieces<'a> {
    /// Where words for an interest end, with words for what it is in.
    pub(crate) fn end_of_interest(&self, index: usize) -> Option<usize> {
        let first = if self.is(index, b"an") || self.is(index, b"a") {
            plus(index, 1)
        } else {
            index
        };
        let is_undivided = self.is(first, b"undivided") || self.is(first, b"und");
        if !is_undivided && !(self.begins_line(index) && self.begins_share(first)) {
            return None;
        }
        let mut end: Option<usize> = None;
        let mut has_interest = false;
        let mut next = first;
        for place in first..plus(first, PIECES_MOST) {
            if place < next {
                continue;
            }
            if has_interest && self.is(place, b":") {
                return Some(plus(place, 1));
            }
            if has_interest {
                if let Some(after) = self.end_of_meridian(place) {
                    next = after;
                    continue;
                }
            }
            if !self.is_part_of_interest(place) {
                break;
            }
            let word = self.lower(place);
            let is_interest = is_same(word, b"interest") || is_same(word, b"int");
            has_interest = has_interest
                || is_interest
                || is_same(word, b"minerals")
                || is_same(word, b"mineral")
                || is_same(word, b"royalty")
                || is_of_share(word)
                || is_same(word, b"oil")
                || is_same(word, b"gas");
            let is_of_lands = self.follows(place, b"lands") || self.follows(place, b"land");
            let is_in = (is_same(word, b"in") && !is_of_lands)
                || is_same(word, b"wit")
                || is_same(word, b"under")
                || (is_same(word, b"to") && self.follows(place, b"and"));
            let is_of = is_undivided && end.is_none() && self.is_of_share(place);
            if is_interest || is_of_share(word) || (is_in && has_interest) || is_of {
                end = Some(self.after_stop_of_word(plus(place, 1)));
            }
        }
        end
    }

    /// Where words for the mineral acres that somebody means to convey at an index end, as in
    /// `it being the intent of Grantor to convey 80 net mineral acres`: they say nothing of which
    /// land is meant.
    pub fn end_of_intent(&self, index: usize) -> Option<usize> {
        let intent = plus(index, 3);
        let is_intent = self.is(index, b"it")
            && self.is(plus(index, 1), b"being")
            && self.is(plus(index, 2), b"the")
            && (self.is(intent, b"intent") || self.is(intent, b"intention"));
        if !is_intent {
            return None;
        }
        let to = plus(
            intent,
            if self.is(plus(intent, 1), b"of") {
                3
            } else {
                1
            },
        );
        let figure = plus(to, 2);
        if !self.is(to, b"to") || !self.is(plus(to, 1), b"convey") {
            return None;
        }
        let net = self.end_of_decimal(figure)?;
        let mineral = plus(net, usize::from(self.is(net, b"net")));
        let acres = plus(mineral, 1);
        let end = plus(acres, 1);
        let is_last = end >= self.len() || self.begins_line(end) || self.is(end, b".");
        let is_mineral = self.is(mineral, b"mineral") || self.is(mineral, b"royalty");
        if is_mineral && is_acres(self.lower(acres)) && is_last {
            Some(end)
        } else {
            None
        }
    }

    /// Whether the `of` after a share is at an index, as in `an undivided 1/2 of`.
    fn is_of_share(&self, index: usize) -> bool {
        matches!(self.kind(index), Kind::Of)
            && (matches!(
                self.kind_before(index),
                Some(Kind::Half | Kind::Quarter | Kind::Number(_))
            ) || self.follows(index, b"half")
                || self.follows(index, b"third")
                || self.follows(index, b"fourth"))
    }

    /// Whether a share of land begins at an index: a fraction, or all that somebody has.
    fn begins_share(&self, index: usize) -> bool {
        let next = plus(index, 1);
        matches!(self.kind(index), Kind::Half | Kind::Quarter)
            || (self.is(index, b"one") || self.is(index, b"two") || self.is(index, b"three"))
            || (self.number(index).is_some()
                && (self.is(next, b"/") || self.is(next, b"%") || self.is(next, b".")))
            || (self.is(index, b"all")
                && self.is(next, b"of")
                && is_owner(self.lower(plus(index, 2))))
            || (self.is(index, b"all") && (self.is(next, b"right") || is_whose(self.lower(next))))
            || (self.is(index, b"all") && self.is(next, b"the") && self.is(plus(next, 1), b"right"))
            || (self.number(index).is_some()
                && self.is(next, b"net")
                && self.is(plus(next, 1), b"mineral"))
            || is_owner(self.lower(index))
    }

    /// Whether the piece at an index may be one of words for an interest.
    fn is_part_of_interest(&self, index: usize) -> bool {
        match self.kind(index) {
            Kind::Number(_) | Kind::BadNumber | Kind::Half | Kind::Quarter | Kind::All => true,
            Kind::NorthSouth(_) => self.is_possessive(index),
            _ => {
                let word = self.lower(index);
                is_of_interest(word) || is_owner(word) || is_of_share(word)
            }
        }
    }

    /// Whether the piece at an index is the S after an apostrophe.
    pub(crate) fn is_possessive(&self, index: usize) -> bool {
        self.is(index, b"s")
            && self.is_joined(index)
            && (self.follows(index, b"'") || self.follows(index, b"\xE2\x80\x99"))
    }

    /// The index after a period that is joined to a word before it.
    fn after_stop_of_word(&self, index: usize) -> usize {
        if self.is(index, b".") && self.is_joined(index) {
            plus(index, 1)
        } else {
            index
        }
    }

    /// Where `all that certain real property being`, or words like it, end.
    pub(crate) fn end_of_property(&self, index: usize) -> Option<usize> {
        if !begins_property(self.lower(index)) {
            return None;
        }
        let mut has_property = false;
        let mut next = index;
        for place in index..plus(index, PIECES_MOST) {
            if place < next {
                continue;
            }
            let word = self.lower(place);
            let after = plus(place, 1);
            let ends = (is_same(word, b"being") || is_same(word, b":"))
                || (is_same(word, b"are")
                    && !(self.is(after, b"as") || self.is(after, b"described")))
                || (is_same(word, b"follows") && !(self.is(after, b":") || self.is(after, b",")))
                || (is_same(word, b"wit") && !(self.is(after, b":") || self.is(after, b",")));
            if ends && has_property {
                if matches!(self.lower_back(place, 1), Some(last) if points_into(last)) {
                    return None;
                }
                let is_within = self.is(after, b"in")
                    && self.end_of_state_after_in(after).is_none();
                return if is_within { None } else { Some(after) };
            }
            has_property = has_property || names_property(word);
            if has_property {
                if let Some(end) = self.end_of_meridian(place).or(self.end_of_code(place)) {
                    next = end;
                    continue;
                }
            }
            if !is_of_property(word) {
                return None;
            }
        }
        None
    }
}
