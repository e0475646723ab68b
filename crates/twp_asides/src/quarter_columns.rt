//! More names of columns for aliquot parts: `QQ:`, `Qtr/Qtr:`, `LEGAL1:`.

use crate::notes::PIECES_SEARCHED;
use crate::pieces::{Pieces, plus};
use twp_words::is_field;

impl<'a> Pieces<'a> {
    /// Where the name of a column with a number ends, as `LEGAL1:`.
    pub(crate) fn end_of_numbered_field(&self, index: usize) -> Option<usize> {
        let number = plus(index, 1);
        let mark = plus(number, 1);
        let is_numbered = self.has_digits(number, 1)
            && self.is_joined(number)
            && self.is(mark, b":")
            && self.is_joined(mark);
        if is_numbered && is_field(self.lower(index)) && self.begins_column(index) {
            Some(plus(mark, 1))
        } else {
            None
        }
    }

    /// Where `Qtr/Qtr:` at an index ends, before a quarter of a quarter.
    pub(crate) fn end_of_quarter_of_quarter(&self, index: usize) -> Option<usize> {
        let has_slash = self.is(plus(index, 1), b"/");
        let mark = plus(index, if has_slash { 3 } else { 2 });
        let value = plus(mark, 1);
        let is_name = self.is(index, b"qtr")
            && matches!(mark.checked_sub(1), Some(second) if self.is(second, b"qtr"));
        let has_mark = self.is(mark, b":") || self.is(mark, b"=");
        if is_name && has_mark && self.size(value) == 4 && self.begins_part(value) {
            Some(value)
        } else {
            None
        }
    }

    /// Whether `QQ:`, or a name like it, is at an index, before a quarter of a quarter.
    pub(crate) fn is_column_of_quarters(&self, index: usize) -> bool {
        let mark = plus(index, 1);
        let value = plus(mark, 1);
        let is_name = self.is(index, b"q")
            || self.is(index, b"qq")
            || self.is(index, b"qqsec")
            || self.is(index, b"qtrqtr");
        let has_mark = self.is(mark, b":") || self.is(mark, b"=");
        let is_alone = self.is(index, b"qtr") && self.has_one_column_of_quarters();
        has_mark
            && self.begins_part(value)
            && ((is_name && self.size(value) == 4) || (is_alone && self.size(value) == 2))
    }

    /// Whether one column of a text that isn't long is for quarters, so that its value is no part
    /// of another one.
    fn has_one_column_of_quarters(&self) -> bool {
        if self.len() > PIECES_SEARCHED {
            return false;
        }
        let mut count: usize = 0;
        for index in 0..self.len() {
            let is_name = self.is(index, b"q")
                || self.is(index, b"qq")
                || self.is(index, b"qtr")
                || self.is(index, b"qsec")
                || self.is(index, b"qqsec")
                || self.is(index, b"qtrsec")
                || self.is(index, b"qtrqtr")
                || self.is(index, b"quarter");
            count = plus(count, usize::from(is_name));
        }
        count == 1
    }

    /// Where `Twp-Rng`, or `Twp/Rge:`, at an index ends, before a township without a word for it.
    pub(crate) fn end_of_label_of_township(&self, index: usize) -> Option<usize> {
        let mark = plus(index, 1);
        let range = plus(index, 2);
        let end = plus(index, 3);
        let number = plus(end, usize::from(self.is(end, b":")));
        let is_label = self.is(index, b"twp")
            && (self.is(mark, b"-") || self.is(mark, b"/"))
            && (self.is(range, b"rng") || self.is(range, b"rge"));
        if is_label && self.number(number).is_some() && self.is_north_south(plus(number, 1)) {
            Some(number)
        } else {
            None
        }
    }
}
