//! The numbers of cases, files, parcels, and wells: `IDI-38114`, `#30988`, `RP02N03W092400`, `Moore 14-1H`.

use crate::pieces::{Pieces, plus};
use twp_grammar::Kind;
use twp_words::{is_state, limits_land};

impl<'a> Pieces<'a> {
    /// Where the serial number first on its line ends, whose letters may be those of a state: after a hyphen,
    /// or in a cell of its own. No township of a register follows the letters.
    pub fn end_of_first_serial(&self, index: usize) -> Option<usize> {
        if !self.begins_line(index) && !self.begins_quoted_cell(index) {
            return None;
        }
        let next = plus(index, 1);
        if self.is_state_and_code(index) {
            return Some(plus(next, 1));
        }
        let is_joined = self.is_joined(next) && !self.begins_register(next);
        if !is_joined && !self.is_dash(next) {
            return None;
        }
        let end = self.end_of_serial(index)?;
        if self.is_dash(next) || self.begins_column(end) || self.begins_place(end) {
            Some(end)
        } else {
            None
        }
    }

    /// Whether the letters of a state, and the code of its meridian, are at an index, as in
    /// `ID08 T0020N R0030W`, before a township of a register with its letter.
    fn is_state_and_code(&self, index: usize) -> bool {
        let code = plus(index, 1);
        let letter = plus(index, 2);
        is_state(self.lower(index))
            && self.has_digits(code, 2)
            && self.is_joined(code)
            && self.is(letter, b"t")
            && self.has_digits(plus(letter, 1), 4)
    }

    /// Where the serial number of a case at an index ends, as `IDI-38114`, or `ID-031-2023-0012`, or that of
    /// a parcel.
    pub fn end_of_serial(&self, index: usize) -> Option<usize> {
        if let Some(end) = self.end_of_code(index) {
            if self.begins_column(end) || self.begins_place(end) {
                return Some(end);
            }
        }
        let is_letters = matches!(self.kind(index), Kind::Other)
            && self.bytes(index).len() >= 2
            && self.bytes(index).len() <= 8;
        if !is_letters {
            return None;
        }
        let mut has_long = false;
        let mut has_year = false;
        let mut end = index;
        for place in plus(index, 1)..plus(index, 8) {
            let is_number = matches!(self.kind(place), Kind::Number(_) | Kind::BadNumber);
            let is_apart = self.is_after_dash(place)
                && self.is_back(place, 2, b"-")
                && !self.begins_line(place);
            let is_dash = self.is_dash(place) && (self.is_joined(place) || is_apart);
            let is_last = is_number && is_apart && self.size(place) >= 2;
            let follows = self.is_joined(place) || place == plus(index, 1) || is_dash || is_last;
            if !follows || !(is_number || is_dash) {
                break;
            }
            let least: usize = if self.is_joined(place) { 4 } else { 5 };
            // The last number may be shorter than one before it, as in `ID-0045-001`.
            has_long = is_number
                && (self.size(place) >= least || has_long || (has_year && self.size(place) == 3));
            has_year = has_year || (is_number && self.size(place) >= least);
            end = plus(place, 1);
        }
        if has_long && !limits_land(self.lower(index)) && !self.begins_other_code(index) {
            Some(end)
        } else {
            None
        }
    }

    /// Where the number of a parcel, with a word for it, ends, as `Parcel No. R2988501000`.
    pub fn end_of_parcel_number(&self, index: usize) -> Option<usize> {
        let is_word = self.is(index, b"parcel")
            || self.is(index, b"account")
            || self.is(index, b"apn")
            || self.is(index, b"pin");
        if !is_word {
            return None;
        }
        let mut code = plus(index, 1);
        for place in code..plus(index, 5) {
            let is_mark = self.is(place, b"no")
                || self.is(place, b"number")
                || self.is(place, b".")
                || self.is(place, b":")
                || self.is(place, b"#");
            if !is_mark {
                break;
            }
            code = plus(place, 1);
        }
        if code == plus(index, 1) {
            return None;
        }
        match self.kind(code) {
            Kind::BadNumber => self.end_of_code(code).or(Some(plus(code, 1))),
            _ => self.end_of_code(code),
        }
    }

    /// Where the number of a file at an index ends, as `#30988`: a shorter one may be of a lot.
    pub fn end_of_file_number(&self, index: usize) -> Option<usize> {
        if !self.is(index, b"#") {
            return None;
        }
        let number = plus(index, 1);
        if self.is_joined(number) && self.begins_with_letter(number) {
            return self.end_of_code(number);
        }
        let is_number = matches!(self.kind(number), Kind::Number(_) | Kind::BadNumber);
        if is_number && self.size(number) >= 4 && self.is_joined(number) {
            Some(plus(number, 1))
        } else {
            None
        }
    }

    /// Where the name of a well ends, as `Moore 14-1H`, before a mark.
    pub(crate) fn end_of_well(&self, index: usize) -> Option<usize> {
        let mut next = index;
        for place in index..plus(index, 4) {
            if self.number(place).is_some() {
                break;
            }
            let is_name = matches!(self.kind(place), Kind::Other) && self.bytes(place).len() > 1;
            if !is_name {
                return None;
            }
            next = plus(place, 1);
        }
        let mark = plus(next, 3);
        let is_letter = next > index
            && self.number(next).is_some()
            && self.is(plus(next, 1), b"-")
            && self.is(plus(next, 2), b"h")
            && self.is_joined(plus(next, 2));
        if is_letter && (self.is(mark, b":") || self.is(mark, b";")) {
            return Some(plus(mark, 1));
        }
        let is_well = next > index
            && self.number(next).is_some()
            && self.is(plus(next, 1), b"-")
            && self.number(plus(next, 2)).is_some();
        if is_well && self.is(plus(next, 3), b":") {
            return Some(plus(next, 4));
        }
        let is_horizontal = is_well
            && self.is(plus(next, 3), b"h")
            && self.is_joined(plus(next, 3))
            && (self.is(plus(next, 4), b",")
                || self.is(plus(next, 4), b":")
                || self.is(plus(next, 4), b";")
                || self.is(plus(next, 4), b"-")
                || self.begins_place(plus(next, 4)));
        if is_horizontal {
            Some(plus(next, 4))
        } else {
            None
        }
    }
}
