//! The pieces of a text: its tokens, and the characters that begin none.

use crate::cutting::{Piece, Spacing, cut, has_break};
use crate::lowercase::copy_in_lowercase;
use std::alloc::{AllocError, Global};
use twp_grammar::Kind;

/// The pieces of a text, from left to right.
#[derive(Drop)]
pub struct Pieces<'a> {
    pub text: &'a [u8],
    /// The text with its letters in lowercase: words are compared with it.
    lower: Vec<u8>,
    list: Vec<Piece>,
}

/// The index so many pieces after another.
pub fn plus(index: usize, count: usize) -> usize {
    index.wrapping_add(count)
}

impl<'a> Pieces<'a> {
    /// The pieces of a text.
    pub fn of(alloc: Global, text: &'a [u8]) -> Result<Pieces<'a>, AllocError> {
        let mut pieces = Pieces::uncut(alloc, text);
        pieces.cut()?;
        Ok(pieces)
    }

    /// The pieces of a text that isn't cut yet: none.
    pub fn uncut(alloc: Global, text: &'a [u8]) -> Pieces<'a> {
        Pieces {
            text,
            lower: Vec::new(alloc),
            list: Vec::new(alloc),
        }
    }

    /// Cuts the text. A second call would add all pieces again.
    pub fn cut(&mut self) -> Result<(), AllocError> {
        copy_in_lowercase(self.text, &mut self.lower)?;
        cut(self.text, self.lower.as_slice(), &mut self.list)
    }

    /// How many there are.
    pub fn len(&self) -> usize {
        self.list.len()
    }

    /// What the piece at an index is. Outside, it is a word without letters.
    pub fn kind(&self, index: usize) -> Kind {
        match self.list.get(index) {
            Some(piece) => piece.kind,
            None => Kind::Other,
        }
    }

    /// How many bytes the piece at an index has, up to the most that a `u16` can hold. Outside, there are
    /// none.
    pub fn size(&self, index: usize) -> usize {
        match self.list.get(index) {
            Some(piece) => usize::from(piece.size),
            None => 0,
        }
    }

    /// The bytes of the piece at an index. Outside, there are none.
    pub fn bytes(&self, index: usize) -> &'a [u8] {
        match self.list.get(index) {
            Some(piece) => self.text.get(piece.start..piece.end).unwrap_or(b""),
            None => b"",
        }
    }

    /// The bytes of the piece at an index, with letters in lowercase. Outside, there are none.
    pub fn lower(&self, index: usize) -> &[u8] {
        match self.list.get(index) {
            Some(piece) => self.lower.get(piece.start..piece.end).unwrap_or(b""),
            None => b"",
        }
    }

    /// The text from the piece at an index on, with letters in lowercase.
    pub(crate) fn lower_from(&self, index: usize) -> &[u8] {
        self.lower.get(self.start(index)..).unwrap_or(b"")
    }

    /// Whether the piece at an index begins with a letter.
    pub(crate) fn begins_with_letter(&self, index: usize) -> bool {
        matches!(self.lower(index), [b'a'..=b'z', ..])
    }

    /// Where the piece at an index begins.
    pub fn start(&self, index: usize) -> usize {
        match self.list.get(index) {
            Some(piece) => piece.start,
            None => self.text.len(),
        }
    }

    /// Where the piece at an index ends.
    pub fn end(&self, index: usize) -> usize {
        match self.list.get(index) {
            Some(piece) => piece.end,
            None => self.text.len(),
        }
    }

    /// Where the piece before an index ends.
    pub fn end_before(&self, index: usize) -> usize {
        match index.checked_sub(1) {
            Some(before) => self.end(before),
            None => 0,
        }
    }

    /// Whether the piece at an index is this text, which is in lowercase. Most pieces have another length, or
    /// another first byte, which are compared first, and are all of a mark.
    #[inline(always)]
    pub fn is(&self, index: usize, text: &[u8]) -> bool {
        match self.list.get(index) {
            Some(piece) => {
                piece.begins_as(text) && (text.len() == 1 || self.goes_on_as(piece.start, text))
            }
            None => text.is_empty(),
        }
    }

    /// Whether the text from a place on, in lowercase, begins with another, which is short.
    /// Comparing two slices takes three times as long as a few bytes.
    #[inline(never)]
    fn goes_on_as(&self, start: usize, text: &[u8]) -> bool {
        let rest = self.lower.get(start..).unwrap_or(b"");
        for (one, other) in rest.iter().zip(text) {
            if one != other {
                return false;
            }
        }
        rest.len() >= text.len()
    }

    /// Whether the text from the piece at an index on, in lowercase, begins with another.
    pub(crate) fn begins_as(&self, index: usize, text: &[u8]) -> bool {
        self.begins_at(self.start(index), text)
    }

    /// Whether the text at a place, in lowercase, begins with another.
    pub(crate) fn begins_at(&self, place: usize, text: &[u8]) -> bool {
        self.lower.get(place..plus(place, text.len())) == Some(text)
    }

    /// Whether the piece before an index is this text. The first piece is after none.
    #[inline(always)]
    pub fn follows(&self, index: usize, text: &[u8]) -> bool {
        self.is_back(index, 1, text)
    }

    /// Whether the piece so many pieces before an index is this text. Before the first piece there is none.
    #[inline(always)]
    pub fn is_back(&self, index: usize, count: usize, text: &[u8]) -> bool {
        match index.checked_sub(count) {
            Some(place) => self.is(place, text),
            None => false,
        }
    }

    /// What the piece before an index is. None if there is no such piece.
    pub fn kind_before(&self, index: usize) -> Option<Kind> {
        self.kind_back(index, 1)
    }

    /// What the piece so many pieces before an index is. None if there is no such piece.
    pub fn kind_back(&self, index: usize, count: usize) -> Option<Kind> {
        let place = index.checked_sub(count)?;
        let piece = self.list.get(place)?;
        Some(piece.kind)
    }

    /// The bytes of the piece so many pieces before an index, with letters in lowercase. None if there is no
    /// such piece.
    pub(crate) fn lower_back(&self, index: usize, count: usize) -> Option<&[u8]> {
        let place = index.checked_sub(count)?;
        let piece = self.list.get(place)?;
        self.lower.get(piece.start..piece.end)
    }

    /// Whether the piece before an index is a hyphen or a dash.
    pub fn is_after_dash(&self, index: usize) -> bool {
        match index.checked_sub(1) {
            Some(before) => self.is_dash(before),
            None => false,
        }
    }

    /// Whether nothing separates the piece at an index from the one before it.
    pub fn is_joined(&self, index: usize) -> bool {
        match self.list.get(index) {
            Some(piece) => piece.gap == Spacing::Nothing && index > 0,
            None => false,
        }
    }

    /// Whether the piece at an index is the first on its line, or in its cell.
    pub fn begins_line(&self, index: usize) -> bool {
        index == 0 || self.has_break_before(index)
    }

    /// Whether the piece at an index is the first on its line, or in its cell, also after a bar or a quote,
    /// or the text ends there.
    pub fn begins_cell(&self, index: usize) -> bool {
        self.begins_line(index)
            || index >= self.len()
            || self.is_edge_of_cell(index)
            || matches!(index.checked_sub(1), Some(before) if self.is_edge_of_cell(before))
    }

    /// Whether a bar, or the quote before a cell or after it, is at an index. Most pieces are of another
    /// kind.
    fn is_edge_of_cell(&self, index: usize) -> bool {
        matches!(self.kind(index), Kind::BadByte)
            && (self.is(index, b"|") || self.is_quote_of_cell(index))
    }

    /// Whether the quote before a cell, or the one after it, is at an index.
    fn is_quote_of_cell(&self, index: usize) -> bool {
        let next = plus(index, 1);
        self.is(index, b"\"")
            && (self.begins_line(index)
                || self.follows(index, b",")
                || self.is(next, b",")
                || self.is_brace_of_record(next)
                || next >= self.len()
                || self.begins_line(next))
    }

    /// The index of a number after a bar, a name, and an equals sign at an index, as in `Lot|SECDIVNO=3`.
    pub fn after_bar_and_name(&self, index: usize, name: &[u8]) -> Option<usize> {
        let mark = plus(index, 2);
        let value = plus(index, 3);
        let is_named = self.is(index, b"|") && self.is(plus(index, 1), name) && self.is(mark, b"=");
        if is_named && self.number(value).is_some() {
            Some(value)
        } else {
            None
        }
    }

    /// The index of the value after the quote at an index, if that ends a name in a record, as in
    /// `"sec":14`, or `"legal":"NENE"`.
    pub fn after_quoted_name(&self, index: usize) -> Option<usize> {
        let colon = plus(index, 1);
        let value = plus(index, 2);
        if !self.is(index, b"\"") || !self.is(colon, b":") || !self.is_record() {
            return None;
        }
        Some(plus(value, usize::from(self.is(value, b"\""))))
    }

    /// Whether the text is a record in braces, as in `{"sec":14,"legal":"NENE"}`.
    pub fn is_record(&self) -> bool {
        self.is(0, b"{") && matches!(self.len().checked_sub(1), Some(last) if self.is(last, b"}"))
    }

    /// Whether a brace around the record that the text is is at an index.
    pub fn is_brace_of_record(&self, index: usize) -> bool {
        self.is_record() && (index == 0 || plus(index, 1) == self.len())
    }

    /// Whether the piece at an index is the first of a cell in quotes, or of a value in a record.
    pub fn begins_quoted_cell(&self, index: usize) -> bool {
        self.follows(index, b"\"")
            && (self.begins_cell(index) || (self.is_back(index, 2, b":") && self.is_record()))
    }

    /// Whether the quote after a cell, a comma, and the quote before the next cell begin at an index.
    pub fn is_between_quoted_cells(&self, index: usize) -> bool {
        self.is(index, b"\"")
            && self.is(plus(index, 1), b",")
            && self.is(plus(index, 2), b"\"")
            && self.is_joined(plus(index, 2))
    }

    /// The index of the next cell, if a quoted cell ends at an index and another one follows.
    pub fn after_quoted_cell(&self, index: usize) -> usize {
        if self.is_between_quoted_cells(index) {
            plus(index, 3)
        } else {
            index
        }
    }

    /// Whether a line feed or a tab is between the piece at an index and the one before it.
    pub fn has_break_before(&self, index: usize) -> bool {
        match self.list.get(index) {
            Some(piece) => piece.gap == Spacing::Break,
            None => has_break(self.text.get(self.end_before(index)..).unwrap_or(b"")),
        }
    }

    /// Whether an empty cell is between the piece at an index and the one before it: a tab, and the end of
    /// the line or of the text.
    pub fn has_empty_cell(&self, index: usize) -> bool {
        let white = self.text.get(self.end_before(index)..self.start(index));
        let mut has_tab = false;
        for byte in white.unwrap_or(b"") {
            if has_tab && *byte == b'\n' {
                return true;
            }
            has_tab = has_tab || *byte == b'\t';
        }
        has_tab && index >= self.len()
    }

    /// Whether a byte of white space, as a tab, is between the piece at an index and the one before it.
    pub fn has_before(&self, index: usize, byte: u8) -> bool {
        let white = self.text.get(self.end_before(index)..self.start(index));
        white.unwrap_or(b"").contains(&byte)
    }

    /// Whether the piece at an index is a hyphen or a dash. Most pieces are of another kind.
    #[inline(always)]
    pub fn is_dash(&self, index: usize) -> bool {
        matches!(self.kind(index), Kind::BadByte) && self.is_mark_of_dash(index)
    }

    /// The same for a mark.
    #[inline(never)]
    fn is_mark_of_dash(&self, index: usize) -> bool {
        self.is(index, b"-") || self.is(index, b"\xE2\x80\x93") || self.is(index, b"\xE2\x80\x94")
    }

    /// The value of the number at an index.
    pub fn number(&self, index: usize) -> Option<u16> {
        match self.kind(index) {
            Kind::Number(value) => Some(value),
            _ => None,
        }
    }

    /// Whether the piece at an index is a number of so many digits.
    pub fn has_digits(&self, index: usize, count: usize) -> bool {
        match self.list.get(index) {
            Some(piece) => {
                matches!(piece.kind, Kind::Number(_)) && usize::from(piece.size) == count
            }
            None => false,
        }
    }

    /// Whether the piece at an index names north or south.
    pub fn is_north_south(&self, index: usize) -> bool {
        match self.kind(index) {
            Kind::NorthSouth(_) => true,
            Kind::Other => self.is(index, b"north") || self.is(index, b"south"),
            _ => false,
        }
    }

    /// Whether the piece at an index names east or west.
    pub fn is_east_west(&self, index: usize) -> bool {
        match self.kind(index) {
            Kind::EastWest(_) => true,
            Kind::Other => self.is(index, b"east") || self.is(index, b"west"),
            _ => false,
        }
    }
}
