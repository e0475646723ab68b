//! Titles with periods of entries, deeds, and offices: `H.E. 6612`, `W.D.`, `U. S.`

use crate::pieces::Pieces;

impl<'a> Pieces<'a> {
    /// Whether the letter at an index is of a title with periods, and so no side.
    pub(crate) fn is_of_title(&self, index: usize) -> bool {
        self.ends_as(index, b"u.s")
            || self.ends_as(index, b"u. s")
            || self.ends_as(index, b"h.e")
            || self.ends_as(index, b"h. e")
            || self.ends_as(index, b"d.l.e")
            || self.ends_as(index, b"c.e")
            || self.ends_as(index, b"d.e")
            || self.begins_as(index, b"e.o.")
            || self.begins_as(index, b"w.d.")
    }

    /// Whether the letter at an index begins such a title, or one whose letters are no sides.
    pub(crate) fn begins_title(&self, index: usize) -> bool {
        self.begins_as(index, b"h.e.")
            || self.begins_as(index, b"h. e.")
            || self.begins_as(index, b"d.l.e.")
            || self.begins_as(index, b"c.e.")
            || self.begins_as(index, b"d.e.")
            || self.begins_as(index, b"e.o.")
            || self.begins_as(index, b"w.d.")
            || self.begins_as(index, b"q.c.d.")
            || self.begins_as(index, b"f.c.")
            || self.begins_as(index, b"t.c.")
            || self.begins_as(index, b"u.s.")
            || self.begins_as(index, b"u. s.")
    }

    /// Whether the text up to the end of the piece at an index, in lowercase, ends with another.
    fn ends_as(&self, index: usize, text: &[u8]) -> bool {
        match self.end(index).checked_sub(text.len()) {
            Some(start) => self.begins_at(start, text),
            None => false,
        }
    }
}
