//! The mark that the sentence of a note begins with.
ghost use Rattle.std.specs.Prelude.{◌↔◌, ◌+◌, ◌≤◌, length, IsTrue};
ghost use Rattle.twp_explain.specs.NoteMarks.{HasMarkAt, IsSentenceOf, MARK as NOTE_MARK};

use twp_excerpt::Span;

/// What the sentence of a note begins with.
const MARK: &[u8] = b"note: ";

/// The sentence of a note, without the mark if it begins with one.
pub fn without_mark(text: &[u8], sentence: Span) -> Span
    ensures { IsSentenceOf text.now sentence result }
{
    let Span { start, end } = sentence;
    if !has_mark_at(text, start) {
        return sentence;
    }
    Span {
        start: start.saturating_add(MARK.len()),
        end,
    }
}

/// Whether the mark is at a place of a text.
fn has_mark_at(text: &[u8], at: usize) -> bool
    ensures value { IsTrue result ↔ HasMarkAt text.now at }
    ensures within { IsTrue result → at + length NOTE_MARK ≤ length text.now }
{
    at <= text.len() && text[at..].starts_with(MARK)
}
