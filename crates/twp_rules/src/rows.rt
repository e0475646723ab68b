//! Rows of the rules' tables, and what is in them. A table is an array of rows, and a row is an
//! array of bytes, without a pointer, since each pointer of static data is set at every start of
//! the program. All rows of a table have as many bytes, filled up with `_`. One function goes
//! through the rows of all tables of a kind, so a row is data, and needs no proof of its own. The
//! numbers with a table have a bit for the first byte of each row, for the second, and for the
//! third: with a wrong number, the proof fails. The few tables in which most changes are looked up
//! are written out instead, which takes a third of the instructions, and a proof of each.
ghost use Rattle.std.specs.Prelude.{◌≡◌, ◌-◌, true, drop, length, slice_index_or};
ghost use Rattle.std.specs.List.{list_any};
ghost use Rattle.std.specs.Char.{to_ascii_lowercase};
ghost use Rattle.std.specs.Str.{str_to_ascii_lowercase};
ghost use Rattle.twp_grammar.specs.Tokens.{same_bytes};
ghost use Rattle.twp_rules.specs.Edges.{begins_with, ends_with};
ghost use Rattle.twp_rules.specs.Rules.{is_entry};
ghost use Rattle.twp_rules.specs.Lists.{before};
ghost use Rattle.twp_rules.specs.steps.Rows.{end_of, entry_of, front_of, has_last};
ghost use Rattle.twp_rules.specs.steps.Rows.{have_at, have_ends, have_fronts, have_heads, is_head};

use crate::same::{begins_with, ends_with};

/// Whether a rule that looks at one of the rows' texts writes this for it. A row is what the rule
/// looks at, in lowercase, `=`, and what it writes instead, as in `*b"minus= except ____"`.
#[inline(always)]
pub(crate) fn is_among<const N: usize>(
    seen: &[u8],
    written: &[u8],
    heads: u32,
    seconds: u32,
    thirds: u32,
    rows: &[[u8; N]],
) -> bool
    requires heads { have_heads 61 heads rows.now ≡ true }
    requires seconds { have_at 1 61 seconds rows.now ≡ true }
    requires thirds { have_at 2 61 thirds rows.now ≡ true }
    ensures { result ≡ list_any (λ row. is_entry seen.now written.now (entry_of row)) rows.now }
{
    if !is_head(heads, byte_or(seen, 0, b'=')) {
        return false;
    }
    if !is_head(seconds, byte_or(seen, 1, b'=')) {
        return false;
    }
    if !is_head(thirds, byte_or(seen, 2, b'=')) {
        return false;
    }
    is_some_row(seen, written, rows)
}

/// The same, for any table.
fn is_some_row<const N: usize>(seen: &[u8], written: &[u8], rows: &[[u8; N]]) -> bool
    ensures { result ≡ list_any (λ row. is_entry seen.now written.now (entry_of row)) rows.now }
{
    let first = byte_or(seen, 0, b'=').to_ascii_lowercase();
    for row in rows {
        if is_row(seen, first, written, row) {
            return true;
        }
    }
    false
}

/// Whether a word is one of the rows, which are in lowercase, as in `*b"lots____"`.
#[inline(always)]
pub(crate) fn is_one_of<const N: usize>(
    word: &[u8],
    heads: u32,
    seconds: u32,
    thirds: u32,
    rows: &[[u8; N]],
) -> bool
    requires heads { have_heads 95 heads rows.now ≡ true }
    requires seconds { have_at 1 95 seconds rows.now ≡ true }
    requires thirds { have_at 2 95 thirds rows.now ≡ true }
    ensures { result ≡ list_any (λ row. same_bytes (str_to_ascii_lowercase word.now) (front_of row)) rows.now }
{
    if !is_head(heads, byte_or(word, 0, b'_')) {
        return false;
    }
    if !is_head(seconds, byte_or(word, 1, b'_')) {
        return false;
    }
    if !is_head(thirds, byte_or(word, 2, b'_')) {
        return false;
    }
    is_some_word(word, rows)
}

/// The same, for any table.
fn is_some_word<const N: usize>(word: &[u8], rows: &[[u8; N]]) -> bool
    ensures { result ≡ list_any (λ row. same_bytes (str_to_ascii_lowercase word.now) (front_of row)) rows.now }
{
    let first = byte_or(word, 0, b'_').to_ascii_lowercase();
    for row in rows {
        if is_front(word, first, row) {
            return true;
        }
    }
    false
}

/// Whether a row of a table may begin with a byte: `heads` has a bit for the first byte of each
/// row, whose index is the low five bits of that byte. This rules out most texts before any row is
/// looked at.
#[inline(always)]
fn is_head(heads: u32, byte: u8) -> bool
    ensures { result ≡ is_head heads byte }
{
    (heads >> (byte % 32)) & 1 == 1
}

/// Whether a word is what is before a row's filling. Most rows are ruled out by their first byte.
#[inline(always)]
#[tactic(auto, using(crate::proofs::RowFacts::other_head))]
fn is_front(word: &[u8], first: u8, row: &[u8]) -> bool
    requires { first ≡ to_ascii_lowercase (slice_index_or word.now 0 95) }
    ensures { result ≡ same_bytes (str_to_ascii_lowercase word.now) (front_of row.now) }
{
    if byte_or(row, 0, b'_') != first {
        return false;
    }
    is_before(row, b'_', word)
}

/// Whether a text begins with one of the rows, which are in lowercase, as in `*b"acres__"`.
#[inline(always)]
pub(crate) fn begins_with_one<const N: usize>(seen: &[u8], heads: u32, rows: &[[u8; N]]) -> bool
    requires { have_fronts heads rows.now ≡ true }
    ensures { result ≡ list_any (λ row. begins_with seen.now (front_of row)) rows.now }
{
    let first = byte_or(seen, 0, b'_').to_ascii_lowercase();
    if !is_head(heads, first) {
        return false;
    }
    has_some_front(seen, first, rows)
}

/// The same, for any table.
fn has_some_front<const N: usize>(seen: &[u8], first: u8, rows: &[[u8; N]]) -> bool
    requires { first ≡ to_ascii_lowercase (slice_index_or seen.now 0 95) }
    ensures { result ≡ list_any (λ row. begins_with seen.now (front_of row)) rows.now }
{
    for row in rows {
        if has_front(seen, first, row) {
            return true;
        }
    }
    false
}

/// Whether a text ends with one of the rows, which are in lowercase, as in `*b"__acres"`: `ends`
/// has the bits of their last bytes.
#[inline(always)]
pub(crate) fn ends_with_one<const N: usize>(seen: &[u8], ends: u32, rows: &[[u8; N]]) -> bool
    requires { have_ends ends rows.now ≡ true }
    ensures { result ≡ list_any (λ row. ends_with seen.now (end_of row)) rows.now }
{
    let last = last_byte(seen).to_ascii_lowercase();
    if !is_head(ends, last) {
        return false;
    }
    has_some_end(seen, last, rows)
}

/// The same, for any table.
fn has_some_end<const N: usize>(seen: &[u8], last: u8, rows: &[[u8; N]]) -> bool
    requires { last ≡ to_ascii_lowercase (slice_index_or seen.now (length seen.now - 1) 95) }
    ensures { result ≡ list_any (λ row. ends_with seen.now (end_of row)) rows.now }
{
    for row in rows {
        if has_end(seen, last, row) {
            return true;
        }
    }
    false
}

/// Whether this is a row: what it looks at, and what it writes. Most rows are ruled out by their first byte.
#[inline(always)]
#[tactic(auto, using(crate::proofs::RowFacts::other_head))]
fn is_row(seen: &[u8], first: u8, written: &[u8], row: &[u8]) -> bool
    requires { first ≡ to_ascii_lowercase (slice_index_or seen.now 0 61) }
    ensures { result ≡ is_entry seen.now written.now (entry_of row.now) }
{
    if byte_or(row, 0, b'=') != first {
        return false;
    }
    is_row_by_parts(seen, written, row)
}

/// Whether this is a row, by each of its parts.
#[inline(always)]
#[tactic(auto, using(crate::proofs::RowFacts::is_entry_by_parts))]
fn is_row_by_parts(seen: &[u8], written: &[u8], row: &[u8]) -> bool
    ensures { result ≡ is_entry seen.now written.now (entry_of row.now) }
{
    is_before(row, b'=', seen) && is_before_filling(written, from(row, seen.len() + 1))
}

/// Whether a text in lowercase is what is before a mark of a row, or all of it. Most rows are ruled
/// out by their length.
#[inline(always)]
#[tactic(auto, using(crate::proofs::RowFacts::other_size, crate::proofs::RowFacts::other_end, crate::proofs::RowFacts::no_more_lower))]
fn is_before(row: &[u8], mark: u8, seen: &[u8]) -> bool
    ensures { result ≡ same_bytes (str_to_ascii_lowercase seen.now) (before mark row.now) }
{
    if byte_or(row, seen.len(), mark) != mark {
        return false;
    }
    if !has_last(row, mark, seen) {
        return false;
    }
    for index in 0..seen.len() {
        let byte = byte_or(row, index, mark);
        if byte == mark {
            return false;
        }
        if byte != seen[index].to_ascii_lowercase() {
            return false;
        }
    }
    true
}

/// Whether a row has the last byte of a text at its place.
#[inline(always)]
fn has_last(row: &[u8], mark: u8, seen: &[u8]) -> bool
    ensures { result ≡ has_last mark row.now seen.now }
{
    seen.is_empty()
        || byte_or(row, seen.len() - 1, mark) == seen[seen.len() - 1].to_ascii_lowercase()
}

/// Whether a text is what is before the filling of the rest of a row. Most are ruled out by their length.
#[inline(always)]
#[tactic(auto, using(crate::proofs::RowFacts::no_more, crate::proofs::RowFacts::other_written))]
fn is_before_filling(written: &[u8], rest: &[u8]) -> bool
    ensures { result ≡ same_bytes written.now (before 95 rest.now) }
{
    let size = written.len();
    if size > rest.len() {
        return false;
    }
    if byte_or(rest, size, b'_') != b'_' {
        return false;
    }
    for index in 0..size {
        let byte = byte_or(rest, index, b'_');
        if byte == b'_' {
            return false;
        }
        if byte != written[index] {
            return false;
        }
    }
    true
}

/// Whether a text begins with this row. Most rows are ruled out by their first byte.
#[tactic(auto, using(crate::proofs::EdgeFacts::other_first))]
fn has_front(seen: &[u8], first: u8, row: &[u8]) -> bool
    requires { first ≡ to_ascii_lowercase (slice_index_or seen.now 0 95) }
    ensures { result ≡ begins_with seen.now (front_of row.now) }
{
    let byte = byte_or(row, 0, b'_');
    if byte != b'_' && byte != first {
        return false;
    }
    begins_with(seen, front_of(row))
}

/// Whether a text ends with this row. Most rows are ruled out by their last byte.
#[tactic(auto, using(crate::proofs::EdgeFacts::other_last))]
fn has_end(seen: &[u8], last: u8, row: &[u8]) -> bool
    requires { last ≡ to_ascii_lowercase (slice_index_or seen.now (length seen.now - 1) 95) }
    ensures { result ≡ ends_with seen.now (end_of row.now) }
{
    let byte = last_byte(row);
    if byte != b'_' && byte != last {
        return false;
    }
    ends_with(seen, end_of(row))
}

/// What is before a row's filling.
fn front_of(row: &[u8]) -> &[u8]
    ensures { result.now ≡ front_of row.now }
{
    for index in 0..row.len() {
        if row[index] == b'_' {
            let (front, _) = row.split_at(index);
            return front;
        }
    }
    row
}

/// What is after a row's filling.
fn end_of(row: &[u8]) -> &[u8]
    ensures { result.now ≡ end_of row.now }
{
    for index in 0..row.len() {
        if row[index] != b'_' {
            return from(row, index);
        }
    }
    from(row, row.len())
}

/// The byte at a place, or another after the end.
fn byte_or(text: &[u8], at: usize, other: u8) -> u8
    ensures { result ≡ slice_index_or text.now at other }
{
    if at < text.len() { text[at] } else { other }
}

/// The last byte, or a filling if there is none.
fn last_byte(text: &[u8]) -> u8
    ensures { result ≡ slice_index_or text.now (length text.now - 1) 95 }
{
    if text.is_empty() {
        b'_'
    } else {
        text[text.len() - 1]
    }
}

/// The bytes of a text from a place on, if there are any.
fn from(text: &[u8], at: usize) -> &[u8]
    ensures { result.now ≡ drop at text.now }
{
    if at > text.len() {
        return b"";
    }
    let (_, rest) = text.split_at(at);
    rest
}
