//! Whether two texts are the same, whether a word is in a list, and whether letters are those of corners.

/// Whether two texts are the same. A pattern of bytes would be proved byte by byte, which takes several times
/// as long. The lengths are compared first, and the first bytes: most of them differ, and that takes no call.
#[inline(always)]
pub fn is_same(word: &[u8], text: &[u8]) -> bool {
    word.len() == text.len() && begin_alike(word, text) && word == text
}

/// Whether two texts begin with the same byte, or one has none.
#[inline(always)]
fn begin_alike(word: &[u8], text: &[u8]) -> bool {
    match (word, text) {
        ([one, ..], [other, ..]) => one == other,
        _ => true,
    }
}

/// Whether a word is one of these words, which are sorted, and all have as many bytes as it has,
/// and a space between them. A list in code calls this with a row of words for each length: so only
/// the few words of this length are compared, and they are proved at once, not one by one. Rows
/// that a `match` returned would become a table of pointers, each of which is set at every start of
/// the program. The number before the words has a bit for the first byte of each of them, and one
/// for the last byte, which rules out most words before any is compared.
#[inline(always)]
pub(crate) fn is_among(word: &[u8], edges: u64, words: &str) -> bool {
    has_edges(word, edges) && has_row(word, words)
}

/// Whether a number has the bit of a word's first byte: that of the byte's low five bits; and 32 bits higher,
/// that of its last byte.
#[inline(always)]
fn has_edges(word: &[u8], edges: u64) -> bool {
    match (word.first(), word.last()) {
        (Some(first), Some(last)) => {
            let (head, tail) = (*first % 32, *last % 32);
            (edges >> head) & (edges >> (tail + 32)) & 1 == 1
        }
        _ => false,
    }
}

/// The most times that the rows of a list are halved: no list has as many as this allows.
const HALVINGS_MOST: usize = 16;

/// Whether a word is one of these words, which are sorted: half of the rows that are left are ruled
/// out by each comparison.
#[inline(never)]
fn has_row(word: &[u8], words: &str) -> bool {
    let rows = words.as_bytes();
    let size = word.len() + 1;
    let mut low: usize = 0;
    let mut high: usize = (rows.len() + 1) / size;
    for _ in 0..HALVINGS_MOST {
        if low >= high {
            return false;
        }
        let middle = low.wrapping_add(high) / 2;
        let row = rows.get(middle.wrapping_mul(size)..).unwrap_or(b"");
        match first_difference(row, word) {
            Some((one, other)) if one < other => low = middle.wrapping_add(1),
            Some(_) => high = middle,
            None => return true,
        }
    }
    false
}

/// The first byte of a row that isn't that of a word, and the word's byte. Both are short, so they
/// are compared byte by byte.
fn first_difference(row: &[u8], word: &[u8]) -> Option<(u8, u8)> {
    for (one, other) in row.iter().zip(word) {
        if one != other {
            return Some((*one, *other));
        }
    }
    None
}

/// Which of these words a word is, counted from 0.
#[inline(never)]
fn index_among(word: &[u8], words: &str) -> Option<usize> {
    for (index, row) in words.as_bytes().chunks(word.len() + 1).enumerate() {
        if is_row(row, word) {
            return Some(index);
        }
    }
    None
}

/// Whether a row is a word, with or without a space after it. Both are short, so they are compared byte by
/// byte.
fn is_row(row: &[u8], word: &[u8]) -> bool {
    for (one, other) in row.iter().zip(word) {
        if one != other {
            return false;
        }
    }
    true
}

/// The value of a word, if it is one of these words, which have these values.
#[inline(always)]
pub(crate) fn value_among(word: &[u8], edges: u64, words: &str, values: &[u8]) -> Option<u64> {
    if !has_edges(word, edges) {
        return None;
    }
    let at = index_among(word, words)?;
    Some(u64::from(*values.get(at)?))
}

/// Whether letters in lowercase are those of two corners or more.
pub fn are_corners(letters: &[u8]) -> bool {
    if letters.len() < 4 || letters.len() % 2 != 0 {
        return false;
    }
    for corner in letters.chunks(2) {
        if !matches!(corner, [b'n' | b's', b'e' | b'w']) {
            return false;
        }
    }
    true
}

/// Whether a word begins with corners in capitals, and goes on as another word, from which a line end was
/// lost, as in `NENWCanyon`.
pub fn is_glued(word: &[u8]) -> bool {
    let mut rest = word;
    for _ in 0..4 {
        match rest {
            [b'N' | b'S', b'E' | b'W', more @ ..] => rest = more,
            _ => break,
        }
    }
    let is_name = match rest {
        [b'A'..=b'Z', b'a'..=b'z', ..] => true,
        [b'a'..=b'z', b'a'..=b'z', b'a'..=b'z', b'a'..=b'z', ..] => true,
        _ => false,
    };
    rest.len() < word.len() && is_name
}

/// Whether bytes are one of these texts, which are separated by spaces, in letters of either case.
pub fn is_one_of(bytes: &[u8], texts: &str) -> bool {
    if bytes.is_empty() {
        return false;
    }
    let mut count: usize = 0;
    let mut fits = true;
    for byte in texts.as_bytes() {
        if *byte == b' ' {
            if fits && count == bytes.len() {
                return true;
            }
            count = 0;
            fits = true;
        } else if fits {
            fits = is_letter(bytes, count, *byte);
            count = count.saturating_add(1);
        }
    }
    fits && count == bytes.len()
}

/// Whether the byte at an index is this one, in either case.
fn is_letter(bytes: &[u8], index: usize, letter: u8) -> bool {
    match bytes.get(index) {
        Some(byte) => byte.eq_ignore_ascii_case(&letter),
        None => false,
    }
}

/// How many bytes a character has by its first byte, if no fewer are left of its text.
pub fn size_of_character(first: &[u8], left: usize) -> usize {
    let size: usize = match first.first() {
        Some(0xC2..=0xDF) => 2,
        Some(0xE0..=0xEF) => 3,
        Some(0xF0..=0xF4) => 4,
        _ => 1,
    };
    if size <= left { size } else { 1 }
}
