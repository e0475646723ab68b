//! Texts that are the same, in letters of either case, or that begin or end with another.
ghost use Rattle.std.specs.Prelude.{◌≡◌};
ghost use Rattle.std.specs.Str.{str_to_ascii_lowercase};
ghost use Rattle.twp_grammar.specs.Tokens.{same_bytes};
ghost use Rattle.twp_rules.specs.Edges.{begins_with, ends_with};
ghost use Rattle.twp_rules.specs.Rules.{is_entry};
ghost use Rattle.twp_rules.specs.Tables.{◌⇒◌};

/// Whether two texts are the same. Most have different lengths, which is seen without a call.
#[tactic(auto, using(crate::proofs::SameTexts::is_same, crate::proofs::SameTexts::other_size))]
pub fn are_same(one: &[u8], other: &[u8]) -> bool
    ensures { result ≡ same_bytes one.now other.now }
{
    if one.len() != other.len() {
        return false;
    }
    one == other
}

/// Whether a rule looks at this text, with its letters in lowercase, and writes the other.
#[inline(always)]
pub(crate) fn is_entry(seen: &[u8], text: &[u8], written: &[u8], instead: &[u8]) -> bool
    ensures { result ≡ is_entry seen.now written.now (text.now ⇒ instead.now) }
{
    is_text(seen, text) && is_exactly(written, instead)
}

/// The same as `are_same`, but byte by byte, which takes less if the second text is short and its
/// length is known.
#[inline(always)]
#[tactic(auto, using(crate::proofs::SameTexts::other_size))]
fn is_exactly(seen: &[u8], text: &[u8]) -> bool
    ensures { result ≡ same_bytes seen.now text.now }
{
    if seen.len() != text.len() {
        return false;
    }
    for index in 0..seen.len() {
        if seen[index] != text[index] {
            return false;
        }
    }
    true
}

/// Whether a text, with its letters in lowercase, is another one.
#[inline(always)]
#[tactic(auto, using(crate::proofs::SameTexts::other_length))]
pub fn is_text(seen: &[u8], text: &[u8]) -> bool
    ensures { result ≡ same_bytes (str_to_ascii_lowercase seen.now) text.now }
{
    if seen.len() != text.len() {
        return false;
    }
    for index in 0..seen.len() {
        if seen[index].to_ascii_lowercase() != text[index] {
            return false;
        }
    }
    true
}

/// Whether a text, with its letters in lowercase, ends with another one.
#[inline(always)]
pub fn ends_with(seen: &[u8], end: &[u8]) -> bool
    ensures { result ≡ ends_with seen.now end.now }
{
    if seen.len() < end.len() {
        return false;
    }
    let (_, last) = seen.split_at(seen.len() - end.len());
    is_text(last, end)
}

/// Whether a text, with its letters in lowercase, begins with another one.
#[inline(always)]
pub fn begins_with(seen: &[u8], front: &[u8]) -> bool
    ensures { result ≡ begins_with seen.now front.now }
{
    if seen.len() < front.len() {
        return false;
    }
    let (first, _) = seen.split_at(front.len());
    is_text(first, front)
}
