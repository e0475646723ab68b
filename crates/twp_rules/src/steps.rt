//! Steps of aliquot parts that are written again.
ghost use Rattle.std.specs.Prelude.{◌≡◌, ◌≤◌, ◌&&◌, [], ◌∷◌, codes, drop, length};
ghost use Rattle.twp_grammar.specs.Tokens.{same_bytes};
ghost use Rattle.twp_rules.specs.Endings.{half_texts, quarter_texts};
ghost use Rattle.twp_rules.specs.Edges.{is_one_of, without_white};
ghost use Rattle.twp_rules.specs.Rules.{is_step, is_copied_step};
ghost use Rattle.twp_rules.specs.Edges.{begins_with};
ghost use Rattle.twp_rules.specs.Rules.{is_half, is_quarter, is_some_half, is_some_quarter};

use crate::figures::without_white;
use crate::same::{are_same, begins_with, is_text};

/// The texts `half_texts` of the specification.
fn is_in_half_texts(seen: &[u8]) -> bool
    ensures { result ≡ is_one_of seen.now half_texts }
{
    is_text(seen, b"2")
        || is_text(seen, b"/2")
        || is_text(seen, b"1/2")
        || is_text(seen, b"\xC2\xBD")
        || is_text(seen, b"half")
        || is_text(seen, b"one-half")
        || is_text(seen, b"one half")
}

/// The texts `quarter_texts` of the specification.
fn is_in_quarter_texts(seen: &[u8]) -> bool
    ensures { result ≡ is_one_of seen.now quarter_texts }
{
    is_text(seen, b"")
        || is_text(seen, b"4")
        || is_text(seen, b"/4")
        || is_text(seen, b"1/4")
        || is_text(seen, b"\xC2\xBC")
        || is_text(seen, b"quarter")
        || is_text(seen, b"one-quarter")
        || is_text(seen, b"one quarter")
}

/// The rest of a text after so many bytes.
fn after(seen: &[u8], count: usize) -> &[u8]
    requires { count ≤ length seen.now }
    ensures { result.now ≡ drop count seen.now }
{
    let (_, rest) = seen.split_at(count);
    rest
}

/// Whether a text is a front and a half.
fn has_half(seen: &[u8], front: &[u8]) -> bool
    ensures { result ≡ (begins_with seen.now front.now
        && is_one_of (without_white (drop (length front.now) seen.now)) half_texts) }
{
    begins_with(seen, front) && is_in_half_texts(without_white(after(seen, front.len())))
}

/// Whether a text is a front and a quarter.
fn has_quarter(seen: &[u8], front: &[u8]) -> bool
    ensures { result ≡ (begins_with seen.now front.now
        && is_one_of (without_white (drop (length front.now) seen.now)) quarter_texts) }
{
    begins_with(seen, front) && is_in_quarter_texts(without_white(after(seen, front.len())))
}

/// Whether a text is a spelling of `N1/2`, which is written.
fn is_north_half(seen: &[u8], written: &[u8]) -> bool
    ensures { result ≡ is_half seen.now written.now (codes "n" ∷ codes "north" ∷ []) (codes "N1/2") }
{
    (has_half(seen, b"n") || has_half(seen, b"north")) && are_same(written, b"N1/2")
}

/// Whether a text is a spelling of `S1/2`, which is written.
fn is_south_half(seen: &[u8], written: &[u8]) -> bool
    ensures { result ≡ is_half seen.now written.now (codes "s" ∷ codes "south" ∷ []) (codes "S1/2") }
{
    (has_half(seen, b"s") || has_half(seen, b"south")) && are_same(written, b"S1/2")
}

/// Whether a text is a spelling of `E1/2`, which is written.
fn is_east_half(seen: &[u8], written: &[u8]) -> bool
    ensures { result ≡ is_half seen.now written.now (codes "e" ∷ codes "east" ∷ []) (codes "E1/2") }
{
    (has_half(seen, b"e") || has_half(seen, b"east")) && are_same(written, b"E1/2")
}

/// Whether a text is a spelling of `W1/2`, which is written.
fn is_west_half(seen: &[u8], written: &[u8]) -> bool
    ensures { result ≡ is_half seen.now written.now (codes "w" ∷ codes "west" ∷ []) (codes "W1/2") }
{
    (has_half(seen, b"w") || has_half(seen, b"west")) && are_same(written, b"W1/2")
}

/// Whether a text is a spelling of `NE1/4`, which is written.
fn is_northeast_quarter(seen: &[u8], written: &[u8]) -> bool
    ensures { result ≡ is_quarter seen.now written.now
        (codes "ne" ∷ codes "northeast" ∷ codes "north east" ∷ []) (codes "NE1/4") }
{
    (has_quarter(seen, b"ne")
        || has_quarter(seen, b"northeast")
        || has_quarter(seen, b"north east"))
        && are_same(written, b"NE1/4")
}

/// Whether a text is a spelling of `NW1/4`, which is written.
fn is_northwest_quarter(seen: &[u8], written: &[u8]) -> bool
    ensures { result ≡ is_quarter seen.now written.now
        (codes "nw" ∷ codes "northwest" ∷ codes "north west" ∷ []) (codes "NW1/4") }
{
    (has_quarter(seen, b"nw")
        || has_quarter(seen, b"northwest")
        || has_quarter(seen, b"north west"))
        && are_same(written, b"NW1/4")
}

/// Whether a text is a spelling of `SE1/4`, which is written.
fn is_southeast_quarter(seen: &[u8], written: &[u8]) -> bool
    ensures { result ≡ is_quarter seen.now written.now
        (codes "se" ∷ codes "southeast" ∷ codes "south east" ∷ []) (codes "SE1/4") }
{
    (has_quarter(seen, b"se")
        || has_quarter(seen, b"southeast")
        || has_quarter(seen, b"south east"))
        && are_same(written, b"SE1/4")
}

/// Whether a text is a spelling of `SW1/4`, which is written.
fn is_southwest_quarter(seen: &[u8], written: &[u8]) -> bool
    ensures { result ≡ is_quarter seen.now written.now
        (codes "sw" ∷ codes "southwest" ∷ codes "south west" ∷ []) (codes "SW1/4") }
{
    (has_quarter(seen, b"sw")
        || has_quarter(seen, b"southwest")
        || has_quarter(seen, b"south west"))
        && are_same(written, b"SW1/4")
}

/// Whether a text is a spelling of a half, which is written.
fn is_some_half(seen: &[u8], written: &[u8]) -> bool
    ensures { result ≡ is_some_half seen.now written.now }
{
    is_north_half(seen, written)
        || is_south_half(seen, written)
        || is_east_half(seen, written)
        || is_west_half(seen, written)
}

/// Whether a text is a spelling of a quarter, which is written.
fn is_some_quarter(seen: &[u8], written: &[u8]) -> bool
    ensures { result ≡ is_some_quarter seen.now written.now }
{
    is_northeast_quarter(seen, written)
        || is_northwest_quarter(seen, written)
        || is_southeast_quarter(seen, written)
        || is_southwest_quarter(seen, written)
}

/// Whether a text is a spelling of a step of an aliquot part, which is written.
fn is_step(seen: &[u8], written: &[u8]) -> bool
    ensures { result ≡ is_step seen.now written.now }
{
    is_some_half(seen, written) || is_some_quarter(seen, written)
}

/// Whether what is written is the step that a text has from one place up to another.
pub(crate) fn is_copied_step(text: &[u8], from: usize, to: usize, written: &[u8]) -> bool
    ensures { result ≡ is_copied_step text.now from to written.now }
{
    from <= to && to <= text.len() && is_step(&text[from..to], written)
}
