//! The letters and words for sides and corners.
ghost use Rattle.std.specs.Prelude.{◌≡◌, [], ◌∷◌};
ghost use Rattle.twp_rules.specs.Edges.{is_one_of};
ghost use Rattle.twp_rules.specs.Words.{north_south, east_west, side_names, side_words, north_words};
ghost use Rattle.twp_rules.specs.Words.{south_words, east_words, west_words};

use crate::rows::is_one_of;
use crate::same::is_text;

/// Whether a byte is one of the texts `north_south` of the specification, in either case.
pub(crate) fn is_north_south(byte: u8) -> bool
    ensures { result ≡ is_one_of (byte ∷ []) north_south }
{
    matches!(byte.to_ascii_lowercase(), b'n' | b's')
}

/// Whether a word is one of the texts `east_west` of the specification.
pub(crate) fn is_in_east_west(word: &[u8]) -> bool
    ensures { result ≡ is_one_of word.now east_west }
{
    is_text(word, b"e") || is_text(word, b"w")
}

/// Whether a byte is one of the texts `east_west` of the specification, in either case.
pub(crate) fn is_east_west(byte: u8) -> bool
    ensures { result ≡ is_one_of (byte ∷ []) east_west }
{
    matches!(byte.to_ascii_lowercase(), b'e' | b'w')
}

/// Whether a word is one of the texts `side_names` of the specification.
pub(crate) fn is_in_side_names(word: &[u8]) -> bool
    ensures { result ≡ is_one_of word.now side_names }
{
    is_text(word, b"n")
        || is_text(word, b"s")
        || is_text(word, b"e")
        || is_text(word, b"w")
        || is_text(word, b"north")
        || is_text(word, b"south")
        || is_text(word, b"east")
        || is_text(word, b"west")
}

/// The texts `side_words` of the specification.
static SIDE_WORDS: [[u8; 9]; 14] = [
    *b"n________",
    *b"s________",
    *b"e________",
    *b"w________",
    *b"north____",
    *b"south____",
    *b"east_____",
    *b"west_____",
    *b"northeast",
    *b"northwest",
    *b"southeast",
    *b"southwest",
    *b"corner___",
    *b"cor______",
];

/// Whether a word is one of them.
pub(crate) fn is_in_side_words(word: &[u8]) -> bool
    ensures { result ≡ is_one_of word.now side_words }
{
    is_one_of(word, 0x0088_4028, 0x8000_8022, 0x802c_0000, &SIDE_WORDS)
}

/// Whether a word is one of the texts `north_words` of the specification.
pub(crate) fn is_in_north_words(word: &[u8]) -> bool
    ensures { result ≡ is_one_of word.now north_words }
{
    is_text(word, b"n") || is_text(word, b"north") || is_text(word, b"nr")
}

/// Whether a word is one of the texts `south_words` of the specification.
pub(crate) fn is_in_south_words(word: &[u8]) -> bool
    ensures { result ≡ is_one_of word.now south_words }
{
    is_text(word, b"s") || is_text(word, b"south") || is_text(word, b"sr")
}

/// Whether a word is one of the texts `east_words` of the specification.
pub(crate) fn is_in_east_words(word: &[u8]) -> bool
    ensures { result ≡ is_one_of word.now east_words }
{
    is_text(word, b"e") || is_text(word, b"east")
}

/// Whether a word is one of the texts `west_words` of the specification.
pub(crate) fn is_in_west_words(word: &[u8]) -> bool
    ensures { result ≡ is_one_of word.now west_words }
{
    is_text(word, b"w") || is_text(word, b"west")
}
