//! The words and marks that name land, are within a part, or set a number apart from land.
ghost use Rattle.std.specs.Prelude.{◌≡◌, [], ◌∷◌};
ghost use Rattle.twp_rules.specs.Edges.{is_one_of};
ghost use Rattle.twp_rules.specs.Words.{land_words, number_letters, first_words, cell_marks, apart_marks};
ghost use Rattle.twp_rules.specs.Words.{before_land_marks, words_in_parts};

use crate::rows::is_one_of;

/// The texts `land_words` of the specification.
static LAND_WORDS: [[u8; 9]; 18] = [
    *b"sec______",
    *b"secs_____",
    *b"section__",
    *b"sections_",
    *b"sect_____",
    *b"sects____",
    *b"lot______",
    *b"lots_____",
    *b"lt_______",
    *b"lts______",
    *b"ne_______",
    *b"nw_______",
    *b"se_______",
    *b"sw_______",
    *b"northeast",
    *b"northwest",
    *b"southeast",
    *b"southwest",
];

/// Whether a word is one of them.
pub(crate) fn is_in_land_words(word: &[u8]) -> bool
    ensures { result ≡ is_one_of word.now land_words }
{
    is_one_of(word, 0x0008_5000, 0x0090_8020, 0x803c_0008, &LAND_WORDS)
}

/// The texts `number_letters` of the specification.
static NUMBER_LETTERS: [[u8; 2]; 5] = [*b"l_", *b"gl", *b"t_", *b"r_", *b"s_"];

/// Whether a word is one of them.
pub(crate) fn is_in_number_letters(word: &[u8]) -> bool
    ensures { result ≡ is_one_of word.now number_letters }
{
    is_one_of(word, 0x001c_1080, 0x8000_1000, 0x8000_0000, &NUMBER_LETTERS)
}

/// The texts `first_words` of the specification.
static FIRST_WORDS: [[u8; 9]; 24] = [
    *b"n________",
    *b"s________",
    *b"e________",
    *b"w________",
    *b"north____",
    *b"south____",
    *b"east_____",
    *b"west_____",
    *b"northeast",
    *b"northwest",
    *b"southeast",
    *b"southwest",
    *b"lot______",
    *b"lots_____",
    *b"lt_______",
    *b"lts______",
    *b"l________",
    *b"gl_______",
    *b"all______",
    *b"the______",
    *b"entire___",
    *b"whole____",
    *b"aliq_____",
    *b"aliquot__",
];

/// Whether a word is one of them.
pub(crate) fn is_in_first_words(word: &[u8]) -> bool
    ensures { result ≡ is_one_of word.now first_words }
{
    is_one_of(word, 0x0098_50a2, 0x8010_d122, 0x803c_9220, &FIRST_WORDS)
}

/// Whether a byte is one of the texts `cell_marks` of the specification.
pub(crate) fn is_in_cell_marks(byte: u8) -> bool
    ensures { result ≡ is_one_of (byte ∷ []) cell_marks }
{
    matches!(byte, b'|' | b'\t')
}

/// Whether a byte is one of the texts `apart_marks` of the specification.
pub(crate) fn is_in_apart_marks(byte: u8) -> bool
    ensures { result ≡ is_one_of (byte ∷ []) apart_marks }
{
    matches!(
        byte,
        b',' | b';' | b':' | b'.' | b'|' | b'(' | b')' | b'-' | b'&' | b'+' | b'"'
    )
}

/// Whether a byte is one of the texts `before_land_marks` of the specification.
pub(crate) fn is_in_before_land_marks(byte: u8) -> bool
    ensures { result ≡ is_one_of (byte ∷ []) before_land_marks }
{
    matches!(byte, b':' | b'-' | b'|' | b'(' | b'\t')
}

/// The texts `words_in_parts` of the specification.
static WORDS_IN_PARTS: [[u8; 2]; 3] = [*b"of", *b"\\_", *b"/_"];

/// Whether a word is one of them.
pub(crate) fn is_in_words_in_parts(word: &[u8]) -> bool
    ensures { result ≡ is_one_of word.now words_in_parts }
{
    is_one_of(word, 0x1000_8000, 0x8000_0040, 0x8000_0000, &WORDS_IN_PARTS)
}
