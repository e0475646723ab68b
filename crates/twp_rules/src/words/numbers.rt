//! The words for numbers, and the words and marks that say what a number is of.
ghost use Rattle.std.specs.Prelude.{◌≡◌, [], ◌∷◌};
ghost use Rattle.twp_rules.specs.Edges.{is_one_of};
ghost use Rattle.twp_rules.specs.Words.{numbered_words, units, code_marks, figure_marks, date_marks};
ghost use Rattle.twp_rules.specs.Words.{marks_before_codes, number_words, one_to_nine, damaged_digits};
ghost use Rattle.twp_rules.specs.Words.{numeral_words};

use crate::rows::is_one_of;

/// The texts `numbered_words` of the specification.
static NUMBERED_WORDS: [[u8; 11]; 96] = [
    *b"tract______",
    *b"tr_________",
    *b"parcel_____",
    *b"no_________",
    *b"nos________",
    *b"number_____",
    *b"bk_________",
    *b"book_______",
    *b"vol________",
    *b"pg_________",
    *b"page_______",
    *b"p__________",
    *b"misc_______",
    *b"inst_______",
    *b"instrument_",
    *b"doc________",
    *b"case_______",
    *b"exhibit____",
    *b"item_______",
    *b"comment____",
    *b"allotment__",
    *b"owner______",
    *b"unit_______",
    *b"property___",
    *b"prop_______",
    *b"psc________",
    *b"lease______",
    *b"lse________",
    *b"est________",
    *b"probate____",
    *b"permit_____",
    *b"entry______",
    *b"cat________",
    *b"idi________",
    *b"meridian___",
    *b"mer________",
    *b"jan________",
    *b"january____",
    *b"feb________",
    *b"february___",
    *b"mar________",
    *b"march______",
    *b"apr________",
    *b"april______",
    *b"may________",
    *b"jun________",
    *b"june_______",
    *b"jul________",
    *b"july_______",
    *b"aug________",
    *b"august_____",
    *b"sep________",
    *b"sept_______",
    *b"september__",
    *b"oct________",
    *b"october____",
    *b"nov________",
    *b"november___",
    *b"dec________",
    *b"december___",
    *b"row________",
    *b"mch________",
    *b"patent_____",
    *b"pat________",
    *b"cert_______",
    *b"certificate",
    *b"application",
    *b"contract___",
    *b"agreement__",
    *b"order______",
    *b"list_______",
    *b"paragraph__",
    *b"roll_______",
    *b"code_______",
    *b"account____",
    *b"acct_______",
    *b"allot______",
    *b"report_____",
    *b"form_______",
    *b"waste______",
    *b"dry________",
    *b"irr________",
    *b"grz________",
    *b"past_______",
    *b"crop_______",
    *b"pasture____",
    *b"district___",
    *b"dist_______",
    *b"receipt____",
    *b"sheet______",
    *b"reel_______",
    *b"frame______",
    *b"image______",
    *b"volume_____",
    *b"ref________",
    *b"tab________",
];

/// Whether a word is one of them.
pub(crate) fn is_in_numbered_words(word: &[u8]) -> bool
    ensures { result ≡ is_one_of word.now numbered_words }
{
    is_one_of(word, 0x00fd_f6fe, 0x81bd_fbba, 0x86dd_f3fe, &NUMBERED_WORDS)
}

/// The texts `units` of the specification.
static UNITS: [[u8; 6]; 20] = [
    *b"acres_", *b"acre__", *b"ac____", *b"acs___", *b"a_____", *b"net___", *b"gross_", *b"yr____",
    *b"yrs___", *b"year__", *b"years_", *b"shares", *b"feet__", *b"foot__", *b"ft____", *b"pm____",
    *b"p_____", *b"mer___", *b"bm____", *b"nmpm__",
];

/// Whether a word is one of them.
pub(crate) fn is_in_units(word: &[u8]) -> bool
    ensures { result ≡ is_one_of word.now units }
{
    is_one_of(word, 0x0209_60c6, 0x8014_a128, 0x801d_8022, &UNITS)
}

/// Whether a byte is one of the texts `code_marks` of the specification.
pub(crate) fn is_in_code_marks(byte: u8) -> bool
    ensures { result ≡ is_one_of (byte ∷ []) code_marks }
{
    matches!(byte, b'/' | b'%' | b'\'')
}

/// Whether a byte is one of the texts `figure_marks` of the specification.
pub(crate) fn is_in_figure_marks(byte: u8) -> bool
    ensures { result ≡ is_one_of (byte ∷ []) figure_marks }
{
    matches!(byte, b'.' | b',')
}

/// Whether a byte is one of the texts `date_marks` of the specification.
pub(crate) fn is_in_date_marks(byte: u8) -> bool
    ensures { result ≡ is_one_of (byte ∷ []) date_marks }
{
    matches!(byte, b'-')
}

/// Whether a byte is one of the texts `marks_before_codes` of the specification.
pub(crate) fn is_in_marks_before_codes(byte: u8) -> bool
    ensures { result ≡ is_one_of (byte ∷ []) marks_before_codes }
{
    matches!(byte, b'#' | b'$' | b'/' | b'.' | b'-')
}

/// The texts `number_words` of the specification.
static NUMBER_WORDS: [[u8; 9]; 29] = [
    *b"one______",
    *b"two______",
    *b"three____",
    *b"four_____",
    *b"five_____",
    *b"six______",
    *b"seven____",
    *b"eight____",
    *b"nine_____",
    *b"ten______",
    *b"eleven___",
    *b"twelve___",
    *b"thirteen_",
    *b"fourteen_",
    *b"fifteen__",
    *b"sixteen__",
    *b"seventeen",
    *b"eighteen_",
    *b"nineteen_",
    *b"twenty___",
    *b"thirty___",
    *b"l________",
    *b"i________",
    *b"o________",
    *b"ll_______",
    *b"li_______",
    *b"il_______",
    *b"lo_______",
    *b"io_______",
];

/// Whether a word is one of them.
pub(crate) fn is_in_number_words(word: &[u8]) -> bool
    ensures { result ≡ is_one_of word.now number_words }
{
    is_one_of(word, 0x0018_d260, 0x8080_d320, 0x8164_c2e0, &NUMBER_WORDS)
}

/// The texts `one_to_nine` of the specification.
static ONE_TO_NINE: [[u8; 5]; 9] = [
    *b"one__", *b"two__", *b"three", *b"four_", *b"five_", *b"six__", *b"seven", *b"eight",
    *b"nine_",
];

/// Whether a word is one of them.
pub(crate) fn is_in_one_to_nine(word: &[u8]) -> bool
    ensures { result ≡ is_one_of word.now one_to_nine }
{
    is_one_of(word, 0x0018_c060, 0x0080_c320, 0x0164_c0a0, &ONE_TO_NINE)
}

/// Whether a byte is one of the texts `damaged_digits` of the specification, in either case.
pub(crate) fn is_in_damaged_digits(byte: u8) -> bool
    ensures { result ≡ is_one_of (byte ∷ []) damaged_digits }
{
    matches!(byte.to_ascii_lowercase(), b'l' | b'i' | b'o')
}

/// The texts `numeral_words` of the specification.
static NUMERAL_WORDS: [[u8; 9]; 26] = [
    *b"one______",
    *b"two______",
    *b"three____",
    *b"four_____",
    *b"five_____",
    *b"six______",
    *b"seven____",
    *b"eight____",
    *b"nine_____",
    *b"ten______",
    *b"eleven___",
    *b"twelve___",
    *b"thirteen_",
    *b"fourteen_",
    *b"fifteen__",
    *b"sixteen__",
    *b"seventeen",
    *b"eighteen_",
    *b"nineteen_",
    *b"twenty___",
    *b"thirty___",
    *b"ll_______",
    *b"li_______",
    *b"il_______",
    *b"lo_______",
    *b"io_______",
];

/// Whether a word is one of them.
pub(crate) fn is_in_numeral_words(word: &[u8]) -> bool
    ensures { result ≡ is_one_of word.now numeral_words }
{
    is_one_of(word, 0x0018_d260, 0x0080_d320, 0x8164_c2e0, &NUMERAL_WORDS)
}
