//! The words that take land away or say where it ends, and what phrases that name no land may contain.
ghost use Rattle.std.specs.Prelude.{◌≡◌};
ghost use Rattle.twp_rules.specs.Edges.{is_one_of};
ghost use Rattle.twp_rules.specs.Words.{share_words, taking_words, more_taking_words, portion_words};
ghost use Rattle.twp_rules.specs.Words.{bound_words, measure_words, record_limits, reserving_words};
ghost use Rattle.twp_rules.specs.Words.{claim_words, depth_limits, lease_limits, acreage_limits, mineral_words};
ghost use Rattle.twp_rules.specs.Words.{depth_words, further_exceptions};

use crate::rows::is_one_of;

/// The texts `share_words` of the specification.
static SHARE_WORDS: [[u8; 8]; 4] = [*b"half____", *b"halves__", *b"quarter_", *b"quarters"];

/// Whether a word is one of them.
pub(crate) fn is_in_share_words(word: &[u8]) -> bool
    ensures { result ≡ is_one_of word.now share_words }
{
    is_one_of(word, 0x0002_0100, 0x0020_0002, 0x0000_1002, &SHARE_WORDS)
}

/// The texts `taking_words` of the specification.
static TAKING_WORDS: [[u8; 10]; 15] = [
    *b"except____",
    *b"excepting_",
    *b"exception_",
    *b"exceptions",
    *b"excepted__",
    *b"excluding_",
    *b"excludes__",
    *b"excluded__",
    *b"exclusive_",
    *b"ex________",
    *b"less______",
    *b"save______",
    *b"but_______",
    *b"not_______",
    *b"without___",
];

/// Whether a word is one of them.
pub(crate) fn is_in_taking_words(word: &[u8]) -> bool
    ensures { result ≡ is_one_of word.now taking_words }
{
    is_one_of(word, 0x0088_5024, 0x0120_8222, 0x8058_0008, &TAKING_WORDS)
}

/// The texts `more_taking_words` of the specification.
static MORE_TAKING_WORDS: [[u8; 12]; 12] = [
    *b"minus_______",
    *b"omitted_____",
    *b"deleted_____",
    *b"void________",
    *b"cancelled___",
    *b"withdrawn___",
    *b"surrendered_",
    *b"relinquished",
    *b"remaining___",
    *b"balance_____",
    *b"former______",
    *b"formerly____",
];

/// Whether a word is one of them.
pub(crate) fn is_in_more_taking_words(word: &[u8]) -> bool
    ensures { result ≡ is_one_of word.now more_taking_words }
{
    is_one_of(
        word,
        0x00cc_a05c,
        0x0020_a222,
        0x0014_7200,
        &MORE_TAKING_WORDS,
    )
}

/// The texts `portion_words` of the specification.
static PORTION_WORDS: [[u8; 8]; 15] = [
    *b"portion_",
    *b"portions",
    *b"part____",
    *b"parts___",
    *b"por_____",
    *b"pt______",
    *b"ptn_____",
    *b"strip___",
    *b"block___",
    *b"blk_____",
    *b"claim___",
    *b"claims__",
    *b"lode____",
    *b"tax_____",
    *b"survey__",
];

/// Whether a word is one of them.
pub(crate) fn is_in_portion_words(word: &[u8]) -> bool
    ensures { result ≡ is_one_of word.now portion_words }
{
    is_one_of(word, 0x0019_100c, 0x0030_9002, 0x8104_c812, &PORTION_WORDS)
}

/// The texts `bound_words` of the specification.
static BOUND_WORDS: [[u8; 9]; 14] = [
    *b"beginning",
    *b"thence___",
    *b"lying____",
    *b"bounded__",
    *b"within___",
    *b"outside__",
    *b"inside___",
    *b"along____",
    *b"across___",
    *b"between__",
    *b"above____",
    *b"below____",
    *b"adjacent_",
    *b"adjoining",
];

/// Whether a word is one of them.
pub(crate) fn is_in_bound_words(word: &[u8]) -> bool
    ensures { result ≡ is_one_of word.now bound_words }
{
    is_one_of(word, 0x0090_9206, 0x0220_d33c, 0x003c_96a0, &BOUND_WORDS)
}

/// The texts `measure_words` of the specification.
static MEASURE_WORDS: [[u8; 10]; 10] = [
    *b"feet______",
    *b"foot______",
    *b"ft________",
    *b"rod_______",
    *b"rods______",
    *b"chain_____",
    *b"chains____",
    *b"centerline",
    *b"line______",
    *b"point_____",
];

/// Whether a word is one of them.
pub(crate) fn is_in_measure_words(word: &[u8]) -> bool
    ensures { result ≡ is_one_of word.now measure_words }
{
    is_one_of(word, 0x0005_1048, 0x0010_8320, 0x8000_c232, &MEASURE_WORDS)
}

/// The texts `record_limits` of the specification.
static RECORD_LIMITS: [[u8; 6]; 2] = [*b"survey", *b"part__"];

/// Whether a word is one of them.
pub(crate) fn is_in_record_limits(word: &[u8]) -> bool
    ensures { result ≡ is_one_of word.now record_limits }
{
    is_one_of(word, 0x0009_0000, 0x0020_0002, 0x0004_0000, &RECORD_LIMITS)
}

/// The texts `reserving_words` of the specification.
static RESERVING_WORDS: [[u8; 9]; 1] = [*b"excepting"];

/// Whether a word is one of them.
pub(crate) fn is_in_reserving_words(word: &[u8]) -> bool
    ensures { result ≡ is_one_of word.now reserving_words }
{
    is_one_of(
        word,
        0x0000_0020,
        0x0100_0000,
        0x0000_0008,
        &RESERVING_WORDS,
    )
}

/// The texts `depth_limits` of the specification.
static DEPTH_LIMITS: [[u8; 7]; 7] = [
    *b"below__",
    *b"above__",
    *b"between",
    *b"within_",
    *b"feet___",
    *b"foot___",
    *b"ft_____",
];

/// Whether a word is one of them.
pub(crate) fn is_in_depth_limits(word: &[u8]) -> bool
    ensures { result ≡ is_one_of word.now depth_limits }
{
    is_one_of(word, 0x0080_0046, 0x0010_8224, 0x8010_9020, &DEPTH_LIMITS)
}

/// The texts `claim_words` of the specification.
static CLAIM_WORDS: [[u8; 6]; 2] = [*b"claim_", *b"claims"];

/// Whether a word is one of them.
pub(crate) fn is_in_claim_words(word: &[u8]) -> bool
    ensures { result ≡ is_one_of word.now claim_words }
{
    is_one_of(word, 0x0000_0008, 0x0000_1000, 0x0000_0002, &CLAIM_WORDS)
}

/// The texts `lease_limits` of the specification.
static LEASE_LIMITS: [[u8; 9]; 1] = [*b"remaining"];

/// Whether a word is one of them.
pub(crate) fn is_in_lease_limits(word: &[u8]) -> bool
    ensures { result ≡ is_one_of word.now lease_limits }
{
    is_one_of(word, 0x0004_0000, 0x0000_0020, 0x0000_2000, &LEASE_LIMITS)
}

/// The texts `acreage_limits` of the specification.
static ACREAGE_LIMITS: [[u8; 4]; 1] = [*b"less"];

/// Whether a word is one of them.
pub(crate) fn is_in_acreage_limits(word: &[u8]) -> bool
    ensures { result ≡ is_one_of word.now acreage_limits }
{
    is_one_of(word, 0x0000_1000, 0x0000_0020, 0x0008_0000, &ACREAGE_LIMITS)
}

/// The texts `mineral_words` of the specification.
static MINERAL_WORDS: [[u8; 12]; 8] = [
    *b"oil_________",
    *b"gas_________",
    *b"mineral_____",
    *b"minerals____",
    *b"coal________",
    *b"hydrocarbons",
    *b"royalty_____",
    *b"geothermal__",
];

/// Whether a word is one of them.
pub(crate) fn is_in_mineral_words(word: &[u8]) -> bool
    ensures { result ≡ is_one_of word.now mineral_words }
{
    is_one_of(word, 0x0004_a188, 0x0200_8222, 0x0208_d012, &MINERAL_WORDS)
}

/// The texts `depth_words` of the specification.
static DEPTH_WORDS: [[u8; 13]; 11] = [
    *b"depth________",
    *b"depths_______",
    *b"surface______",
    *b"subsurface___",
    *b"formation____",
    *b"formations___",
    *b"base_________",
    *b"stratigraphic",
    *b"feet_________",
    *b"ft___________",
    *b"rights_______",
];

/// Whether a word is one of them.
pub(crate) fn is_in_depth_words(word: &[u8]) -> bool
    ensures { result ≡ is_one_of word.now depth_words }
{
    is_one_of(word, 0x000c_0054, 0x0030_8222, 0x800d_00a4, &DEPTH_WORDS)
}

/// The texts `further_exceptions` of the specification.
static FURTHER_EXCEPTIONS: [[u8; 9]; 5] = [
    *b"except___",
    *b"excepting",
    *b"not______",
    *b"exception",
    *b"with_____",
];

/// Whether a word is one of them.
pub(crate) fn is_in_further_exceptions(word: &[u8]) -> bool
    ensures { result ≡ is_one_of word.now further_exceptions }
{
    is_one_of(
        word,
        0x0080_4020,
        0x0100_8200,
        0x0010_0008,
        &FURTHER_EXCEPTIONS,
    )
}
