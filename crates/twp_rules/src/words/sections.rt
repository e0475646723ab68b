//! The words of sections, townships, and ranges, and the names of columns.
ghost use Rattle.std.specs.Prelude.{◌≡◌, [], ◌∷◌};
ghost use Rattle.twp_rules.specs.Edges.{is_one_of};
ghost use Rattle.twp_rules.specs.Words.{column_words, moved_section_words, moved_heading_words};
ghost use Rattle.twp_rules.specs.Words.{letter_marks, section_names, list_words, location_marks, township_words};
ghost use Rattle.twp_rules.specs.Words.{tier_words, range_words};

use crate::rows::is_one_of;
use crate::same::is_text;

/// The texts `column_words` of the specification.
static COLUMN_WORDS: [[u8; 11]; 100] = [
    *b"mer________",
    *b"meridian___",
    *b"twp________",
    *b"township___",
    *b"t__________",
    *b"rng________",
    *b"range______",
    *b"r__________",
    *b"sec________",
    *b"section____",
    *b"stype______",
    *b"type_______",
    *b"nr_________",
    *b"no_________",
    *b"suff_______",
    *b"survey_____",
    *b"subdivision",
    *b"legal______",
    *b"desc_______",
    *b"description",
    *b"aliquot____",
    *b"aliquots___",
    *b"lots_______",
    *b"acres______",
    *b"ac_________",
    *b"gross______",
    *b"net________",
    *b"district___",
    *b"field______",
    *b"office_____",
    *b"county_____",
    *b"state______",
    *b"st_________",
    *b"mgmt_______",
    *b"agency_____",
    *b"tract______",
    *b"school_____",
    *b"rge________",
    *b"rg_________",
    *b"tp_________",
    *b"twn________",
    *b"name_______",
    *b"remarks____",
    *b"notes______",
    *b"grantor____",
    *b"grantee____",
    *b"date_______",
    *b"book_______",
    *b"page_______",
    *b"inst_______",
    *b"status_____",
    *b"parcel_____",
    *b"pin________",
    *b"id_________",
    *b"use________",
    *b"value______",
    *b"mi_________",
    *b"int________",
    *b"interest___",
    *b"tr_________",
    *b"qq_________",
    *b"qqsec______",
    *b"qsec_______",
    *b"instrument_",
    *b"acreage____",
    *b"owner______",
    *b"line_______",
    *b"code_______",
    *b"action_____",
    *b"act________",
    *b"remark_____",
    *b"styp_______",
    *b"snr________",
    *b"aliq_______",
    *b"lot________",
    *b"q__________",
    *b"qtr________",
    *b"trs________",
    *b"str________",
    *b"mtrs_______",
    *b"lease______",
    *b"lessor_____",
    *b"lessee_____",
    *b"rec________",
    *b"recorded___",
    *b"instr______",
    *b"bk_________",
    *b"pg_________",
    *b"doc________",
    *b"file_______",
    *b"case_______",
    *b"serial_____",
    *b"acct_______",
    *b"account____",
    *b"cnty_______",
    *b"nma________",
    *b"royalty____",
    *b"exp________",
    *b"term_______",
    *b"record_____",
];

/// Whether a word is one of them.
pub(crate) fn is_in_column_words(word: &[u8]) -> bool
    ensures { result ≡ is_one_of word.now column_words }
{
    is_one_of(word, 0x007f_f2fe, 0x83bf_fafa, 0x82bd_f3fe, &COLUMN_WORDS)
}

/// The texts `moved_section_words` of the specification.
static MOVED_SECTION_WORDS: [[u8; 10]; 44] = [
    *b"sec_______",
    *b"secs______",
    *b"section___",
    *b"sections__",
    *b"sect______",
    *b"sects_____",
    *b"s_________",
    *b"sn________",
    *b"scc_______",
    *b"sce_______",
    *b"seo_______",
    *b"see_______",
    *b"ec________",
    *b"ection____",
    *b"secton____",
    *b"sectlon___",
    *b"sectoin___",
    *b"seciton___",
    *b"sectiou___",
    *b"seclion___",
    *b"seotion___",
    *b"sectior___",
    *b"tion______",
    *b"numbered__",
    *b"no________",
    *b"nos_______",
    *b"said______",
    *b"same______",
    *b"all_______",
    *b"both______",
    *b"fractional",
    *b"in________",
    *b"of________",
    *b"the_______",
    *b"and_______",
    *b"to________",
    *b"thru______",
    *b"through___",
    *b"scction___",
    *b"seetion___",
    *b"secfion___",
    *b"sectian___",
    *b"sectien___",
    *b"soction___",
];

/// Whether a word is one of them.
pub(crate) fn is_in_moved_section_words(word: &[u8]) -> bool
    ensures { result ≡ is_one_of word.now moved_section_words }
{
    is_one_of(
        word,
        0x0018_c266,
        0x8024_d36a,
        0x801c_b23a,
        &MOVED_SECTION_WORDS,
    )
}

/// The texts `moved_heading_words` of the specification.
static MOVED_HEADING_WORDS: [[u8; 9]; 44] = [
    *b"t________",
    *b"tp_______",
    *b"twp______",
    *b"twsp_____",
    *b"township_",
    *b"r________",
    *b"rg_______",
    *b"rge______",
    *b"rng______",
    *b"range____",
    *b"n________",
    *b"nr_______",
    *b"s________",
    *b"e________",
    *b"w________",
    *b"north____",
    *b"south____",
    *b"east_____",
    *b"west_____",
    *b"said_____",
    *b"same_____",
    *b"all______",
    *b"in_______",
    *b"of_______",
    *b"the______",
    *b"and______",
    *b"numbered_",
    *b"no_______",
    *b"twn______",
    *b"townsbip_",
    *b"townsliip",
    *b"towuship_",
    *b"townahip_",
    *b"townshlp_",
    *b"townehip_",
    *b"tewnship_",
    *b"twonship_",
    *b"twnship__",
    *b"rauge____",
    *b"rangc____",
    *b"ronge____",
    *b"situated_",
    *b"situate__",
    *b"located__",
];

/// Whether a word is one of them.
pub(crate) fn is_in_moved_heading_words(word: &[u8]) -> bool
    ensures { result ≡ is_one_of word.now moved_heading_words }
{
    is_one_of(
        word,
        0x009c_d222,
        0x80a5_d3e2,
        0x80bd_f2b8,
        &MOVED_HEADING_WORDS,
    )
}

/// The texts `section_names` of the specification.
static SECTION_NAMES: [[u8; 10]; 30] = [
    *b"sec_______",
    *b"secs______",
    *b"sect______",
    *b"sects_____",
    *b"section___",
    *b"sections__",
    *b"scc_______",
    *b"sce_______",
    *b"seo_______",
    *b"see_______",
    *b"ec________",
    *b"ection____",
    *b"sn________",
    *b"secton____",
    *b"sectlon___",
    *b"sectoin___",
    *b"seciton___",
    *b"sectiou___",
    *b"seclion___",
    *b"seotion___",
    *b"sectior___",
    *b"tion______",
    *b"frstdivno_",
    *b"frstdivlab",
    *b"scction___",
    *b"seetion___",
    *b"secfion___",
    *b"sectian___",
    *b"sectien___",
    *b"soction___",
];

/// Whether a word is one of them.
pub(crate) fn is_in_section_names(word: &[u8]) -> bool
    ensures { result ≡ is_one_of word.now section_names }
{
    is_one_of(word, 0x0018_0060, 0x0004_c228, 0x8018_8028, &SECTION_NAMES)
}

/// The texts `list_words` of the specification.
static LIST_WORDS: [[u8; 9]; 16] = [
    *b"and______",
    *b"or_______",
    *b"thru_____",
    *b"through__",
    *b"to_______",
    *b"numbered_",
    *b"no_______",
    *b"nos______",
    *b"inclusive",
    *b"incl_____",
    *b"all______",
    *b"entire___",
    *b"being____",
    *b"both_____",
    *b"each_____",
    *b"the______",
];

/// Whether a word is one of them.
pub(crate) fn is_in_list_words(word: &[u8]) -> bool
    ensures { result ≡ is_one_of word.now list_words }
{
    is_one_of(word, 0x0010_c226, 0x0024_d122, 0x801c_3238, &LIST_WORDS)
}

/// Whether a byte is one of the texts `letter_marks` of the specification.
pub(crate) fn is_in_letter_marks(byte: u8) -> bool
    ensures { result ≡ is_one_of (byte ∷ []) letter_marks }
{
    matches!(byte, b'.' | b':')
}

/// Whether a byte is one of the texts `location_marks` of the specification.
pub(crate) fn is_in_location_marks(byte: u8) -> bool
    ensures { result ≡ is_one_of (byte ∷ []) location_marks }
{
    matches!(byte, b',' | b'.' | b'-' | b'|' | b'/')
}

/// The texts `township_words` of the specification.
static TOWNSHIP_WORDS: [[u8; 8]; 5] = [
    *b"in______",
    *b"t_______",
    *b"tp______",
    *b"twp_____",
    *b"township",
];

/// Whether a word is one of them.
pub(crate) fn is_in_township_words(word: &[u8]) -> bool
    ensures { result ≡ is_one_of word.now township_words }
{
    is_one_of(word, 0x0010_0200, 0x8081_c000, 0x8081_0000, &TOWNSHIP_WORDS)
}

/// Whether a word is one of the texts `tier_words` of the specification.
pub(crate) fn is_in_tier_words(word: &[u8]) -> bool
    ensures { result ≡ is_one_of word.now tier_words }
{
    is_text(word, b"t")
}

/// Whether a word is one of the texts `range_words` of the specification.
pub(crate) fn is_in_range_words(word: &[u8]) -> bool
    ensures { result ≡ is_one_of word.now range_words }
{
    is_text(word, b"r")
}
