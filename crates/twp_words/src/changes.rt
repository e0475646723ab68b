// Made by tools/words.py from words.tsv and classes.tsv. To change a word, change its row there.
//! Words that change which land is meant: corrections, doubts, parts of it, sizes, and what is reserved or
//! granted with it.

use crate::same::is_among;

/// Words that say that land is no longer meant, that other land or a part of it is meant, or that this is
/// uncertain: no remark, label, or term contains them.
pub fn alters_land(word: &[u8]) -> bool {
    match word.len() {
        2 => is_among(word, 0x80000_00400000, "vs"),
        3 => is_among(
            word,
            0x151612_000410be,
            "alt api bad bal cxl del err gap lla rej",
        ),
        4 => is_among(
            word,
            0x3dd038_0459b8da,
            "abbr addl canc corr dump frac gore keep lieu lost most oops prtn sans swap \
             true typo void zero",
        ),
        5 => is_among(
            word,
            0x1c2060_0098eaee,
            "abuts brief carve error false guess inter keeps meant minus neblm nwblm omits \
             seblm split swblm trade wedge",
        ),
        6 => is_among(
            word,
            0x25e18b2_005cd27e,
            "abbrev beside cancel carved circle cutout defect delete either errata exempt \
             facing failed ignore likely nearby outlot rather reduce relinq replat resold \
             splits strike struck taking traded verify versus voided",
        ),
        7 => is_among(
            word,
            0x21d18b0_00fdf27c,
            "balance becomes besides borders claimed deleted divided expired failure \
             feedlot invalid lengthy missing nearest neither outsale overlap perhaps \
             platted reduced release removal residue revoked roughly setback severed \
             swapped takings unclear updated vacancy without",
        ),
        8 => is_among(
            word,
            0x29c40b0_00dde17a,
            "accreted amending canceled carveout conflict deletion disposed disputed \
             divested envelope exchange expunged farmyard fraction homesite majority \
             mistaken neighbor opposite outsales platting possibly probably rejected \
             released replaced replaces resurvey reverted servient touching vacation \
             vicinity withdrew",
        ),
        9 => is_among(
            word,
            0xc50b0_003dc37a,
            "abandoned alternate cancelled contested cornering corrected dedicated \
             deletions disposals disregard duplicate exchanged farmstead forfeited \
             homesites inholding irregular neighbors nonleased omissions outparcel \
             partition reduction replacing rescinded somewhere streambed submerged \
             truncated uncertain",
        ),
        10 => is_among(
            word,
            0x21c50b0_00bc827a,
            "adjustment contiguous correcting correction dedication disclaimed duplicates \
             eliminated everything foreclosed incomplete ineligible inholdings originally \
             reconveyed rescission subdivided triangular unreadable unsurveyed withdrawal",
        ),
        11 => is_among(
            word,
            0x2180030_002d003a,
            "abbreviated alternative corrections divestiture erroneously partitioned \
             replacement surrendered unavailable uncommitted",
        ),
        12 => is_among(
            word,
            0x4010_00040008,
            "cancellation condemnation relinquished",
        ),
        13 => is_among(word, 0x20_00008000, "outconveyance"),
        14 => is_among(word, 0x100000_00040000, "relinquishment"),
        _ => false,
    }
}

/// Words for sizes, places, and parts, and words that say that the text continues: no remark after land
/// contains them, and no limit on depths.
pub fn limits_land(word: &[u8]) -> bool {
    match word.len() {
        2 => is_among(word, 0x1040000_00140040, "fr rr tx"),
        3 => is_among(
            word,
            0x3d991d6_000de37c,
            "bds beg bla cos cut div est exh fix hwy itd map mid mts new nso off pcl pud \
             rds sub",
        ),
        4 => is_among(
            word,
            0x1470ae_00953152,
            "area desc farm full home long mete plat prtn rear toge tpob txlt wide",
        ),
        5 => is_among(
            word,
            0x1cd200_001d305e,
            "after begin cabin calls condo descr draft front legal links metes pivot portn \
             right sales secti toget towns twnst",
        ),
        6 => is_among(
            word,
            0x298d1b0_005eb0ee,
            "around before burial cancel change errors farmed fenced gravel lapsed meadow \
             meters middle mining option outlot quarry radius revise sectio slough staked \
             street strips taxlot togeth townsh tracks tracts villas",
        ),
        7 => is_among(
            word,
            0x1c1230_003c31fe,
            "acreage bottoms central compare corners corrals dryland estates expired \
             feedlot grounds hatched lateral meander ranchos replace rescind streets \
             townshi twnsite uplands",
        ),
        8 => is_among(
            word,
            0xc4030_00dc8228,
            "cropland exchange included interior occupied orchards outlined riparian \
             surveyed tillable vineyard wetlands",
        ),
        9 => is_among(
            word,
            0x184030_000502be,
            "amendment buildings continues described drillsite elevation graveyard \
             inholders irrigated pumphouse ranchette",
        ),
        10 => is_among(word, 0x180010_000c0004, "bottomland ranchettes supplement"),
        11 => is_among(
            word,
            0x84020_00080018,
            "conveyances description schoolhouse",
        ),
        _ => false,
    }
}

/// Words for what may be reserved in all of the land.
pub fn is_of_estate(word: &[u8]) -> bool {
    match word.len() {
        3 => is_among(word, 0x81000_00008080, "gas oil"),
        4 => is_among(word, 0x81000_0000a008, "coal mins ores"),
        6 => is_among(word, 0x20_00000020, "estate"),
        7 => is_among(word, 0x2003000_00242000, "mineral royalty uranium"),
        8 => is_among(word, 0x80000_00002000, "minerals"),
        9 => is_among(word, 0x20_00010000, "phosphate"),
        10 => is_among(word, 0x1000_00000080, "geothermal"),
        11 => is_among(word, 0x20_00000040, "fissionable"),
        12 => is_among(word, 0x80000_00000100, "hydrocarbons"),
        _ => false,
    }
}

/// Words for what goes with land, and is no land.
pub fn is_of_appurtenance(word: &[u8]) -> bool {
    match word.len() {
        5 => is_among(word, 0x140800_008c0000, "right stock water"),
        6 => is_among(word, 0x80000_008c0020, "egress rights shares waters"),
        7 => is_among(word, 0x80000_00000210, "ditches ingress"),
        8 => is_among(word, 0x180000_00000060, "easement fixtures"),
        9 => is_among(word, 0x80000_00100024, "buildings easements tenements"),
        10 => is_among(word, 0x80000_00010000, "privileges"),
        11 => is_among(word, 0x100000_00000002, "appurtenant"),
        12 => is_among(word, 0x80020_00000202, "appurtenance improvements"),
        13 => is_among(word, 0x80000_00000102, "appurtenances hereditaments"),
        _ => false,
    }
}

/// The words of `according to the official plat of the Government survey thereof`.
pub fn is_of_survey(word: &[u8]) -> bool {
    match word.len() {
        1 => is_among(word, 0x285000_00285000, ", . s u"),
        2 => is_among(word, 0x208c040_00308204, "by in of on to us"),
        3 => is_among(word, 0x2020_00100004, "blm the"),
        4 => is_among(word, 0x100030_000910c0, "file govt land plat said"),
        5 => is_among(word, 0x80010_00011040, "filed lands plats"),
        6 => is_among(word, 0x2080030_00288000, "office states survey united"),
        7 => is_among(word, 0x5040_00100080, "general therein thereof"),
        8 => is_among(
            word,
            0x41010_000c8002,
            "approved official original recorded returned surveyor",
        ),
        9 => is_among(word, 0x100080_00000012, "according dependent"),
        10 => is_among(word, 0x100000_00000080, "government"),
        _ => false,
    }
}

/// Words for a place in land: what is reserved or granted there is land.
pub fn is_site(word: &[u8]) -> bool {
    match word.len() {
        2 => is_among(word, 0x40000_00040000, "rr"),
        3 => is_among(word, 0x100010_00010004, "bed pit"),
        4 => is_among(
            word,
            0x103130_00253140,
            "farm hill home lake mill much plot road unit",
        ),
        5 => is_among(
            word,
            0xc5930_00050058,
            "cabin canal creek ditch field place river roads",
        ),
        6 => is_among(
            word,
            0x2901110_000a208c,
            "burial church ground meadow quarry street",
        ),
        7 => is_among(
            word,
            0x2080020_000c010a,
            "acreage corrals highway railway streets",
        ),
        8 => is_among(word, 0x30_00040100, "homesite railroad"),
        9 => is_among(word, 0x30_00000090, "drillsite graveyard"),
        10 => is_among(word, 0x10_00080000, "schoolyard"),
        11 => is_among(word, 0x20_00080000, "schoolhouse"),
        _ => false,
    }
}

/// Words that name land, other than a right.
pub fn is_land_by_name(word: &[u8]) -> bool {
    match word.len() {
        3 => is_among(word, 0x10_00000004, "bed"),
        4 => is_among(word, 0x3000_00002040, "farm mill"),
        5 => is_among(word, 0x80030_00011040, "field lands place"),
        6 => is_among(
            word,
            0x2980090_001a2080,
            "ground meadow mining quarry street tracts",
        ),
        7 => is_among(word, 0x20_00000002, "acreage"),
        8 => is_among(word, 0x2000000_00010000, "property"),
        9 => is_among(word, 0x40000_00040000, "reservoir"),
        _ => false,
    }
}
