// Made by tools/words.py from words.tsv and classes.tsv. To change a word, change its row there.
//! Words of labels before land, of instruments, and of columns.

use crate::same::is_among;

/// Words of labels, after which a label may end with a number.
pub fn is_of_label(word: &[u8]) -> bool {
    match word.len() {
        2 => is_among(word, 0x8000_00004000, "no"),
        3 => is_among(word, 0x900000_00040008, "cat row"),
        4 => is_among(word, 0x102020_00200248, "case file item unit"),
        5 => is_among(
            word,
            0x2180020_0018122a,
            "allot areas class entry image lease sheet tract",
        ),
        6 => is_among(word, 0x41000_00094000, "number parcel serial"),
        7 => is_among(word, 0x100020_00050020, "exhibit pasture receipt"),
        8 => is_among(word, 0x2180000_00010018, "category district premises"),
        9 => is_among(word, 0x100000_00000002, "allotment"),
        _ => false,
    }
}

/// Words for a tract, with which the label of one begins, as `Tract 2:` or `Tr. 2:`.
pub fn is_of_tract(word: &[u8]) -> bool {
    match word.len() {
        2 => is_among(word, 0x40000_00100000, "tr"),
        4 => is_among(word, 0x102000_00200200, "item unit"),
        5 => is_among(word, 0x100000_00100000, "tract"),
        6 => is_among(word, 0x1000_00010000, "parcel"),
        _ => false,
    }
}

/// Letters before the number of other land, as `TL1200` of a tax lot, or `MS-4411` of a mineral survey.
pub fn is_of_other_land(word: &[u8]) -> bool {
    match word.len() {
        2 => is_among(word, 0x10c1000_00102000, "ms tl tr tx"),
        3 => is_among(
            word,
            0x881206_000d310e,
            "api bla cos hes lla mss pcl ros row sub",
        ),
        4 => is_among(word, 0x100010_00090020, "esmt plat subd"),
        5 => is_among(word, 0x100000_00100000, "tract"),
        6 => is_among(word, 0x101000_00050000, "parcel replat"),
        _ => false,
    }
}

/// Words for instruments and where they are recorded, with which such a label begins, too.
pub fn is_instrument(word: &[u8]) -> bool {
    match word.len() {
        2 => is_among(word, 0x898_00832004, "bk md pg qc wd"),
        3 => is_among(
            word,
            0x1010d0_004ba086,
            "aff bsd gwd mtg ogl pat qcd swd vol",
        ),
        4 => is_among(word, 0x104830_00090216, "asgn book deed inst page spwd"),
        5 => is_among(word, 0x1c0000_00000212, "assgt deeds instr"),
        6 => is_among(word, 0x100000_00010000, "patent"),
        8 => is_among(word, 0x20_00002000, "mortgage"),
        9 => is_among(word, 0x2000_00020000, "quitclaim"),
        10 => is_among(word, 0x100000_00000200, "instrument"),
        _ => false,
    }
}

/// Words of a label after which the land of an instrument follows.
pub fn is_of_covering(word: &[u8]) -> bool {
    match word.len() {
        6 => is_among(word, 0x80000_00000008, "covers"),
        8 => is_among(word, 0x80_00000008, "covering"),
        9 => is_among(word, 0x80_00000020, "embracing"),
        10 => is_among(word, 0x80_00000010, "describing"),
        _ => false,
    }
}

/// The names of columns.
pub fn is_column(word: &[u8]) -> bool {
    match word.len() {
        1 => is_among(word, 0x1e0000_001e0000, "q r s t"),
        2 => is_among(word, 0x178a90_001f6204, "bk id mi no nr pg qq rg st tp tr"),
        3 => is_among(
            word,
            0x1d40aa_003f7232,
            "act doc exp int lot mer net nma pin qtr rec rge rng sec snr str trs twn twp \
             use",
        ),
        4 => is_among(
            word,
            0x21b2868_001b725e,
            "acct aliq book case cnty code date desc file inst line lots mgmt mtrs name \
             page qsec styp suff term type",
        ),
        5 => is_among(
            word,
            0x1c1038_005ed2c0,
            "field gross instr lease legal notes owner qqsec range state stype tract value",
        ),
        6 => is_among(
            word,
            0x24c5830_000dd00a,
            "action agency county lessee lessor number office parcel record remark serial \
             status subdiv survey",
        ),
        7 => is_among(
            word,
            0x21c4020_000c0082,
            "account acreage aliquot grantee grantor remarks royalty section surtype",
        ),
        8 => is_among(
            word,
            0x194010_00142212,
            "aliquots district interest meridian recorded township",
        ),
        10 => is_among(word, 0x100000_00000200, "instrument"),
        11 => is_among(word, 0x4000_00080010, "description subdivision"),
        _ => false,
    }
}

/// The names of fields of a record, before a colon.
pub fn is_field(word: &[u8]) -> bool {
    match word.len() {
        4 => is_among(word, 0x28_00100010, "desc type"),
        5 => is_among(word, 0x1000_00001000, "legal"),
        8 => is_among(word, 0x8000_00080000, "secdivno"),
        9 => is_among(
            word,
            0x18004_00180040,
            "frstdivno secdivlab secdivtyp twnshplab",
        ),
        10 => is_among(word, 0x4_00000040, "frstdivlab"),
        11 => is_among(word, 0x4000_00000010, "description"),
        _ => false,
    }
}

/// Words before the number of a township.
pub fn is_township_name(word: &[u8]) -> bool {
    match word.len() {
        1 => is_among(word, 0x100000_00100000, "t"),
        2 => is_among(word, 0x10000_00100000, "tp"),
        3 => is_among(word, 0x14000_00100000, "twn twp"),
        4 => is_among(word, 0x10000_00100000, "twsp"),
        7 => is_among(word, 0x10000_00100000, "twnship"),
        8 => is_among(
            word,
            0x10000_00100000,
            "tewnship townahip townehip townsbip township townshlp towuship twonship",
        ),
        9 => is_among(word, 0x10000_00100000, "townsliip"),
        _ => false,
    }
}

/// Words before the number of a range.
pub fn is_range_name(word: &[u8]) -> bool {
    match word.len() {
        1 => is_among(word, 0x40000_00040000, "r"),
        2 => is_among(word, 0x80_00040000, "rg"),
        3 => is_among(word, 0xa0_00040000, "rge rng"),
        5 => is_among(word, 0x28_00040000, "rangc range rauge ronge"),
        _ => false,
    }
}

/// Such words, besides the letters.
pub fn is_township_word(word: &[u8]) -> bool {
    match word.len() {
        2 => is_among(word, 0x10080_00140000, "rg tp"),
        3 => is_among(word, 0x100a0_00140000, "rge rng twp"),
        4 => is_among(word, 0x10000_00100000, "twsp"),
        5 => is_among(word, 0x28_00040000, "rangc range rauge ronge"),
        7 => is_among(word, 0x10000_00100000, "twnship"),
        8 => is_among(
            word,
            0x10000_00100000,
            "tewnship townahip townehip townsbip township townshlp towuship twonship",
        ),
        9 => is_among(word, 0x10000_00100000, "townsliip"),
        _ => false,
    }
}

/// The words of `public domain lands`.
pub fn is_of_domain(word: &[u8]) -> bool {
    match word.len() {
        4 => is_among(word, 0x10_00001000, "land"),
        5 => is_among(word, 0x80000_00001000, "lands"),
        6 => is_among(word, 0x4008_00010010, "domain public"),
        _ => false,
    }
}

/// Words in whose company a label may be of land, or limit it: no label has them.
pub fn is_beyond_label(word: &[u8]) -> bool {
    match word.len() {
        2 => is_among(word, 0x100040_00010242, "at ft if pt"),
        3 => is_among(
            word,
            0x39c181c_009dc16c,
            "bed bhl blk cor etc frl hes hwy not old pad pit pob pod por rod ros row shl \
             tax way",
        ),
        4 => is_among(
            word,
            0x21cc030_007dd16c,
            "base beds city edge esmt feet hole lake lode near none only over pads part \
             plat pond rest road rods site sold spud town typo used void",
        ),
        5 => is_among(
            word,
            0x9d39a0_001d903e,
            "about above along below block canal claim creek depth ditch error esmts lanes \
             lying other parts point ponds river roads sites strip tower trail",
        ),
        6 => is_among(
            word,
            0x31c50b0_009c925a,
            "access across approx canals claims corner delete depths fenced former inside \
             leased offset others remove spring survey thence towers tunnel within",
        ),
        7 => is_among(
            word,
            0x20851b0_007dd334,
            "balance between bounded deleted ditches estates heights highway islands \
             limited nothing omitted outside partial portion removed surface through \
             unknown village",
        ),
        8 => is_among(
            word,
            0x21c40b0_00b5317a,
            "abutting addition adjacent adjoiner crossing disputed easement excluded \
             excludes formerly headgate highways location minerals pipeline portions \
             proposed railroad released reserved reserves riverbed townsite trespass \
             unleased wellbore",
        ),
        9 => is_among(
            word,
            0xc40b0_00a5007e,
            "accretion adjoiners adjoining beginning cancelled corrected diversion \
             drillsite easements exclusive formation pipelines powerline remainder \
             remaining reserving reservoir unplatted withdrawn",
        ),
        10 => is_among(
            word,
            0x85090_0025006a,
            "accretions additional campground commencing correction exceptions fractional \
             powerlines ranchettes reservoirs unsurveyed",
        ),
        11 => is_among(
            word,
            0x4090_000d4000,
            "neighboring protraction reservation subdivision surrendered surrounding",
        ),
        12 => is_among(
            word,
            0x80010_00040008,
            "condominiums relinquished reservations",
        ),
        13 => is_among(word, 0x2000000_00000002, "approximately"),
        _ => false,
    }
}

/// Words for what lies in land: at the end of a label before land, such a word may say what is meant there.
pub fn is_feature(word: &[u8]) -> bool {
    match word.len() {
        3 => is_among(word, 0x2000_00000010, "dam"),
        4 => is_among(word, 0x5020_00003004, "barn line lode mill mine"),
        5 => is_among(word, 0x84020_00001108, "cabin house levee lodes"),
        6 => is_among(
            word,
            0x801130_0008220c,
            "bridge church island meadow school",
        ),
        7 => is_among(word, 0x10_00008000, "orchard"),
        8 => is_among(word, 0x2000020_00800008, "cemetery wellsite"),
        9 => is_among(word, 0x10_00000080, "graveyard"),
        10 => is_among(word, 0x4000_00080000, "substation"),
        _ => false,
    }
}

/// Words with which a label before land ends that is of a place in it, or of land that isn't meant.
pub fn is_doubtful_title(word: &[u8]) -> bool {
    match word.len() {
        2 => is_among(word, 0x80000_00000002, "as"),
        3 => is_among(word, 0x4800_00005000, "lek non"),
        4 => is_among(word, 0x111822_04950002, "area plot ramp tank well zone"),
        5 => is_among(
            word,
            0x1c0130_00192040,
            "fence field marsh patch pivot plant prior sales trade",
        ),
        6 => is_among(word, 0x4110_00188080, "ground option slough trough"),
        7 => is_among(word, 0x2184000_0088000c, "battery corrals station woodlot"),
        8 => is_among(
            word,
            0x191030_0080302a,
            "airstrip cropland exchange landfill monument wetlands windmill",
        ),
        9 => is_among(
            word,
            0x40030_00150200,
            "irrigated perimeter pumphouse residence trailhead",
        ),
        11 => is_among(
            word,
            0x84030_00180008,
            "cattleguard conveyances schoolhouse stipulation termination",
        ),
        _ => false,
    }
}

/// Words that begin other land than was named, as in `and the mill site`, and what no remark after land
/// begins with.
pub fn adds_land(word: &[u8]) -> bool {
    match word.len() {
        2 => is_among(word, 0x20cc040_00108206, "as by in of on or to"),
        3 => is_among(word, 0x400010_00000082, "and gov"),
        4 => is_among(
            word,
            0x18a520_008900c2,
            "also from govt plus site subj with",
        ),
        5 => is_among(word, 0x100000_00100000, "tract"),
        6 => is_among(word, 0x1000_00010000, "parcel"),
        7 => is_among(word, 0x140000_00080080, "grantor subject"),
        8 => is_among(word, 0x40000_00100000, "together"),
        9 => is_among(word, 0x80_00000202, "according including"),
        10 => is_among(word, 0x100000_00000080, "government"),
        _ => false,
    }
}

/// Words with which what is before land adds it to other land.
pub fn is_more(word: &[u8]) -> bool {
    match word.len() {
        2 => is_among(word, 0x40000_00008000, "or"),
        3 => is_among(word, 0x10_00000002, "and"),
        4 => is_among(word, 0x88000_00010002, "also plus"),
        _ => false,
    }
}

/// Words with which the name of a water ends.
pub fn is_of_water(word: &[u8]) -> bool {
    match word.len() {
        4 => is_among(word, 0x20_00001000, "lake"),
        5 => is_among(word, 0x41800_00040008, "canal creek river"),
        6 => is_among(word, 0x80_00080000, "spring"),
        _ => false,
    }
}
