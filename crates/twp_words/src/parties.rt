// Made by tools/words.py from words.tsv and classes.tsv. To change a word, change its row there.
//! Words for who has an interest, of exceptions, of time, and of parts of the land.

use crate::same::is_among;

/// Words for whose a right is.
pub fn is_whose(word: &[u8]) -> bool {
    match word.len() {
        2 => is_among(word, 0x2000000_00002000, "my"),
        3 => is_among(word, 0xc0000_00008100, "her his our"),
        5 => is_among(word, 0x40000_00100000, "their"),
        _ => false,
    }
}

/// Words for who has an interest.
pub fn is_owner(word: &[u8]) -> bool {
    match word.len() {
        6 => is_among(word, 0x40000_00081000, "lessor seller"),
        7 => is_among(word, 0xc0000_00001080, "grantor lessors"),
        8 => is_among(word, 0x180010_00000090, "deceased decedent grantors"),
        _ => false,
    }
}

/// Words that say of which kind acreage is.
pub fn is_net_or_gross(word: &[u8]) -> bool {
    match word.len() {
        2 => is_among(word, 0x40000_00000080, "gr"),
        3 => is_among(word, 0x100000_00004000, "net"),
        5 => is_among(word, 0x81000_00100080, "gross total"),
        6 => is_among(word, 0x10_00010000, "pooled"),
        7 => is_among(word, 0x1000_00002000, "mineral"),
        _ => false,
    }
}

/// Words that begin an exception.
pub fn begins_exception(word: &[u8]) -> bool {
    match word.len() {
        4 => is_among(word, 0x81020_00081020, "excl less save"),
        6 => is_among(word, 0x100000_00000020, "except"),
        9 => is_among(word, 0x4080_00000020, "excepting exception excluding"),
        _ => false,
    }
}

/// Words by which land is excepted.
pub fn excepts_land(word: &[u8]) -> bool {
    match word.len() {
        2 => is_among(word, 0x1080000_00001020, "ex ls"),
        3 => is_among(word, 0x8_00000020, "exc"),
        4 => is_among(word, 0x81020_00081020, "excl less save"),
        5 => is_among(word, 0x80000_00002000, "minus"),
        6 => is_among(word, 0x100000_00000020, "except"),
        9 => is_among(word, 0xa0_00000020, "excepting excluding exclusive"),
        _ => false,
    }
}

/// Words for years and months.
pub fn is_of_time(word: &[u8]) -> bool {
    match word.len() {
        2 => is_among(word, 0x48000_02002000, "mo yr"),
        3 => is_among(word, 0x80000_02000000, "yrs"),
        4 => is_among(word, 0x40000_02000000, "year"),
        5 => is_among(word, 0x80000_02000000, "years"),
        _ => false,
    }
}

/// Words with which parentheses begin that refer to something, or say what became of the land.
pub fn begins_reference(word: &[u8]) -> bool {
    match word.len() {
        2 => is_among(word, 0x800_00000004, "bk"),
        3 => is_among(word, 0x40028_000d0000, "per rec see"),
        4 => is_among(word, 0x100810_00004204, "book inst need"),
        5 => is_among(word, 0x80020_00104000, "needs title"),
        6 => is_among(word, 0x10_00000200, "issued"),
        7 => is_among(word, 0x80_00010000, "pending"),
        8 => is_among(word, 0x30_0001000a, "acquired curative patented"),
        9 => is_among(word, 0x1000_00000008, "custodial"),
        _ => false,
    }
}

/// Words before the number of a note or a paragraph, or a day of a month.
pub fn is_of_record(word: &[u8]) -> bool {
    match word.len() {
        3 => is_among(
            word,
            0x655518c_0049e6d2,
            "apr aug dec dry feb grz irr jan jul jun mar may mch nov oct par pat sep vol",
        ),
        4 => is_among(
            word,
            0x2113028_000d744a,
            "acct cert code crop form july june list misc note past roll sept",
        ),
        5 => is_among(word, 0x141120_0080a002, "allot april march order waste"),
        6 => is_among(word, 0x100000_00050002, "august patent report"),
        7 => is_among(word, 0x2140000_0000840a, "account comment january october"),
        8 => is_among(
            word,
            0x2142000_0000405a,
            "addendum contract december february november",
        ),
        9 => is_among(word, 0x140100_00090002, "agreement paragraph september"),
        11 => is_among(word, 0x4020_0000000a, "application certificate"),
        _ => false,
    }
}

/// The months.
pub fn is_month(word: &[u8]) -> bool {
    match word.len() {
        3 => is_among(
            word,
            0x255518c_0008e452,
            "apr aug dec feb jan jul jun mar may mch nov oct sep",
        ),
        4 => is_among(word, 0x2100020_00080400, "july june sept"),
        5 => is_among(word, 0x1100_00002002, "april march"),
        6 => is_among(word, 0x100000_00000002, "august"),
        7 => is_among(word, 0x2040000_00008400, "january october"),
        8 => is_among(word, 0x2040000_00004050, "december february november"),
        9 => is_among(word, 0x40000_00080000, "september"),
        _ => false,
    }
}

/// Words of parts of land, of what is taken out of it, and of corrections.
pub fn says_partial(word: &[u8]) -> bool {
    match word.len() {
        2 => is_among(word, 0xc1054_02112048, "cf ff ms pb tl tr yd"),
        3 => is_among(
            word,
            0x29df018_029dd372,
            "add dlc don ely exc fel fnl fsl fwl hes isn lss nil nly now out prt ptl pts \
             rem sct sic sly sur tbd too top was wly yds",
        ),
        4 => is_among(
            word,
            0x1968b0_0089eb1e,
            "aren back cont didn drop hasn idem kept more nope omit orig outs past same \
             sctn shld some subd wasn",
        ),
        5 => is_among(
            word,
            0x21cc1b0_02b9f176,
            "added apart bench ditto doesn exept forty fract haven house lower maybe meets \
             metes never owned piece short taken third under upper weren wrong yards",
        ),
        6 => is_among(
            word,
            0x21c60b0_003d303c,
            "beyond bottom cannot center deduct deeded denied eighty longer middle mostly \
             partly placer retain saving should sliver square thirds thirty twenty unsure",
        ),
        7 => is_among(
            word,
            0x1c01b0_004ca27a,
            "adjoins amended another correct dropped exclude further instead meaning \
             mistake omitted retains revised scratch vacated",
        ),
        8 => is_among(
            word,
            0x2087030_00bd903a,
            "actually canceled cemetery conveyed corrects deducted eastside excluded \
             excludes likewise original previous rejected retained stricken triangle \
             upstream westside withheld",
        ),
        9 => is_among(
            word,
            0x21840b0_0005022c,
            "bordering condemned continued erroneous exclusion illegible incorrect \
             partially rescinded",
        ),
        10 => is_among(
            word,
            0x2082010_00190030,
            "downstream exclusions previously protracted segregated superseded terminated",
        ),
        11 => is_among(word, 0x2004000_00080200, "incorrectly subdivision"),
        12 => is_among(word, 0x10_00002000, "misdescribed"),
        13 => is_among(word, 0x2000000_00000002, "alternatively"),
        _ => false,
    }
}
