//! The tables of the rules for parts of a section: halves, quarters, sides, and corners.
ghost use Rattle.std.specs.Prelude.{◌≡◌};
ghost use Rattle.twp_rules.specs.Rules.{is_among};
ghost use Rattle.twp_rules.specs.Tables.{damaged_corners, damages, directions, halves, quarter_abbreviations};
ghost use Rattle.twp_rules.specs.Tables.{quarters, worn_directions, worn_halves, worn_quarters};

use crate::rows::is_among;
use crate::same::is_entry;

/// Whether this is a row of the table `halves` of the specification: what it looks at, and what it writes.
pub(crate) fn is_in_halves(seen: &[u8], written: &[u8]) -> bool
    ensures { result ≡ is_among seen.now written.now halves }
{
    is_entry(seen, b"2", written, b"1/2")
        || is_entry(seen, b"/2", written, b"1/2")
        || is_entry(seen, b"half", written, b"1/2")
        || is_entry(seen, b"one-half", written, b"1/2")
        || is_entry(seen, b"one half", written, b"1/2")
        || is_entry(seen, b"1\xE2\x81\x842", written, b"1/2")
        || is_entry(seen, b"/ 2", written, b"1/2")
        || is_entry(seen, b"1-2", written, b"1/2")
        || is_entry(seen, b"h.", written, b"1/2")
        || is_entry(seen, b"\xC2\xB9\xE2\x81\x84\xE2\x82\x82", written, b"1/2")
}

/// The table `worn_halves` of the specification.
static WORN_HALVES: [[u8; 9]; 24] = [
    *b"l/2=1/2__",
    *b"i/2=1/2__",
    *b"'/2=1/2__",
    *b"\xE2\x80\x99/2=1/2",
    *b"]/2=1/2__",
    *b"!/2=1/2__",
    *b"|/2=1/2__",
    *b"1/=1/2___",
    *b"2/2=1/2__",
    *b"1/z=1/2__",
    *b"v2=1/2___",
    *b"y2=1/2___",
    *b"%=1/2____",
    *b"}=1/2____",
    *b"112=1/2__",
    *b"\xC2\xA3=1/2___",
    *b"\xC3\x82\xC2\xBD=1/2_",
    *b"haif=1/2_",
    *b"balf=1/2_",
    *b"lialf=1/2",
    *b"hali=1/2_",
    *b"hulf=1/2_",
    *b"holf=1/2_",
    *b"hall=1/2_",
];

/// Whether this is a row of it: what it looks at, and what it writes.
pub(crate) fn is_in_worn_halves(seen: &[u8], written: &[u8]) -> bool
    ensures { result ≡ is_among seen.now written.now worn_halves }
{
    is_among(
        seen,
        written,
        0x3246_13ae,
        0x2026_820f,
        0x2604_1206,
        &WORN_HALVES,
    )
}

/// Whether this is a row of the table `quarters` of the specification: what it looks at, and what it writes.
pub(crate) fn is_in_quarters(seen: &[u8], written: &[u8]) -> bool
    ensures { result ≡ is_among seen.now written.now quarters }
{
    is_entry(seen, b"", written, b"1/4")
        || is_entry(seen, b"4", written, b"1/4")
        || is_entry(seen, b"/4", written, b"1/4")
        || is_entry(seen, b"quarter", written, b"1/4")
        || is_entry(seen, b"one-quarter", written, b"1/4")
        || is_entry(seen, b"one quarter", written, b"1/4")
        || is_entry(seen, b"1\xE2\x81\x844", written, b"1/4")
        || is_entry(seen, b"/ 4", written, b"1/4")
        || is_entry(seen, b"1-4", written, b"1/4")
        || is_entry(seen, b"\xC2\xB9\xE2\x81\x84\xE2\x82\x84", written, b"1/4")
}

/// The table `quarter_abbreviations` of the specification.
static QUARTER_ABBREVIATIONS: [[u8; 9]; 6] = [
    *b"qr.=1/4__",
    *b".=1/4____",
    *b"qtr=1/4__",
    *b"qtr.=1/4_",
    *b"quar=1/4_",
    *b"quar.=1/4",
];

/// Whether this is a row of it: what it looks at, and what it writes.
pub(crate) fn is_in_quarter_abbreviations(seen: &[u8], written: &[u8]) -> bool
    ensures { result ≡ is_among seen.now written.now quarter_abbreviations }
{
    is_among(
        seen,
        written,
        0x0002_4000,
        0x2034_0000,
        0x2004_4002,
        &QUARTER_ABBREVIATIONS,
    )
}

/// The table `worn_quarters` of the specification.
static WORN_QUARTERS: [[u8; 13]; 40] = [
    *b"^=1/4________",
    *b"l/4=1/4______",
    *b"i/4=1/4______",
    *b"'/4=1/4______",
    *b"\xE2\x80\x99/4=1/4____",
    *b"]/4=1/4______",
    *b"!/4=1/4______",
    *b"|/4=1/4______",
    *b"1/=1/4_______",
    *b"v4=1/4_______",
    *b"y4=1/4_______",
    *b"%=1/4________",
    *b"quater=1/4___",
    *b"i=1/4________",
    *b"a=1/4________",
    *b"1a=1/4_______",
    *b"}=1/4________",
    *b"114=1/4______",
    *b"\xC2\xA3=1/4_______",
    *b"quar-\nter=1/4",
    *b"\xC3\x82\xC2\xBC=1/4_____",
    *b"'a=1/4_______",
    *b"!4=1/4_______",
    *b"^4=1/4_______",
    *b"j=1/4________",
    *b"quaiter=1/4__",
    *b"qnarter=1/4__",
    *b"quartcr=1/4__",
    *b"quarier=1/4__",
    *b"quarler=1/4__",
    *b"quartor=1/4__",
    *b"quartet=1/4__",
    *b"quarteb=1/4__",
    *b"quartev=1/4__",
    *b"quaitei=1/4__",
    *b"quarfer=1/4__",
    *b"quartar=1/4__",
    *b"qunrter=1/4__",
    *b"guarter=1/4__",
    *b"quorter=1/4__",
];

/// Whether this is a row of it: what it looks at, and what it writes.
pub(crate) fn is_in_worn_quarters(seen: &[u8], written: &[u8]) -> bool
    ensures { result ≡ is_among seen.now written.now worn_quarters }
{
    is_among(
        seen,
        written,
        0x7242_16ae,
        0x2032_c00f,
        0x2210_c006,
        &WORN_QUARTERS,
    )
}

/// The table `directions` of the specification.
static DIRECTIONS: [[u8; 13]; 14] = [
    *b"north=N______",
    *b"south=S______",
    *b"east=E_______",
    *b"west=W_______",
    *b"northeast=NE_",
    *b"northwest=NW_",
    *b"southeast=SE_",
    *b"southwest=SW_",
    *b"north east=NE",
    *b"north west=NW",
    *b"south east=SE",
    *b"south west=SW",
    *b"no.=N________",
    *b"so.=S________",
];

/// Whether this is a row of it: what it looks at, and what it writes.
pub(crate) fn is_in_directions(seen: &[u8], written: &[u8]) -> bool
    ensures { result ≡ is_among seen.now written.now directions }
{
    is_among(
        seen,
        written,
        0x0088_4020,
        0x0000_8022,
        0x002c_4000,
        &DIRECTIONS,
    )
}

/// The table `worn_directions` of the specification.
static WORN_DIRECTIONS: [[u8; 13]; 102] = [
    *b"nothwest=NW__",
    *b"norhwest=NW__",
    *b"nortwest=NW__",
    *b"northwset=NW_",
    *b"notheast=NE__",
    *b"norhteast=NE_",
    *b"norteast=NE__",
    *b"northeat=NE__",
    *b"sothwest=SW__",
    *b"souhwest=SW__",
    *b"soutwest=SW__",
    *b"sotheast=SE__",
    *b"souhteast=SE_",
    *b"souteast=SE__",
    *b"nortbeast=NE_",
    *b"nortlieast=NE",
    *b"northcast=NE_",
    *b"norlheast=NE_",
    *b"northeasl=NE_",
    *b"norrheast=NE_",
    *b"northeasr=NE_",
    *b"norfheast=NE_",
    *b"northeasf=NE_",
    *b"northeust=NE_",
    *b"northeaat=NE_",
    *b"noitheast=NE_",
    *b"novtheast=NE_",
    *b"nertheast=NE_",
    *b"ncrtheast=NE_",
    *b"uortheast=NE_",
    *b"mortheast=NE_",
    *b"nortneast=NE_",
    *b"northeaet=NE_",
    *b"nortbwest=NW_",
    *b"nortliwest=NW",
    *b"northwcst=NW_",
    *b"norlhwest=NW_",
    *b"northwesl=NW_",
    *b"norrhwest=NW_",
    *b"northwesr=NW_",
    *b"norfhwest=NW_",
    *b"northwesf=NW_",
    *b"northweat=NW_",
    *b"noithwest=NW_",
    *b"novthwest=NW_",
    *b"nerthwest=NW_",
    *b"ncrthwest=NW_",
    *b"northvest=NW_",
    *b"uorthwest=NW_",
    *b"morthwest=NW_",
    *b"nortnwest=NW_",
    *b"nertlwest=NW_",
    *b"northwert=NW_",
    *b"northwect=NW_",
    *b"soutbeast=SE_",
    *b"soutlieast=SE",
    *b"southcast=SE_",
    *b"soulheast=SE_",
    *b"southeasl=SE_",
    *b"sourheast=SE_",
    *b"southeasr=SE_",
    *b"soufheast=SE_",
    *b"southeasf=SE_",
    *b"southeust=SE_",
    *b"aoutheast=SE_",
    *b"southeaat=SE_",
    *b"sontheast=SE_",
    *b"seutheast=SE_",
    *b"scutheast=SE_",
    *b"soutneast=SE_",
    *b"southeaet=SE_",
    *b"soutbwest=SW_",
    *b"soutliwest=SW",
    *b"southwcst=SW_",
    *b"soulhwest=SW_",
    *b"southwesl=SW_",
    *b"sourhwest=SW_",
    *b"southwesr=SW_",
    *b"soufhwest=SW_",
    *b"southwesf=SW_",
    *b"aouthwest=SW_",
    *b"southweat=SW_",
    *b"sonthwest=SW_",
    *b"seuthwest=SW_",
    *b"scuthwest=SW_",
    *b"southvest=SW_",
    *b"soutnwest=SW_",
    *b"nortb=N______",
    *b"nortli=N_____",
    *b"norlh=N______",
    *b"soutb=S______",
    *b"soutli=S_____",
    *b"soulh=S______",
    *b"eaet=E_______",
    *b"eaat=E_______",
    *b"eust=E_______",
    *b"weat=W_______",
    *b"weet=W_______",
    *b"sonth=S______",
    *b"uorth=N______",
    *b"nortn=N______",
    *b"soutn=S______",
];

/// Whether this is a row of it: what it looks at, and what it writes.
pub(crate) fn is_in_worn_directions(seen: &[u8], written: &[u8]) -> bool
    ensures { result ≡ is_among seen.now written.now worn_directions }
{
    is_among(
        seen,
        written,
        0x00a8_6022,
        0x0020_802a,
        0x007c_4222,
        &WORN_DIRECTIONS,
    )
}

/// The table `damages` of the specification.
static DAMAGES: [[u8; 5]; 8] = [
    *b"l=1__", *b"i=1__", *b"o=0__", *b"ll=11", *b"li=11", *b"il=11", *b"lo=10", *b"io=10",
];

/// Whether this is a row of it: what it looks at, and what it writes.
pub(crate) fn is_in_damages(seen: &[u8], written: &[u8]) -> bool
    ensures { result ≡ is_among seen.now written.now damages }
{
    is_among(
        seen,
        written,
        0x0000_9200,
        0x2000_9200,
        0x2000_0000,
        &DAMAGES,
    )
}

/// The table `damaged_corners` of the specification.
static DAMAGED_CORNERS: [[u8; 3]; 2] = [*b"5=S", *b"8=S"];

/// Whether this is a row of it: what it looks at, and what it writes.
pub(crate) fn is_in_damaged_corners(seen: &[u8], written: &[u8]) -> bool
    ensures { result ≡ is_among seen.now written.now damaged_corners }
{
    is_among(
        seen,
        written,
        0x0120_0000,
        0x2000_0000,
        0x2000_0000,
        &DAMAGED_CORNERS,
    )
}
