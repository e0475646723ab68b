//! What acreage, labels, and what is said twice end with, and what they begin with.
ghost use Rattle.std.specs.Prelude.{◌≡◌};
ghost use Rattle.twp_rules.specs.Edges.{begins_with_one, ends_with_one};
ghost use Rattle.twp_rules.specs.Endings.{acreage_ends, acreage_fronts, being_fronts, depths, less_ends, records, reservations};
ghost use Rattle.twp_rules.specs.Endings.{estates, interest_fronts, number_fronts, parenthesis_ends};
ghost use Rattle.twp_rules.specs.Endings.{property_fronts, rights, terms, title_ends, title_fronts};

use crate::rows::{begins_with_one, ends_with_one};

/// The texts `acreage_ends` of the specification.
static ACREAGE_ENDS: [[u8; 6]; 16] = [
    *b"_acres", *b"__acre", *b"____ac", *b"acres.", *b"___ac.", *b"__less", *b"___m/l", *b"_____)",
    *b"pooled", *b"_total", *b"___net", *b"_gross", *b"____/-", *b"___acs", *b"__acs.", *b"_____]",
];

/// Whether a text ends with one of them.
pub(crate) fn has_acreage_ends(seen: &[u8]) -> bool
    ensures { result ≡ ends_with_one seen.now acreage_ends }
{
    ends_with_one(seen, 0x2018_7238, &ACREAGE_ENDS)
}

/// The texts `acreage_fronts` of the specification.
static ACREAGE_FRONTS: [[u8; 14]; 21] = [
    *b"acres_________",
    *b"acreage_______",
    *b"ac____________",
    *b"gross_________",
    *b"net___________",
    *b"total_________",
    *b"containing____",
    *b"the area______",
    *b"gr ac_________",
    *b"gr. ac________",
    *b"in all________",
    *b"case acres____",
    *b"unit acres____",
    *b"lease acres___",
    *b"gis acres_____",
    *b"calc acres____",
    *b"legal acres___",
    *b"leased acres__",
    *b"parcel acres__",
    *b"assessed acres",
    *b"deeded acres__",
];

/// Whether a text begins with one of them.
pub(crate) fn has_acreage_fronts(seen: &[u8]) -> bool
    ensures { result ≡ begins_with_one seen.now acreage_fronts }
{
    begins_with_one(seen, 0x0031_529a, &ACREAGE_FRONTS)
}

/// The texts `parenthesis_ends` of the specification.
static PARENTHESIS_ENDS: [[u8; 1]; 2] = [*b")", *b"]"];

/// Whether a text ends with one of them.
pub(crate) fn has_parenthesis_ends(seen: &[u8]) -> bool
    ensures { result ≡ ends_with_one seen.now parenthesis_ends }
{
    ends_with_one(seen, 0x2000_0200, &PARENTHESIS_ENDS)
}

/// The texts `being_fronts` of the specification.
static BEING_FRONTS: [[u8; 17]; 5] = [
    *b"being____________",
    *b"aka______________",
    *b"a/_______________",
    *b"also known as____",
    *b"also described as",
];

/// Whether a text begins with one of them.
pub(crate) fn has_being_fronts(seen: &[u8]) -> bool
    ensures { result ≡ begins_with_one seen.now being_fronts }
{
    begins_with_one(seen, 0x0000_0006, &BEING_FRONTS)
}

/// The texts `less_ends` of the specification.
static LESS_ENDS: [[u8; 8]; 4] = [*b"_or less", *b"or less)", *b"or less]", *b"or less."];

/// Whether a text ends with one of them.
pub(crate) fn has_less_ends(seen: &[u8]) -> bool
    ensures { result ≡ ends_with_one seen.now less_ends }
{
    ends_with_one(seen, 0x2008_4200, &LESS_ENDS)
}

/// The texts `rights` of the specification.
static RIGHTS: [[u8; 13]; 2] = [*b"subj_________", *b"together with"];

/// Whether a text begins with one of them.
pub(crate) fn has_rights(seen: &[u8]) -> bool
    ensures { result ≡ begins_with_one seen.now rights }
{
    begins_with_one(seen, 0x0018_0000, &RIGHTS)
}

/// The texts `records` of the specification.
static RECORDS: [[u8; 15]; 4] = [
    *b"according______",
    *b"attached to____",
    *b"as shown_______",
    *b"in the district",
];

/// Whether a text begins with one of them.
pub(crate) fn has_records(seen: &[u8]) -> bool
    ensures { result ≡ begins_with_one seen.now records }
{
    begins_with_one(seen, 0x0000_0202, &RECORDS)
}

/// The texts `reservations` of the specification.
static RESERVATIONS: [[u8; 13]; 3] = [*b"reserving____", *b"excepting and", *b"grantor______"];

/// Whether a text begins with one of them.
pub(crate) fn has_reservations(seen: &[u8]) -> bool
    ensures { result ≡ begins_with_one seen.now reservations }
{
    begins_with_one(seen, 0x0004_00a0, &RESERVATIONS)
}

/// The texts `terms` of the specification.
static TERMS: [[u8; 7]; 3] = [*b"insofar", *b"limited", *b"as to__"];

/// Whether a text begins with one of them.
pub(crate) fn has_terms(seen: &[u8]) -> bool
    ensures { result ≡ begins_with_one seen.now terms }
{
    begins_with_one(seen, 0x0000_1202, &TERMS)
}

/// The texts `depths` of the specification.
static DEPTHS: [[u8; 10]; 5] = [
    *b"from the__",
    *b"below_____",
    *b"above_____",
    *b"down to___",
    *b"all depths",
];

/// Whether a text begins with one of them.
pub(crate) fn has_depths(seen: &[u8]) -> bool
    ensures { result ≡ begins_with_one seen.now depths }
{
    begins_with_one(seen, 0x0000_0056, &DEPTHS)
}

/// The texts `estates` of the specification.
static ESTATES: [[u8; 9]; 6] = [
    *b"depths___",
    *b"surface__",
    *b"from surf",
    *b"mineral__",
    *b"oil______",
    *b"only_____",
];

/// Whether a text begins with one of them.
pub(crate) fn has_estates(seen: &[u8]) -> bool
    ensures { result ≡ begins_with_one seen.now estates }
{
    begins_with_one(seen, 0x0008_a050, &ESTATES)
}

/// The texts `title_fronts` of the specification.
static TITLE_FRONTS: [[u8; 31]; 25] = [
    *b"e.o.___________________________",
    *b"w.d.___________________________",
    *b"point of diversion_____________",
    *b"formerly lease_________________",
    *b"tax deed_______________________",
    *b"survey type____________________",
    *b"survey number__________________",
    *b"part of that certain oil_______",
    *b"part of that certain lease_____",
    *b"part of that certain paid______",
    *b"part of that certain memorandum",
    *b"part of that certain assignment",
    *b"part of the oil and gas lease__",
    *b"s-t-r__________________________",
    *b"w/min__________________________",
    *b"w/o min________________________",
    *b"tax code_______________________",
    *b"tax roll_______________________",
    *b"tax district___________________",
    *b"tax id_________________________",
    *b"tax acct_______________________",
    *b"tax account____________________",
    *b"tax year_______________________",
    *b"tax sale_______________________",
    *b"tax cert_______________________",
];

/// Whether a text begins with one of them.
pub(crate) fn has_title_fronts(seen: &[u8]) -> bool
    ensures { result ≡ begins_with_one seen.now title_fronts }
{
    begins_with_one(seen, 0x0099_0060, &TITLE_FRONTS)
}

/// The texts `title_ends` of the specification.
static TITLE_ENDS: [[u8; 14]; 12] = [
    *b"___________u.s",
    *b"__________u. s",
    *b"___________h.e",
    *b"__________h. e",
    *b"_________d.l.e",
    *b"___________c.e",
    *b"___________d.e",
    *b"__placer claim",
    *b"_placer claims",
    *b"by and between",
    *b"______per acre",
    *b"________per ac",
];

/// Whether a text ends with one of them.
pub(crate) fn has_title_ends(seen: &[u8]) -> bool
    ensures { result ≡ ends_with_one seen.now title_ends }
{
    ends_with_one(seen, 0x0008_6028, &TITLE_ENDS)
}

/// The texts `number_fronts` of the specification.
static NUMBER_FRONTS: [[u8; 5]; 4] = [*b"lease", *b"rp___", *b"pin__", *b"apn__"];

/// Whether a text begins with one of them.
pub(crate) fn has_number_fronts(seen: &[u8]) -> bool
    ensures { result ≡ begins_with_one seen.now number_fronts }
{
    begins_with_one(seen, 0x0005_1002, &NUMBER_FRONTS)
}

/// The texts `interest_fronts` of the specification.
static INTEREST_FRONTS: [[u8; 13]; 24] = [
    *b"an und_______",
    *b"und__________",
    *b"one-half_____",
    *b"one half_____",
    *b"all the right",
    *b"all right____",
    *b"decedent_____",
    *b"the decedent_",
    *b"grantor______",
    *b"lessor_______",
    *b"seller_______",
    *b"his__________",
    *b"her__________",
    *b"their________",
    *b"our__________",
    *b"my___________",
    *b"one-third____",
    *b"one third____",
    *b"one-fourth___",
    *b"one fourth___",
    *b"one quarter__",
    *b"one-quarter__",
    *b"a one________",
    *b"an one_______",
];

/// Whether a text begins with one of them.
pub(crate) fn has_interest_fronts(seen: &[u8]) -> bool
    ensures { result ≡ begins_with_one seen.now interest_fronts }
{
    begins_with_one(seen, 0x0038_b192, &INTEREST_FRONTS)
}

/// The texts `property_fronts` of the specification.
static PROPERTY_FRONTS: [[u8; 15]; 5] = [
    *b"all that_______",
    *b"that certain___",
    *b"all those______",
    *b"the lands______",
    *b"lands remaining",
];

/// Whether a text begins with one of them.
pub(crate) fn has_property_fronts(seen: &[u8]) -> bool
    ensures { result ≡ begins_with_one seen.now property_fronts }
{
    begins_with_one(seen, 0x0010_1002, &PROPERTY_FRONTS)
}
