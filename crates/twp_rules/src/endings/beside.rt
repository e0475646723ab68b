//! What is beside words of an exception, numbers in words, and hyphens; and meridians of letters alone.
ghost use Rattle.std.specs.Prelude.{◌≡◌};
ghost use Rattle.twp_rules.specs.Edges.{begins_with_one, ends_with_one, is_one_of};
ghost use Rattle.twp_rules.specs.Endings.{all_but, before_articles, but_what, dash_marks, first_exceptions, land_joints, meridian_letters};
ghost use Rattle.twp_rules.specs.Endings.{section_joints, tens_ends, words_apart};

use crate::rows::{begins_with_one, ends_with_one, is_one_of};

/// The texts `tens_ends` of the specification.
static TENS_ENDS: [[u8; 1]; 2] = [*b"-", *b" "];

/// Whether a text ends with one of them.
pub(crate) fn has_tens_ends(seen: &[u8]) -> bool
    ensures { result ≡ ends_with_one seen.now tens_ends }
{
    ends_with_one(seen, 0x0000_2001, &TENS_ENDS)
}

/// The texts `meridian_letters` of the specification.
static MERIDIAN_LETTERS: [[u8; 21]; 14] = [
    *b"w. m.________________",
    *b"w.m._________________",
    *b"w m__________________",
    *b"n.m.p.m._____________",
    *b"n.m.p.m______________",
    *b"n. m. p. m.__________",
    *b"s.l.m._______________",
    *b"s.l.b.m._____________",
    *b"s.l.b.&m.____________",
    *b"s.b.m._______________",
    *b"north dakota_________",
    *b"south dakota_________",
    *b"state of north dakota",
    *b"state of south dakota",
];

/// Whether a text is one of them.
pub(crate) fn is_in_meridian_letters(seen: &[u8]) -> bool
    ensures { result ≡ is_one_of seen.now meridian_letters }
{
    is_one_of(
        seen,
        0x0088_4000,
        0x0010_c001,
        0x0024_3007,
        &MERIDIAN_LETTERS,
    )
}

/// The texts `but_what` of the specification.
static BUT_WHAT: [[u8; 9]; 4] = [*b"not______", *b"excluding", *b"except___", *b"exclusive"];

/// Whether a text begins with one of them.
pub(crate) fn has_but_what(seen: &[u8]) -> bool
    ensures { result ≡ begins_with_one seen.now but_what }
{
    begins_with_one(seen, 0x0000_4020, &BUT_WHAT)
}

/// The texts `all_but` of the specification.
static ALL_BUT: [[u8; 11]; 2] = [*b"_______all ", *b"everything "];

/// Whether a text ends with one of them.
pub(crate) fn has_all_but(seen: &[u8]) -> bool
    ensures { result ≡ ends_with_one seen.now all_but }
{
    ends_with_one(seen, 0x0000_0001, &ALL_BUT)
}

/// The texts `first_exceptions` of the specification.
static FIRST_EXCEPTIONS: [[u8; 9]; 9] = [
    *b"less and ",
    *b"save and ",
    *b"__less & ",
    *b"__save & ",
    *b"with the ",
    *b"_____but ",
    *b"____less ",
    *b"____save ",
    *b"___save, ",
];

/// Whether a text ends with one of them.
pub(crate) fn has_first_exceptions(seen: &[u8]) -> bool
    ensures { result ≡ ends_with_one seen.now first_exceptions }
{
    ends_with_one(seen, 0x0000_0001, &FIRST_EXCEPTIONS)
}

/// The texts `dash_marks` of the specification.
static DASH_MARKS: [[u8; 3]; 3] = [*b"-__", *b"\xE2\x80\x93", *b"\xE2\x80\x94"];

/// Whether a text is one of them.
pub(crate) fn is_in_dash_marks(seen: &[u8]) -> bool
    ensures { result ≡ is_one_of seen.now dash_marks }
{
    is_one_of(seen, 0x0000_2004, 0x8000_0001, 0x8018_0000, &DASH_MARKS)
}

/// Whether a text begins with one of them.
pub(crate) fn has_dash_fronts(seen: &[u8]) -> bool
    ensures { result ≡ begins_with_one seen.now dash_marks }
{
    begins_with_one(seen, 0x0000_2004, &DASH_MARKS)
}

/// The texts `words_apart` of the specification.
static WORDS_APART: [[u8; 4]; 2] = [*b"and ", *b"_of "];

/// Whether a text ends with one of them.
pub(crate) fn has_words_apart(seen: &[u8]) -> bool
    ensures { result ≡ ends_with_one seen.now words_apart }
{
    ends_with_one(seen, 0x0000_0001, &WORDS_APART)
}

/// The texts `before_articles` of the specification.
static BEFORE_ARTICLES: [[u8; 4]; 4] = [*b"and ", *b"_of ", *b"and\n", *b"_of\n"];

/// Whether a text ends with one of them.
pub(crate) fn has_before_articles(seen: &[u8]) -> bool
    ensures { result ≡ ends_with_one seen.now before_articles }
{
    ends_with_one(seen, 0x0000_0401, &BEFORE_ARTICLES)
}

/// The texts `land_joints` of the specification.
static LAND_JOINTS: [[u8; 8]; 4] = [*b"____and ", *b"and the ", *b"______& ", *b"__& the "];

/// Whether a text ends with one of them.
pub(crate) fn has_land_joints(seen: &[u8]) -> bool
    ensures { result ≡ ends_with_one seen.now land_joints }
{
    ends_with_one(seen, 0x0000_0001, &LAND_JOINTS)
}

/// The texts `section_joints` of the specification.
static SECTION_JOINTS: [[u8; 12]; 6] = [
    *b"_of section ",
    *b"____of sec. ",
    *b"_____of sec ",
    *b"of sections ",
    *b"___of secs. ",
    *b"____of secs ",
];

/// Whether a text ends with one of them.
pub(crate) fn has_section_joints(seen: &[u8]) -> bool
    ensures { result ≡ ends_with_one seen.now section_joints }
{
    ends_with_one(seen, 0x0000_0001, &SECTION_JOINTS)
}
