//! What meridians, counties, and states end with, and what they begin with.
ghost use Rattle.std.specs.Prelude.{◌≡◌};
ghost use Rattle.twp_rules.specs.Edges.{begins_with_one, ends_with_one};
ghost use Rattle.twp_rules.specs.Endings.{meridian_ends, meridian_fronts, meridian_labels, more_states};
ghost use Rattle.twp_rules.specs.Endings.{state_letters, states};

use crate::rows::{begins_with_one, ends_with_one};

/// The texts `meridian_ends` of the specification.
static MERIDIAN_ENDS: [[u8; 10]; 14] = [
    *b"__meridian",
    *b"___meridan",
    *b"_______mer",
    *b"______mer.",
    *b"_________m",
    *b"________m.",
    *b"____county",
    *b"________co",
    *b"_______co.",
    *b"_________|",
    *b"_____boise",
    *b"willamette",
    *b"__humboldt",
    *b"____uintah",
];

/// Whether a text ends with one of them.
pub(crate) fn has_meridian_ends(seen: &[u8]) -> bool
    ensures { result ≡ ends_with_one seen.now meridian_ends }
{
    ends_with_one(seen, 0x1214_e120, &MERIDIAN_ENDS)
}

/// The texts `meridian_fronts` of the specification.
static MERIDIAN_FRONTS: [[u8; 16]; 3] = [
    *b"county of_______",
    *b"state of________",
    *b"in the county of",
];

/// Whether a text begins with one of them.
pub(crate) fn has_meridian_fronts(seen: &[u8]) -> bool
    ensures { result ≡ begins_with_one seen.now meridian_fronts }
{
    begins_with_one(seen, 0x0008_0208, &MERIDIAN_FRONTS)
}

/// The texts `meridian_labels` of the specification.
static MERIDIAN_LABELS: [[u8; 9]; 5] = [
    *b"meridian:",
    *b"mer:_____",
    *b"county:__",
    *b"state:___",
    *b"st:______",
];

/// Whether a text begins with one of them.
pub(crate) fn has_meridian_labels(seen: &[u8]) -> bool
    ensures { result ≡ begins_with_one seen.now meridian_labels }
{
    begins_with_one(seen, 0x0008_2008, &MERIDIAN_LABELS)
}

/// The texts `states` of the specification.
static STATES: [[u8; 11]; 24] = [
    *b"______idaho",
    *b"____wyoming",
    *b"_____nevada",
    *b"_california",
    *b"_______utah",
    *b"____montana",
    *b"_____oregon",
    *b"___colorado",
    *b"_____mexico",
    *b"____arizona",
    *b"_____dakota",
    *b"_____alaska",
    *b"_washington",
    *b"____alabama",
    *b"___arkansas",
    *b"____florida",
    *b"___illinois",
    *b"____indiana",
    *b"_______iowa",
    *b"__louisiana",
    *b"mississippi",
    *b"___missouri",
    *b"_______ohio",
    *b"__wisconsin",
];

/// Whether a text ends with one of them.
pub(crate) fn has_states(seen: &[u8]) -> bool
    ensures { result ≡ ends_with_one seen.now states }
{
    ends_with_one(seen, 0x0008_c382, &STATES)
}

/// The texts `more_states` of the specification.
static MORE_STATES: [[u8; 9]; 22] = [
    *b"_nebraska",
    *b"___kansas",
    *b"_oklahoma",
    *b"minnesota",
    *b"_michigan",
    *b"_____nebr",
    *b"_____kans",
    *b"_____okla",
    *b"_____minn",
    *b"______wyo",
    *b"_____colo",
    *b"_____mont",
    *b"_____ariz",
    *b"____calif",
    *b"______nev",
    *b"______ala",
    *b"______ark",
    *b"______fla",
    *b"______kan",
    *b"_____mich",
    *b"_____oreg",
    *b"______wis",
];

/// Whether a text ends with one of them.
pub(crate) fn has_more_states(seen: &[u8]) -> bool
    ensures { result ≡ ends_with_one seen.now more_states }
{
    ends_with_one(seen, 0x045c_c9c2, &MORE_STATES)
}

/// The texts `state_letters` of the specification.
static STATE_LETTERS: [[u8; 2]; 19] = [
    *b"id", *b"wy", *b"nv", *b"ca", *b"ut", *b"mt", *b"co", *b"nm", *b"az", *b"nd", *b"sd", *b"ak",
    *b"ar", *b"fl", *b"ia", *b"ks", *b"mn", *b"ok", *b"wa",
];

/// Whether a text ends with one of them.
pub(crate) fn has_state_letters(seen: &[u8]) -> bool
    ensures { result ≡ ends_with_one seen.now state_letters }
{
    ends_with_one(seen, 0x065c_f812, &STATE_LETTERS)
}
