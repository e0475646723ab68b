//! Section lines and lengths, as explanations show them.
ghost use Rattle.std.specs.Prelude.{◌≡◌};
ghost use Rattle.twp_plat.specs.Closing.{last_quarter};
ghost use Rattle.twp_sentences.specs.steps.HalfMiles.{half_mile_of};
ghost use Rattle.twp_sentences.specs.steps.Sides.{LiesOnSide};

use std::alloc::AllocError;
use twp_grid::{Line, Run, Section, Side, sides};
use twp_notes::{Returned, names_of};
use twp_plat::{HalfMile, QUARTER_MILE};

/// Appends the first fields of a line's record: its run and the sections beside it.
pub(crate) fn write_names(line: Line, out: &mut String) -> Result<(), AllocError> {
    let names = names_of(line);
    let run = match names.run {
        Run::North => "N",
        Run::West => "W",
    };
    write!(out, "{run},{},", names.section.number())?;
    match names.other {
        Some(other) => write!(out, "{}", other.number()),
        None => Ok(()),
    }
}

/// Appends where a line lies: between two sections, or on a side of one.
pub(crate) fn write_side(line: Line, out: &mut String) -> Result<(), AllocError> {
    let names = names_of(line);
    let section = names.section.number();
    match names.other {
        Some(other) => write!(out, "between sections {section} and {}", other.number()),
        None => {
            let side = side_name(side_of(line, names.section));
            write!(out, "on the {side} side of section {section}")
        }
    }
}

/// On which side of a section a line lies that is one of its sides.
fn side_of(line: Line, section: Section) -> Side
    ensures { LiesOnSide section line result }
{
    let [east, west, north, _] = sides(section);
    if line == east {
        Side::E
    } else if line == west {
        Side::W
    } else if line == north {
        Side::N
    } else {
        Side::S
    }
}

/// The name of a side.
fn side_name(side: Side) -> &'static str {
    match side {
        Side::N => "north",
        Side::S => "south",
        Side::E => "east",
        Side::W => "west",
    }
}

/// A half mile of a line, in thousandths of a chain: negative where the line's end is before its
/// quarter corner.
pub(crate) fn half_mile(returned: Returned, half: HalfMile) -> i64
    ensures { result ≡ half_mile_of half returned }
{
    let quarter = i64::from(returned.quarter.thousandths());
    match half {
        HalfMile::First => quarter,
        HalfMile::Second => i64::from(returned.corner.thousandths()) - quarter,
    }
}

/// What a line's second half mile has beyond a quarter mile, in thousandths of a chain.
pub(crate) fn last_quarter_mile(returned: Returned) -> i64
    ensures { result ≡ last_quarter returned }
{
    let quarter = i64::from(returned.quarter.thousandths());
    i64::from(returned.corner.thousandths()) - quarter - i64::from(QUARTER_MILE)
}

/// Appends thousandths of a chain as chains, with three decimals.
pub(crate) fn write_chains(thousandths: i64, out: &mut String) -> Result<(), AllocError> {
    let sign = if thousandths < 0 { "-" } else { "" };
    let size = thousandths.unsigned_abs();
    write!(out, "{sign}{}.{:03}", size / 1000, size % 1000)
}
