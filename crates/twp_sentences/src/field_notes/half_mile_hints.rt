//! What may have led to a half mile that is out of its limits, where the distances explain it.
ghost use Rattle.twp_sentences.specs.steps.Slips.{IsMended};

use crate::field_notes::lines::write_chains;
use std::alloc::AllocError;
use twp_grid::Line;
use twp_notes::Returned;
use twp_plat::{
    CLOSING_LEAST, CLOSING_MOST, HALF_LEAST, HALF_MOST, HalfMile, PlatFault, QUARTER_MILE,
};

/// Distances of a line in thousandths of a chain, in the order in which they are returned.
#[derive(Clone, Copy)]
pub(crate) struct Distances {
    pub(crate) quarter: u32,
    pub(crate) corner: u32,
}

/// How distances come to be out of their limits.
#[derive(Clone, Copy)]
enum Slip {
    /// The second one is the second half mile alone.
    HalfMileAlone,
    /// They are exchanged.
    Exchanged,
    /// They were measured from the other end of the line.
    OtherEnd,
}

impl Slip {
    /// What the distances are without the slip.
    fn mended(self, found: Distances) -> Distances
        ensures { IsMended self found result }
    {
        let Distances { quarter, corner } = found;
        match self {
            Slip::HalfMileAlone => Distances {
                quarter,
                corner: quarter.saturating_add(corner),
            },
            Slip::Exchanged => Distances {
                quarter: corner,
                corner: quarter,
            },
            Slip::OtherEnd => Distances {
                quarter: corner.saturating_sub(quarter),
                corner,
            },
        }
    }

    /// The hint, before the mended distances.
    fn hint(self) -> &'static str {
        match self {
            Slip::HalfMileAlone => "if the second distance starts at the quarter corner, write ",
            Slip::Exchanged => "if the two distances are swapped, write ",
            Slip::OtherEnd => "if the distances start at the closing end of the line, write ",
        }
    }
}

/// Appends the first slip that can have led to a fault of a line's distances, or else how they are
/// measured.
pub(crate) fn write_half_mile_hint(
    line: Line,
    returned: Returned,
    fault: PlatFault,
    out: &mut String,
) -> Result<(), AllocError> {
    let found = Distances {
        quarter: returned.quarter.thousandths(),
        corner: returned.corner.thousandths(),
    };
    for slip in [Slip::HalfMileAlone, Slip::Exchanged, Slip::OtherEnd] {
        let mended = slip.mended(found);
        if is_in_limits(line, mended) {
            return write_mended(slip, mended, out);
        }
    }
    out.push_str(match fault {
        PlatFault::Irregular {
            half: HalfMile::First,
            ..
        } => "the quarter corner should be about 40 chains from the start of the line",
        PlatFault::Irregular { .. } => "both distances start at the same end of the line: the \
            corner should be about 40 chains past the quarter corner",
        _ =>
            "the last quarter mile is the rest of the line beyond 20 chains past the quarter corner",
    })
}

/// Appends the mended distances.
fn write_mended(slip: Slip, mended: Distances, out: &mut String) -> Result<(), AllocError> {
    out.push_str(slip.hint())?;
    write_chains(i64::from(mended.quarter), out)?;
    out.push_str(" and ")?;
    write_chains(i64::from(mended.corner), out)
}

/// Whether distances of a line are within the limits of a plat.
pub(crate) fn is_in_limits(line: Line, distances: Distances) -> bool {
    let Distances { quarter, corner } = distances;
    let half = corner.saturating_sub(quarter);
    let last = half.saturating_sub(QUARTER_MILE);
    let is_closed = if line.is_closing() {
        (CLOSING_LEAST..=CLOSING_MOST).contains(&last)
    } else {
        (HALF_LEAST..=HALF_MOST).contains(&half)
    };
    is_closed && (HALF_LEAST..=HALF_MOST).contains(&quarter)
}
