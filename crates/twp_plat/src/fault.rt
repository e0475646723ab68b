use std::fmt;
use thiserror::Error;
use twp_grid::Refusal;

/// The half miles of a line, in the order in which they are run.
#[derive(Clone, Copy, Debug, PartialEq, Eq)]
pub enum HalfMile {
    /// From the line's start to its quarter corner.
    First,
    /// From the quarter corner to the section corner or closing.
    Second,
}

impl fmt::Display for HalfMile {
    fn fmt<W: fmt::Write>(&self, f: &mut fmt::Formatter<W>) -> fmt::Result {
        f.write_str(match self {
            HalfMile::First => "first",
            HalfMile::Second => "second",
        })
    }
}

/// Why field notes make no plat: a half mile of a line is outside its limits, which are this
/// project's. Faults are in the order of the lines' indexes, and the first half mile of a line
/// comes before the second.
#[derive(Clone, Copy, Debug, PartialEq, Eq, Error)]
pub enum PlatFault {
    /// 21, at the line: a half mile, other than a closing line's second, is too short or too long.
    #[error("the {half} half mile of the line of index {line} isn't from 39.750 to 40.250 chains")]
    Irregular { line: u8, half: HalfMile },
    /// 22, at the line: the last quarter mile of a closing line is too short.
    #[error("the second half mile of the closing line of index {0} leaves less than \
        5.000 chains to its last quarter mile, which is from 5.000 to 25.000")]
    ClosingShort(u8),
    /// 23, at the line: the last quarter mile of a closing line is too long.
    #[error("the second half mile of the closing line of index {0} leaves more than \
        25.000 chains to its last quarter mile, which is from 5.000 to 25.000")]
    ClosingLong(u8),
}

impl PlatFault {
    ghost use Rattle.std.specs.Prelude.{◌≡◌};
    ghost use Rattle.twp_plat.specs.PlatFaults.{refusal_of};

    /// The number of the refusal and its place, which is the line's index.
    pub fn refusal(&self) -> Option<Refusal>
        ensures { result ≡ refusal_of self.now }
    {
        let (number, line) = match *self {
            PlatFault::Irregular { line, .. } => (21, line),
            PlatFault::ClosingShort(line) => (22, line),
            PlatFault::ClosingLong(line) => (23, line),
        };
        Some(Refusal {
            number,
            at: u32::from(line),
        })
    }
}
