use crate::counted::work::{Work, measure};
use twp_land::{Grid, Lanes};

/// A kind of land.
#[derive(Clone, Copy)]
enum LandKind {
    Grid,
    Lanes,
}

impl LandKind {
    /// The kind of land with a name.
    fn read(name: &str) -> Option<LandKind> {
        match name {
            "grid" => Some(LandKind::Grid),
            "lanes" => Some(LandKind::Lanes),
            _ => None,
        }
    }
}

/// A kind of work on a kind of land, done a number of times.
#[derive(Clone, Copy)]
pub struct LandTask {
    kind: LandKind,
    work: Work,
    times: u32,
}

impl LandTask {
    /// The task that three words ask for.
    pub fn of_words(kind: &str, work: &str, times: &str) -> Option<LandTask> {
        Some(LandTask {
            kind: LandKind::read(kind)?,
            work: Work::read(work)?,
            times: times.parse::<u32>().ok()?,
        })
    }

    /// Does the work, and returns a sum of its results.
    pub fn tally(&self) -> u32 {
        match self.kind {
            LandKind::Grid => measure::<Grid>(self.work, self.times),
            LandKind::Lanes => measure::<Lanes>(self.work, self.times),
        }
    }
}
