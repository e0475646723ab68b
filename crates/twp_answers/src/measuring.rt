//! What lists of tracts are answered by: a plat, or a lot table.
ghost use Rattle.std.specs.Prelude.{◌≡◌, IfOk, OnOk, IfErr};
ghost use Rattle.twp_grid.specs.Lands.{HasWholeLots};
ghost use Rattle.twp_answers.specs.EachTract.{AnswersByTable, AnswersOnPlat, DescriptionAnswers};
ghost use Rattle.twp_answers.specs.Overlaps.{Measure, measure_of_plat, measure_of_table};
ghost use Rattle.twp_answers.specs.steps.Stops.{IfFailed, IsLandOrRefusal};
ghost use Rattle.twp_answers.specs.declared.stop.RunFault.{RunFault};

use crate::on_plat::{acres_on, describe_into, land_of};
use crate::stop::Stop;
use std::alloc::{AllocError, Global};
use twp_grid::{Refusal, Township};
use twp_land::{Land, StandardLots};
use twp_plat::{Account, Plat, ReturnedLots, area_by_lots, area_of};
use twp_read::Clarity;

/// What answers descriptions.
pub(crate) trait Answering {
    /// Which answers a description has.
    ghost answers: { Self → DescriptionAnswers };

    /// The hundredths of an acre of the land of a description, or its refusal.
    fn answer(&self, alloc: Global, description: &[u8]) -> Result<Result<u64, Refusal>, AllocError>
        ensures { IfOk result (answers self.now description.now) };
}

/// What land is measured by.
pub(crate) trait Measuring {
    /// How much land there is: hundredths of an acre or, by a lot table, also the refusal of a lot that it
    /// lacks.
    type Acres: Copy;

    /// The township, the lots of its plat, and how much land a set of places is.
    ghost measure: { Self → Measure Self.Acres };

    /// Sets `land` to that of a description, as `describe_into` does.
    fn describe<L: Land>(&self, alloc: Global, land: &mut L, text: &[u8]) -> Result<Clarity, Stop>
        ensures memory { IfErr result (λ stop. IfFailed stop (λ fault. fault ≡ RunFault.Memory)) }
        ensures land { IsLandOrRefusal (λ _. L.places land.new) (measure self.now).lots
            (measure self.now).township text.now result }
        ensures whole_lots { OnOk result (HasWholeLots (measure self.now).lots (L.places land.new)) };

    /// How much land this is.
    fn acres_of<L: Land>(&self, land: &L) -> Self::Acres
        requires { HasWholeLots (measure self.now).lots (L.places land.now) }
        ensures { (measure self.now).are_acres (L.places land.now) result };
}

impl Answering for Plat {
    ghost answers = { AnswersOnPlat };

    fn answer(
        &self,
        alloc: Global,
        description: &[u8],
    ) -> Result<Result<u64, Refusal>, AllocError> {
        match acres_on(alloc, self, description, Account::Exact) {
            Ok(hundredths) => Ok(Ok(hundredths)),
            Err(Stop::Refused(refusal)) => Ok(Err(refusal)),
            Err(Stop::Failed(_)) => Err(AllocError),
        }
    }
}

impl Measuring for Plat {
    type Acres = u64;

    ghost measure = { measure_of_plat };

    fn describe<L: Land>(&self, alloc: Global, land: &mut L, text: &[u8]) -> Result<Clarity, Stop> {
        describe_into(alloc, land, self.township(), text, &StandardLots)
    }

    fn acres_of<L: Land>(&self, land: &L) -> u64 {
        area_of(self, land).hundredths()
    }
}

/// A lot table in a township.
#[derive(Clone, Copy)]
pub(crate) struct ByTable<'a> {
    pub(crate) township: Township,
    pub(crate) lots: &'a ReturnedLots,
}

impl Answering for ByTable<'_> {
    ghost answers = { λ by. AnswersByTable by.township by.lots.now };

    fn answer(
        &self,
        alloc: Global,
        description: &[u8],
    ) -> Result<Result<u64, Refusal>, AllocError> {
        let land = match land_of(alloc, self.township, description, &self.lots.plat) {
            Ok(land) => land,
            Err(Stop::Refused(refusal)) => return Ok(Err(refusal)),
            Err(Stop::Failed(_)) => return Err(AllocError),
        };
        match area_by_lots(self.lots, &land) {
            Ok(area) => Ok(Ok(area.hundredths())),
            Err(lot) => Ok(Err(lot.refusal())),
        }
    }
}

impl Measuring for ByTable<'_> {
    type Acres = Result<u64, Refusal>;

    ghost measure = { λ by. measure_of_table by.township by.lots.now };

    fn describe<L: Land>(&self, alloc: Global, land: &mut L, text: &[u8]) -> Result<Clarity, Stop> {
        describe_into(alloc, land, self.township, text, &self.lots.plat)
    }

    fn acres_of<L: Land>(&self, land: &L) -> Result<u64, Refusal> {
        match area_by_lots(self.lots, land) {
            Ok(area) => Ok(area.hundredths()),
            Err(lot) => Err(lot.refusal()),
        }
    }
}
