//! The figures of an account.
ghost use Rattle.std.specs.Prelude.{◌≡◌, ◌+◌, ◌≤◌};
ghost use Rattle.twp_measure.specs.Areas.{MOST_UNITS};

use crate::on_plat::write_acres_line;
use std::alloc::AllocError;
use twp_measure::Area;
use twp_plat::Plat;

/// The area of all places in the tracts so far, and that of all other places in the township.
#[derive(Drop)]
pub(crate) struct Totals {
    pub(crate) total: Area,
    pub(crate) remaining: Area,
    ghost one_over: { remaining.over ≡ total.over },
    ghost room: { total.units + remaining.units ≤ MOST_UNITS },
}

impl Totals {
    ghost use Rattle.std.specs.Prelude.{ℕ, Bool, OnOk};
    ghost use Rattle.twp_grid.specs.Lands.{no_places};
    ghost use Rattle.twp_plat.specs.Plats.{SurveyPlat};
    ghost use Rattle.twp_answers.specs.steps.TractTaking.{AreTotals, TakesArea, EndsAccount};

    /// The figures without tracts: the whole township remains.
    pub(crate) fn new(plat: &Plat) -> Totals
        ensures { AreTotals plat.now no_places result }
    {
        Totals {
            total: Area::zero(plat.over()),
            remaining: plat.township_area(),
        }
    }

    /// Subtracts an area from the remaining one.
    pub(crate) fn take(&mut self, area: &Area)
        requires over { area.now.over ≡ self.old.total.over }
        requires part { area.now.units ≤ self.old.remaining.units }
        ensures { TakesArea area.now self.old self.new }
    {
        let remaining = self.remaining.units() - area.units();
        *self = Totals {
            total: self.total.plus(area),
            remaining: Area::new(remaining, self.remaining.over()).unwrap(),
        };
    }

    /// Appends both figures, such as `total: 78.20 acres` and `remaining: 22959.37 acres`.
    pub(crate) fn write(&self, text: &mut Vec<u8>) -> Result<(), AllocError>
        ensures { OnOk result ((plat : SurveyPlat) (places : ℕ → ℕ → ℕ → Bool)
            → AreTotals plat places self.now
            → EndsAccount plat places text.old.items text.new.items) }
    {
        text.extend_from_slice(b"total: ")?;
        write_acres_line(self.total.hundredths(), text)?;
        text.extend_from_slice(b"remaining: ")?;
        write_acres_line(self.remaining.hundredths(), text)?;
        Ok(())
    }
}
