ghost use Rattle.std.specs.Prelude.{◌*◌, ◌≤◌, ◌↔◌, IsSome, IfSome};
ghost use Rattle.twp_measure.specs.Areas.{HUNDREDTH_OF_AN_ACRE};
ghost use Rattle.twp_grid.specs.Finding.{Finds};
ghost use Rattle.twp_grid.specs.Winding.{IsSection};
ghost use Rattle.twp_grid.specs.Lots.{number_of_lots};
ghost use Rattle.twp_plat.specs.Closing.{CLOSING_MOST};
ghost use Rattle.twp_plat.specs.LotFigures.{IsFigureOfLot};

use crate::plat::Plat;
use twp_grid::{Section, lot_place};

impl Plat {
    /// The hundredths of an acre that the plat shows for a lot: the area of the position that it
    /// fills, rounded once, half up (this project's rule). `None` if the section has no such lot.
    pub fn lot_hundredths(&self, section: Section, lot: u8) -> Option<u64>
        ensures figure { Finds result (IsFigureOfLot self.now section lot) }
        ensures has { IsSome result ↔ ((1 ≤ lot) × (lot ≤ number_of_lots section)) }
        ensures most { IfSome result (λ hundredths.
            HUNDREDTH_OF_AN_ACRE * hundredths ≤ CLOSING_MOST * CLOSING_MOST) }
        ensures section { IsSection section }
    {
        let (column, row) = lot_place(section, lot)?;
        let piece = self.piece_area(section, column, row);
        Some(piece.hundredths())
    }
}
