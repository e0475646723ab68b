use twp_grid::{Refusal, Section};

/// A lot that a set of places contains, and for which no acreage is returned.
#[derive(Clone, Copy)]
pub struct LackingLot {
    /// The lot's section.
    pub section: Section,
    /// The lot's number in its section.
    pub number: u8,
}

impl LackingLot {
    ghost use Rattle.std.specs.Prelude.{◌≡◌};
    ghost use Rattle.twp_plat.specs.LotsFaults.{lacking_refusal};

    /// The refusal of the land: 94, at the lot, which is 100 times the section's number plus the
    /// lot's.
    pub fn refusal(self) -> Refusal
        ensures { result ≡ lacking_refusal self.section self.number }
    {
        let at = 100 * u32::from(self.section.number()) + u32::from(self.number);
        Refusal { number: 94, at }
    }
}
