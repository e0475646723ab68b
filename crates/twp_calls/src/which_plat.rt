ghost use Rattle.std.specs.Prelude.{◌≡◌, ◌↔◌, IsTrue};
ghost use Rattle.twp_calls.specs.WhichPlats.{REGULAR, IsMeasuredBy};

/// Which plat of a township land or a lot table is of.
#[derive(Clone, Copy)]
pub struct WhichPlat {
    /// The date on which the plat was approved, as a number, or 0 if it isn't known.
    pub date: u32,
    /// 0 if the lots are the standard ones, or 1 if they are those of a lot table.
    pub own_lots: u32,
}

/// The plat of land that was read without a lot table: any plat of a regular township.
pub(crate) const REGULAR: WhichPlat = WhichPlat {
    date: 0,
    own_lots: 0,
};

impl WhichPlat {
    /// Whether both are of one plat.
    pub(crate) fn is_same(self, other: WhichPlat) -> bool
        ensures { IsTrue result ↔ (self ≡ other) }
    {
        self.date == other.date && self.own_lots == other.own_lots
    }

    /// Whether a lot table of a plat says what land of this one contains.
    pub(crate) fn is_measured_by(self, table: WhichPlat) -> bool
        ensures { IsTrue result ↔ IsMeasuredBy self table }
    {
        self.is_same(table) || (self.is_same(REGULAR) && table.own_lots == 0)
    }
}
