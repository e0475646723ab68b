//! The account of tracts, which grows by one tract at a time.
ghost use Rattle.std.specs.Prelude.{◌≡◌, ◌++◌, ℕ, List, [], false, OnOk, IfOk, IfErr};
ghost use Rattle.csv.specs.Records.{fields_of};
ghost use Rattle.twp_read.specs.Doubts.{HasNoDoubtfulPlace};
ghost use Rattle.twp_answers.specs.Tracts.{description_in};
ghost use Rattle.twp_grid.specs.Lands.{no_places};
ghost use Rattle.twp_answers.specs.EarlierTracts.{earlier_of, IsTractRefused};
ghost use Rattle.twp_answers.specs.Names.{has_name};
ghost use Rattle.twp_answers.specs.Tracts.{name_in};
ghost use Rattle.twp_answers.specs.ReportAnswers.{tract_line};
ghost use Rattle.twp_answers.specs.steps.TractTaking.{tally_of, AreTotals, TakesTract};
ghost use Rattle.twp_grid.specs.Lands.{STANDARD_LOTS};

use crate::earlier_tracts::EarlierTracts;
use crate::on_plat::write_acres_line;
use crate::totals::Totals;
use crate::tract_fault::TractFault;
use csv::ByteRecord;
use std::alloc::{AllocError, Global};
use twp_land::{Land, StandardLots};
use twp_plat::{Plat, area_of};
use twp_read::Clarity;

/// The account of the tracts so far.
#[derive(Drop)]
pub(crate) struct RunningAccount<L> {
    pub(crate) tracts: EarlierTracts<L>,
    pub(crate) totals: Totals,
    pub(crate) text: Vec<u8>,
}

impl<L: Land> RunningAccount<L> {
    /// The account without tracts.
    pub(crate) fn new(alloc: Global, plat: &Plat) -> RunningAccount<L>
        ensures names { (name : List ℕ) → has_name result.tracts.names name ≡ false }
        ensures land { L.places result.tracts.land ≡ no_places }
        ensures totals { AreTotals plat.now no_places result.totals }
        ensures text { result.text.items ≡ [] }
    {
        RunningAccount {
            tracts: EarlierTracts::new(alloc),
            totals: Totals::new(plat),
            text: Vec::new(alloc),
        }
    }

    /// Adds the tract of the record with this number, and returns its hundredths of an acre.
    pub(crate) fn take(
        &mut self,
        alloc: Global,
        plat: &Plat,
        row: &ByteRecord,
        number: u32,
    ) -> Result<u64, TractFault>
        requires { AreTotals plat.now (L.places self.old.tracts.land) self.old.totals }
        ensures taken { OnOk result (TakesTract plat.now (fields_of row.now)
            (tally_of L.places self.old) (tally_of L.places self.new)) }
        ensures line { IfOk result (λ hundredths. self.new.text.items
            ≡ self.old.text.items ++ tract_line (name_in (fields_of row.now)) hundredths) }
        ensures fault { IfErr result (IsTractRefused STANDARD_LOTS plat.now.township (fields_of row.now)
            (earlier_of L.places self.old.tracts) number) }
        ensures clear { OnOk result (self.new.tracts.clarity ≡ Clarity.Clear
            → (self.old.tracts.clarity ≡ Clarity.Clear)
            × HasNoDoubtfulPlace (description_in (fields_of row.now))) }
    {
        let name = self
            .tracts
            .read(alloc, plat.township(), row, number, &StandardLots)?;
        self.tracts.add(number)?;
        let area = area_of(plat, &self.tracts.tract);
        self.totals.take(&area);
        let hundredths = area.hundredths();
        write_tract(name, hundredths, &mut self.text)?;
        Ok(hundredths)
    }
}

/// Appends a tract's name and its hundredths of an acre, such as `tract A: 39.18 acres`.
fn write_tract(name: &str, hundredths: u64, text: &mut Vec<u8>) -> Result<(), AllocError>
    ensures ok { OnOk result (text.new.items ≡ text.old.items ++ tract_line name.now hundredths) }
{
    text.extend_from_slice(b"tract ")?;
    text.extend_from_slice(name.as_bytes())?;
    text.extend_from_slice(b": ")?;
    write_acres_line(hundredths, text)
}
