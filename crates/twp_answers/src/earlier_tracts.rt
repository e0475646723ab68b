//! The tracts of a list so far, which the next one is checked against.
ghost use Rattle.std.specs.Prelude.{◌≡◌, ℕ, List, false, IfOk, OnOk, IfErr};
ghost use Rattle.csv.specs.Records.{fields_of};
ghost use Rattle.twp_grid.specs.Lands.{lotting, no_places, SharePlace};
ghost use Rattle.twp_read.specs.Doubts.{HasNoDoubtfulPlace};
ghost use Rattle.twp_answers.specs.EarlierTracts.{earlier_of, AddsTract, IsUnread, ReadsTract};
ghost use Rattle.twp_answers.specs.Names.{has_name};
ghost use Rattle.twp_answers.specs.Tracts.{description_in, name_in};

use crate::names::NamesSoFar;
use crate::on_plat::describe_into;
use crate::stop::Stop;
use crate::tract::tract_of;
use crate::tract_fault::TractFault;
use csv::ByteRecord;
use std::alloc::Global;
use twp_grid::Township;
use twp_land::{Land, Lotting};
use twp_read::Clarity;

/// The names and the land of the tracts of a list so far. One land is reused for each tract in turn,
/// so that no new one has to be made.
#[derive(Drop)]
pub struct EarlierTracts<L> {
    pub(crate) names: NamesSoFar,
    /// All land in the tracts so far.
    pub land: L,
    /// The land of the tract that was read last.
    pub tract: L,
    /// Whether a place in a description so far may be doubtful.
    pub(crate) clarity: Clarity,
}

impl<L: Land> EarlierTracts<L> {
    /// No tracts.
    pub fn new(alloc: Global) -> EarlierTracts<L>
        ensures names { (name : List ℕ) → has_name result.names name ≡ false }
        ensures land { L.places result.land ≡ no_places }
    {
        EarlierTracts {
            names: NamesSoFar::new(alloc),
            land: L::empty(),
            tract: L::empty(),
            clarity: Clarity::Clear,
        }
    }

    /// Reads the tract of the record with this number, on the plat of a township with these lots, and
    /// returns its name, which is added. Its land is not added yet, so that the caller can measure it
    /// first.
    pub fn read<'a, P: Lotting>(
        &mut self,
        alloc: Global,
        township: Township,
        row: &'a ByteRecord,
        number: u32,
        lots: &P,
    ) -> Result<&'a str, TractFault>
        ensures read { OnOk result (ReadsTract (lotting (P.layout lots.now)) township
            (fields_of row.now) (earlier_of L.places self.old) (earlier_of L.places self.new)
            (L.places self.new.tract)) }
        ensures name { IfOk result (λ name. name.now ≡ name_in (fields_of row.now)) }
        ensures fault { IfErr result (IsUnread (lotting (P.layout lots.now)) township
            (fields_of row.now) (earlier_of L.places self.old) number) }
        ensures clear { OnOk result (self.new.clarity ≡ Clarity.Clear
            → (self.old.clarity ≡ Clarity.Clear)
            × HasNoDoubtfulPlace (description_in (fields_of row.now))) }
    {
        let Some(tract) = tract_of(row) else {
            return Err(TractFault::TractRow(number));
        };
        if !self.names.add(tract.name)? {
            return Err(TractFault::NameRepeated(number));
        }
        match describe_into(alloc, &mut self.tract, township, tract.description, lots) {
            Ok(clarity) => {
                self.clarity = both(self.clarity, clarity);
                Ok(tract.name)
            }
            Err(Stop::Refused(inner)) => Err(TractFault::TractRefused { at: number, inner }),
            Err(Stop::Failed(_)) => Err(TractFault::Memory),
        }
    }

    /// Adds the land of the tract that was read, whose record has this number.
    pub fn add(&mut self, number: u32) -> Result<(), TractFault>
        ensures added { OnOk result (AddsTract (earlier_of L.places self.old)
            (earlier_of L.places self.new) (L.places self.old.tract)) }
        ensures tract { self.new.tract ≡ self.old.tract }
        ensures clarity { self.new.clarity ≡ self.old.clarity }
        ensures fault { IfErr result (λ fault. (fault ≡ TractFault.TractsOverlap number)
            × SharePlace (L.places self.old.land) (L.places self.old.tract)) }
    {
        if self.land.meets_land(&self.tract) {
            return Err(TractFault::TractsOverlap(number));
        }
        self.land.add_land(&self.tract);
        Ok(())
    }
}

/// Whether a place in one of two texts may be doubtful.
fn both(first: Clarity, second: Clarity) -> Clarity
    ensures { result ≡ Clarity.Clear → (first ≡ Clarity.Clear) × (second ≡ Clarity.Clear) }
{
    match first {
        Clarity::Clear => second,
        Clarity::Unclear => Clarity::Unclear,
    }
}
