//! What the records of a lot table with land say so far.
ghost use Rattle.std.specs.Prelude.{◌≡◌, ◌≢◌, ◌-◌, ◌≤◌, ◌<◌, ◌↔◌, ℕ, IsTrue, false, length, set};
ghost use Rattle.twp_grid.specs.Lands.{LOT_NUMBER_MOST};
ghost use Rattle.twp_plat.specs.LotTables.{entered_for};
ghost use Rattle.twp_plat.specs.steps.LandEntries.{OthersStay, AreNoEntries, AddsLot, IsFullOfLots, lots_in};

use crate::lots::returned::LOT_MOST;
use twp_grid::{SECTIONS, Section};

/// The most lots of a section, and of the township.
const SECTION_LOTS_MOST: u32 = 64;

const TOWNSHIP_LOTS_MOST: u32 = 1024;

/// The lots that the records so far are for: for each, by its section and its number, the hundredths
/// of an acre, and the number of its record; both are 0 for other lots. Also how many there are in
/// each section, and in all.
#[derive(Drop)]
pub struct LotEntries {
    pub(crate) figures: [[u32; LOT_MOST]; SECTIONS as usize],
    pub(crate) records: [[u32; LOT_MOST]; SECTIONS as usize],
    counts: [u32; SECTIONS as usize],
    count: u32,
}

impl LotEntries {
    /// Before the first record.
    pub(crate) fn none() -> LotEntries
        ensures { AreNoEntries result }
    {
        LotEntries {
            figures: [[0; LOT_MOST]; SECTIONS as usize],
            records: [[0; LOT_MOST]; SECTIONS as usize],
            counts: [0; SECTIONS as usize],
            count: 0,
        }
    }

    /// The hundredths of an acre of a lot, or 0.
    pub(crate) fn figure(&self, section: Section, lot: u8) -> u32
        requires least { 1 ≤ lot }
        requires most { lot ≤ LOT_NUMBER_MOST }
        ensures { result ≡ entered_for self.now.figures section lot }
    {
        entry(&self.figures, section, lot)
    }

    /// The number of the record of a lot, or 0.
    pub(crate) fn record(&self, section: Section, lot: u8) -> u32
        requires least { 1 ≤ lot }
        requires most { lot ≤ LOT_NUMBER_MOST }
        ensures { result ≡ entered_for self.now.records section lot }
    {
        entry(&self.records, section, lot)
    }

    /// Whether a section has lots.
    pub(crate) fn has_lots(&self, section: Section) -> bool
        ensures { IsTrue result ↔ (0 < lots_in self.now section) }
    {
        self.counts[usize::from(section.number() - 1)] != 0
    }

    /// Adds a lot. Returns whether there was room for it.
    pub(crate) fn add(&mut self, section: Section, lot: u8, hundredths: u32, number: u32) -> bool
        requires least { 1 ≤ lot }
        requires most { lot ≤ LOT_NUMBER_MOST }
        ensures added { IsTrue result → AddsLot section lot hundredths number self.old self.new }
        ensures full { result ≡ false → IsFullOfLots section self.old }
    {
        let index = usize::from(section.number() - 1);
        if self.counts[index] >= SECTION_LOTS_MOST || self.count >= TOWNSHIP_LOTS_MOST {
            return false;
        }
        self.counts[index] += 1;
        self.count += 1;
        set_entry(&mut self.figures, section, lot, hundredths);
        set_entry(&mut self.records, section, lot, number);
        true
    }
}

/// A lot's entry.
fn entry(entries: &[[u32; LOT_MOST]; SECTIONS as usize], section: Section, lot: u8) -> u32
    requires least { 1 ≤ lot }
    requires most { lot ≤ LOT_NUMBER_MOST }
    ensures { result ≡ entered_for entries.now section lot }
{
    entries[usize::from(section.number() - 1)][usize::from(lot - 1)]
}

/// Sets a lot's entry.
fn set_entry(
    entries: &mut [[u32; LOT_MOST]; SECTIONS as usize],
    section: Section,
    lot: u8,
    value: u32,
)
    requires least { 1 ≤ lot }
    requires most { lot ≤ LOT_NUMBER_MOST }
    ensures entry { entered_for entries.new section lot ≡ value }
    ensures others { OthersStay section lot entries.old entries.new }
{
    set_lot(&mut entries[usize::from(section.number() - 1)], lot, value);
}

/// Sets a lot's entry in its section.
fn set_lot(lots: &mut [u32; LOT_MOST], lot: u8, value: u32)
    requires least { 1 ≤ lot }
    requires most { lot ≤ LOT_NUMBER_MOST }
    ensures new { lots.new ≡ set lots.old (lot - 1) value }
    ensures fits { lot - 1 < length lots.old }
{
    lots[usize::from(lot - 1)] = value;
}
