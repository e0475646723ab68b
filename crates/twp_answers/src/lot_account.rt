//! The account of a list of tracts by a lot table, as numbers.
ghost use Rattle.std.specs.Prelude.{◌≡◌, ◌≤◌, length, OnOk, IfOk, IfErr};
ghost use Rattle.csv.specs.Records.{fields_of};
ghost use Rattle.twp_plat.specs.LotAreas.{HasFigures};
ghost use Rattle.twp_plat.specs.LotTables.{figure_of, lots_of};
ghost use Rattle.twp_notes.specs.Records.{records_left, IsBetweenRecords};
ghost use Rattle.twp_answers.specs.EarlierTracts.{earlier_of, AreEarlier};
ghost use Rattle.twp_answers.specs.Tracts.{TRACTS_MOST};
ghost use Rattle.twp_answers.specs.LotAccounts.{AreFiguresByLots, IsAccountByLots};
ghost use Rattle.twp_answers.specs.LotTractFaults.{AnswersFaultByLots};
ghost use Rattle.twp_answers.specs.steps.LotTaking.{AreRefusedByLots, IsRefusedByLots};
ghost use Rattle.twp_answers.specs.steps.LotTaking.{TakesByLots};

use crate::account_figures::{TractFigure, figure_of};
use crate::earlier_tracts::EarlierTracts;
use crate::tract::is_heading;
use crate::tract_fault::{TRACTS_LIMIT, TRACTS_MOST, TractFault};
use crate::tracts::FIRST_TRACT;
use csv::ByteRecord;
use std::alloc::Global;
use twp_grid::Township;
use twp_land::{Land, Lanes};
use twp_measure::Area;
use twp_notes::Records;
use twp_plat::{ReturnedLots, area_by_lots};

/// The figures of an account by a lot table. Each is an exact area, rounded once, in hundredths of an
/// acre.
#[derive(Drop)]
pub struct LotAccount {
    /// Those of the tracts, in the order of the list.
    pub tracts: Vec<TractFigure>,
    /// That of all places in at least one tract.
    pub total: u64,
}

/// The account of a list of tracts by a lot table, or the list's first fault. If the table lacks a lot
/// of a tract, the fault is `TractFault::TractRefused`, and the refusal inside it is 94, at the lot.
pub fn account_by_lots(
    alloc: Global,
    township: Township,
    lots: &ReturnedLots,
    list: &[u8],
) -> Result<LotAccount, TractFault>
    ensures account { IfOk result (λ account.
        IsAccountByLots township lots.now list.now account.tracts.items account.total) }
    ensures fault { IfErr result (AnswersFaultByLots township lots.now list.now) }
{
    if list.len() > TRACTS_LIMIT as usize {
        return Err(TractFault::TractsTooLarge);
    }
    let records = &mut Records::new(alloc, list);
    let mut row = ByteRecord::new(alloc);
    if !records.read(&mut row)? {
        return Err(TractFault::TractRow(1));
    }
    if !is_heading(&row) {
        return Err(TractFault::TractRow(1));
    }
    let mut earlier: EarlierTracts<Lanes> = EarlierTracts::new(alloc);
    let tracts = take_tracts(alloc, township, lots, records, &mut row, &mut earlier)?;
    let Ok(area) = area_by_lots(lots, &earlier.land) else {
        unreachable!();
    };
    Ok(LotAccount {
        tracts,
        total: area.hundredths(),
    })
}

/// Adds the tracts of the remaining records, which come after the heading, to no tracts, and returns
/// their figures.
fn take_tracts<L: Land>(
    alloc: Global,
    township: Township,
    lots: &ReturnedLots,
    records: &mut Records<'_>,
    row: &mut ByteRecord,
    earlier: &mut EarlierTracts<L>,
) -> Result<Vec<TractFigure>, TractFault>
    requires reading { IsBetweenRecords records.old }
    requires empty { AreEarlier (lots_of lots.now) township
        (records_left records.old) 0 (earlier_of L.places earlier.old) }
    ensures earlier { OnOk result (AreEarlier (lots_of lots.now) township
        (records_left records.old) (length (records_left records.old))
        (earlier_of L.places earlier.new)) }
    ensures returned { OnOk result (HasFigures (lots_of lots.now) (figure_of lots.now)
        (L.places earlier.new.land)) }
    ensures few { IfOk result (λ _. length (records_left records.old) ≤ TRACTS_MOST) }
    ensures figures { IfOk result (λ figures. AreFiguresByLots township lots.now
        (records_left records.old) (length (records_left records.old)) figures.items) }
    ensures fault { IfErr result (AreRefusedByLots township lots.now (records_left records.old)) }
{
    let mut figures = Vec::new(alloc);
    let mut taken = 0;
    'records: while records.read(row)? {
        if taken == TRACTS_MOST {
            return Err(TractFault::TooManyTracts);
        }
        let area = take_tract(alloc, township, lots, row, taken + FIRST_TRACT, earlier)?;
        figures.push(figure_of(row, area.hundredths()))?;
        taken += 1;
    }
    Ok(figures)
}

/// Adds the tract of the record with this number, and returns its area by the table.
fn take_tract<L: Land>(
    alloc: Global,
    township: Township,
    lots: &ReturnedLots,
    row: &ByteRecord,
    number: u32,
    earlier: &mut EarlierTracts<L>,
) -> Result<Area, TractFault>
    ensures taken { IfOk result (λ area. TakesByLots township lots.now (fields_of row.now)
        (earlier_of L.places earlier.old) (earlier_of L.places earlier.new) area) }
    ensures fault { IfErr result (IsRefusedByLots township lots.now (fields_of row.now)
        (earlier_of L.places earlier.old) number) }
{
    earlier.read(alloc, township, row, number, &lots.plat)?;
    let area = match area_by_lots(lots, &earlier.tract) {
        Ok(area) => area,
        Err(lot) => {
            return Err(TractFault::TractRefused {
                at: number,
                inner: lot.refusal(),
            });
        }
    };
    earlier.add(number)?;
    Ok(area)
}
