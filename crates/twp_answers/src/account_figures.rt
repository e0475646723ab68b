//! The figures of an account of tracts, as numbers.
ghost use Rattle.std.specs.Prelude.{◌≡◌, ◌≤◌, [], length, OnOk, IfOk, IfErr};
ghost use Rattle.std.specs.List.{flat_map};
ghost use Rattle.csv.specs.Records.{fields_of};
ghost use Rattle.twp_grid.specs.Lands.{STANDARD_LOTS};
ghost use Rattle.twp_notes.specs.Records.{records_left, IsBetweenRecords};
ghost use Rattle.twp_answers.specs.Tracts.{TRACTS_MOST, IsTractRecord};
ghost use Rattle.twp_answers.specs.Tracts.{name_in, tract_records};
ghost use Rattle.twp_answers.specs.ReportAnswers.{IsAccountOf};
ghost use Rattle.twp_answers.specs.AccountFigures.{line_of, text_of_figures};
ghost use Rattle.twp_answers.specs.TractFaults.{AnswersFault};
ghost use Rattle.twp_answers.specs.steps.TractTaking.{tally_of, IsTallyOf, AreTractsRefused};

use crate::running_account::RunningAccount;
use crate::tract::{NAME_MOST, is_heading, tract_of};
use crate::tract_fault::{TRACTS_LIMIT, TRACTS_MOST, TractFault};
use crate::tracts::FIRST_TRACT;
use arrayvec::ArrayString;
use csv::ByteRecord;
use std::alloc::Global;
use twp_land::{Land, Lanes};
use twp_notes::Records;
use twp_plat::Plat;

/// A tract in an account: its name, and its hundredths of an acre.
#[derive(Clone, Copy)]
pub struct TractFigure {
    name: ArrayString<NAME_MOST>,
    hundredths: u64,
}

impl TractFigure {
    ghost use Rattle.std.specs.Prelude.{◌≡◌, ◌≤◌, length};
    ghost use Rattle.twp_answers.specs.Tracts.{NAME_MOST};
    ghost use Rattle.twp_grid.specs.Lands.{STANDARD_LOTS};

    /// The tract's name: 1 to 64 characters of printable ASCII.
    pub fn name(&self) -> &str
        ensures name { result.now ≡ self.now.name.bytes }
        ensures most { length result.now ≤ NAME_MOST }
    {
        self.name.as_str()
    }

    /// The hundredths of an acre: an exact area, rounded once, half up.
    pub fn hundredths(&self) -> u64
        ensures { result ≡ self.now.hundredths }
    {
        self.hundredths
    }
}

/// The figures of an account. Each is an exact area, rounded once, in hundredths of an acre.
#[derive(Drop)]
pub struct AccountFigures {
    /// Those of the tracts, in the order of the list.
    pub tracts: Vec<TractFigure>,
    /// That of all places in at least one tract.
    pub total: u64,
    /// That of all other places in the township.
    pub remaining: u64,
}

/// The figures of the account of a list of tracts on a plat, or the list's first fault.
pub fn figures_on(alloc: Global, plat: &Plat, list: &[u8]) -> Result<AccountFigures, TractFault>
    ensures account { IfOk result (λ figures.
        IsAccountOf plat.now list.now (text_of_figures figures)) }
    ensures count { IfOk result (λ figures.
        length figures.tracts.items ≡ length (tract_records list.now)) }
    ensures fault { IfErr result (AnswersFault STANDARD_LOTS plat.now.township list.now) }
{
    if list.len() > TRACTS_LIMIT as usize {
        return Err(TractFault::TractsTooLarge);
    }
    let records = &mut Records::new(alloc, list);
    let mut row = ByteRecord::new(alloc);
    if !records.read(&mut row)? {
        return Err(TractFault::TractRow(1));
    }
    if !is_heading(&row) {
        return Err(TractFault::TractRow(1));
    }
    let mut account: RunningAccount<Lanes> = RunningAccount::new(alloc, plat);
    let tracts = take_figures(alloc, plat, records, &mut row, &mut account)?;
    Ok(AccountFigures {
        tracts,
        total: account.totals.total.hundredths(),
        remaining: account.totals.remaining.hundredths(),
    })
}

/// Adds the tracts of the remaining records, which come after the heading, to an account without
/// tracts, and returns their figures.
fn take_figures<L: Land>(
    alloc: Global,
    plat: &Plat,
    records: &mut Records<'_>,
    row: &mut ByteRecord,
    account: &mut RunningAccount<L>,
) -> Result<Vec<TractFigure>, TractFault>
    requires reading { IsBetweenRecords records.old }
    requires empty { IsTallyOf plat.now (records_left records.old) 0 (tally_of L.places account.old) }
    requires no_text { account.old.text.items ≡ [] }
    ensures taken { OnOk result (IsTallyOf plat.now (records_left records.old)
        (length (records_left records.old)) (tally_of L.places account.new)) }
    ensures few { IfOk result (λ _. length (records_left records.old) ≤ TRACTS_MOST) }
    ensures lines { IfOk result (λ figures.
        account.new.text.items ≡ flat_map line_of figures.items) }
    ensures count { IfOk result (λ figures.
        length figures.items ≡ length (records_left records.old)) }
    ensures fault { IfErr result
        (AreTractsRefused STANDARD_LOTS plat.now.township (records_left records.old)) }
{
    let mut figures = Vec::new(alloc);
    let mut taken = 0;
    'records: while records.read(row)? {
        if taken == TRACTS_MOST {
            return Err(TractFault::TooManyTracts);
        }
        let hundredths = account.take(alloc, plat, row, taken + FIRST_TRACT)?;
        figures.push(figure_of(row, hundredths))?;
        taken += 1;
    }
    Ok(figures)
}

/// The figure of the tract of a record, whose hundredths of an acre are these.
pub fn figure_of(row: &ByteRecord, hundredths: u64) -> TractFigure
    requires { IsTractRecord (fields_of row.now) }
    ensures name { result.name.bytes ≡ name_in (fields_of row.now) }
    ensures acres { result.hundredths ≡ hundredths }
{
    let tract = tract_of(row).unwrap();
    let Ok(name) = ArrayString::from(tract.name) else {
        unreachable!();
    };
    TractFigure { name, hundredths }
}
