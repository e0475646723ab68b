//! The list of tracts, added to an account record by record.
ghost use Rattle.std.specs.Prelude.{◌≡◌, ◌≤◌, length, OnOk, IfOk, IfErr};
ghost use Rattle.twp_notes.specs.Records.{records_left, IsBetweenRecords};
ghost use Rattle.twp_answers.specs.ClearTracts.{AreClearTracts, IsClearList};
ghost use Rattle.twp_answers.specs.Tracts.{TRACTS_LIMIT, TRACTS_MOST};
ghost use Rattle.twp_answers.specs.ReportAnswers.{IsAccountOf};
ghost use Rattle.twp_answers.specs.TractFaults.{AnswersFault};
ghost use Rattle.twp_answers.specs.steps.TractTaking.{tally_of, IsTallyOf, AreTractsRefused};
ghost use Rattle.twp_grid.specs.Lands.{STANDARD_LOTS};

use crate::names::NamesSoFar;
use crate::running_account::RunningAccount;
use crate::tract::is_heading;
use crate::tract_fault::{TRACTS_MOST, TractFault};
use csv::ByteRecord;
use std::alloc::Global;
use std::cmp::min;
use twp_land::{Land, Lanes};
use twp_notes::Records;
use twp_plat::Plat;
use twp_read::Clarity;

/// The number of the record after the heading, which is the first record of a tract.
pub const FIRST_TRACT: u32 = 2;

/// Room is reserved at the start for one name for each of this many bytes; most tracts take more.
const BYTES_TO_NAME: usize = 32;

/// The account of a list of tracts.
#[derive(Drop)]
pub struct ListAccount {
    pub text: Vec<u8>,
    /// Whether a place in a description of the list may be doubtful.
    pub clarity: Clarity,
}

/// The account of a list of tracts on a plat, or the list's first fault. The list is within its
/// limit of bytes.
pub fn account_of(alloc: Global, plat: &Plat, bytes: &[u8]) -> Result<ListAccount, TractFault>
    requires { length bytes.now ≤ TRACTS_LIMIT }
    ensures account { IfOk result (λ account. IsAccountOf plat.now bytes.now account.text.items) }
    ensures fault { IfErr result (AnswersFault STANDARD_LOTS plat.now.township bytes.now) }
    ensures clear { IfOk result (λ account.
        account.clarity ≡ Clarity.Clear → IsClearList bytes.now) }
{
    // Borrowed where it is made, because moving it would copy its buffers.
    let records = &mut Records::new(alloc, bytes);
    let mut row = ByteRecord::new(alloc);
    if !records.read(&mut row)? {
        return Err(TractFault::TractRow(1));
    }
    if !is_heading(&row) {
        return Err(TractFault::TractRow(1));
    }
    let mut account: RunningAccount<Lanes> = RunningAccount::new(alloc, plat);
    // Set after the account is in its final place, because moving it would copy its lands.
    account.tracts.names = NamesSoFar::with_room(
        alloc,
        min(bytes.len() / BYTES_TO_NAME, TRACTS_MOST as usize),
    )?;
    take_tracts(alloc, plat, records, &mut row, &mut account)?;
    account.totals.write(&mut account.text)?;
    Ok(ListAccount {
        text: account.text,
        clarity: account.tracts.clarity,
    })
}

/// Adds the tracts of the remaining records, which come after the heading, to an account without
/// tracts.
fn take_tracts<L: Land>(
    alloc: Global,
    plat: &Plat,
    records: &mut Records<'_>,
    row: &mut ByteRecord,
    account: &mut RunningAccount<L>,
) -> Result<(), TractFault>
    requires reading { IsBetweenRecords records.old }
    requires empty { IsTallyOf plat.now (records_left records.old) 0 (tally_of L.places account.old) }
    ensures taken { OnOk result (IsTallyOf plat.now (records_left records.old)
        (length (records_left records.old)) (tally_of L.places account.new)) }
    ensures few { IfOk result (λ _. length (records_left records.old) ≤ TRACTS_MOST) }
    ensures fault { IfErr result
        (AreTractsRefused STANDARD_LOTS plat.now.township (records_left records.old)) }
    ensures clear { OnOk result (account.new.tracts.clarity ≡ Clarity.Clear
        → AreClearTracts (records_left records.old) (length (records_left records.old))) }
{
    let mut taken = 0;
    'records: while records.read(row)? {
        if taken == TRACTS_MOST {
            return Err(TractFault::TooManyTracts);
        }
        account.take(alloc, plat, row, taken + FIRST_TRACT)?;
        taken += 1;
    }
    Ok(())
}
