//! What is wrong with a lot table.
ghost use Rattle.std.specs.Prelude.{◌≡◌, ◌≤◌, ◌<◌, length, IfOk, MatchOption};
ghost use Rattle.twp_notes.specs.Records.{records_of, record_numbered};
ghost use Rattle.twp_diagnose.specs.RecordFields.{fields_in};
ghost use Rattle.twp_sentences.specs.BlamedInTables.{IsOfTableRecord, IsTableRecordOf, ShowsBlamedInTable};
ghost use Rattle.twp_sentences.specs.OtherTableRecords.{IsOtherTableRecord};
ghost use Rattle.twp_sentences.specs.steps.EarlierRecords.{IsEarlierInTable};

use crate::field_notes::{EarlierRecord, other_of};
use crate::lot_tables::blamed::blamed_in_table;
use crate::lot_tables::earlier::first_for_lot;
use crate::lot_tables::faults::write_lots_fault;
use crate::lot_tables::lot_hints::write_lots_hint;
use std::alloc::{AllocError, Global};
use twp_diagnose::{Finding, Given, Location, Record};
use twp_grid::Refusal;
use twp_plat::LotsFault;

/// The explanation of a fault of a lot table.
pub(crate) fn find(
    alloc: Global,
    table: &Given<'_>,
    fault: LotsFault,
    refusal: Refusal,
) -> Result<Finding, AllocError>
    ensures refusal { IfOk result (λ finding. finding.refusal ≡ refusal) }
    ensures place { (IsOfTableRecord fault → 1 ≤ refusal.at) → IfOk result (λ finding.
        ShowsBlamedInTable table.now.bytes.now fault refusal.at finding.place) }
    ensures other { (IsOfTableRecord fault → 1 ≤ refusal.at) → IfOk result (λ finding.
        IsOtherTableRecord table.now.bytes.now fault refusal.at finding.other) }
{
    let Some(record) = refused_record(alloc, table, fault, refusal)? else {
        let sentence = whole_sentence(alloc, fault)?;
        let help = String::new(alloc);
        return Ok(Finding::new(refusal, Location::Whole, sentence, help));
    };
    let lot_fields = lot_fields_of(alloc, table)?;
    let fields = blamed_in_table(fault, &record, lot_fields);
    let mut sentence = String::new(alloc);
    write_lots_fault(fault, &record, fields.first, lot_fields, &mut sentence)?;
    let mut help = String::new(alloc);
    let earlier = earlier_of(alloc, table, fault, &record)?;
    if let Some(EarlierRecord { number, line, .. }) = earlier {
        write!(help, "record {number} at line {line} is also for this lot")?;
    }
    write_lots_hint(refusal, &record, fields.first, &mut help)?;
    Ok(Finding {
        refusal,
        place: Location::Field(record.span(fields.first, fields.last)),
        sentence,
        help,
        other: other_of(earlier),
        reading: None,
    })
}

/// The record that is refused. None where it isn't one record, or isn't there.
fn refused_record<'a>(
    alloc: Global,
    table: &Given<'a>,
    fault: LotsFault,
    refusal: Refusal,
) -> Result<Option<Record<'a>>, AllocError>
    ensures { (IsOfTableRecord fault → 1 ≤ refusal.at) → IfOk result (λ found. MatchOption found
        (IsOfTableRecord fault → length (records_of table.now.bytes.now) < refusal.at)
        (IsTableRecordOf table.now.bytes.now fault refusal.at)) }
{
    match fault {
        LotsFault::TooLarge | LotsFault::Empty | LotsFault::Read | LotsFault::Memory => Ok(None),
        _ => Record::numbered(alloc, table.bytes, refusal.at),
    }
}

/// How many fields a lot's record has: as many as the heading.
fn lot_fields_of(alloc: Global, table: &Given<'_>) -> Result<usize, AllocError>
    ensures { IfOk result
        (λ count. count ≡ length (record_numbered (records_of table.now.bytes.now) 1)) }
{
    match Record::numbered(alloc, table.bytes, 1)? {
        Some(heading) => Ok(heading.len()),
        None => Ok(0),
    }
}

/// What is wrong with a table as a whole.
fn whole_sentence(alloc: Global, fault: LotsFault) -> Result<String, AllocError> {
    match fault {
        LotsFault::TooLarge => {
            let text = "the lot table is longer than 65,536 bytes; 47 lots take less than 1,000";
            String::from_str(alloc, text)
        }
        LotsFault::Empty => {
            let text = "the lot table is empty: it begins with `section,lot,acres`";
            String::from_str(alloc, text)
        }
        LotsFault::Township => {
            let text =
                "the township is missing: write it as the second record, such as `T,2,N,3,W`";
            String::from_str(alloc, text)
        }
        _ => fault.to_string(alloc),
    }
}

/// The first record for the lot that a repeated record names; none for any other fault.
fn earlier_of(
    alloc: Global,
    table: &Given<'_>,
    fault: LotsFault,
    record: &Record<'_>,
) -> Result<Option<EarlierRecord>, AllocError>
    ensures { IfOk result
        (IsEarlierInTable table.now fault (fields_in «record».now) «record».now.number) }
{
    match fault {
        LotsFault::Repeated(_) => first_for_lot(alloc, table, record),
        _ => Ok(None),
    }
}
