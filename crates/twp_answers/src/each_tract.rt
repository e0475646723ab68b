//! The answer to each tract of a list, whatever is wrong with the others.
ghost use Rattle.std.specs.Prelude.{◌≡◌, ◌≤◌, ◌∷◌, length, IfOk, IfErr, MatchOption};
ghost use Rattle.csv.specs.Records.{fields_of};
ghost use Rattle.twp_notes.specs.Records.{records_left, IsBetweenRecords};
ghost use Rattle.twp_answers.specs.EachTract.{AnswersByTable, AnswersOnPlat, AreAnswersTo};
ghost use Rattle.twp_answers.specs.EachTract.{IsListFault, IsListOfRecords};
ghost use Rattle.twp_answers.specs.Tracts.{TRACTS_LIMIT, TRACTS_MOST, name_in, tract_records};
ghost use Rattle.twp_answers.specs.Tracts.{tracts_heading};
ghost use Rattle.twp_answers.specs.Tracts.{IsTractName};
ghost use Rattle.twp_answers.specs.steps.EachTaking.{AnswersLand, HasNoHeadingIn, StopsTaking, TakesName};
ghost use Rattle.twp_answers.specs.steps.EachTaking.{TakesRecord};

use crate::measuring::{Answering, ByTable};
use crate::names::NamesSoFar;
use crate::tract::{NAME_MOST, is_heading, name_of, tract_of};
use crate::tract_fault::{TRACTS_LIMIT, TRACTS_MOST, TractFault};
use crate::tracts::FIRST_TRACT;
use arrayvec::ArrayString;
use csv::ByteRecord;
use std::alloc::{AllocError, Global};
use twp_grid::Township;
use twp_notes::{Records, field};
use twp_plat::{Plat, ReturnedLots};

/// The answer to a tract of a list.
#[derive(Clone, Copy)]
pub struct TractAnswer {
    name: ArrayString<NAME_MOST>,
    /// The tract's hundredths of an acre, or its first fault, apart from overlaps with other tracts.
    pub answer: Result<u64, TractFault>,
}

impl TractAnswer {
    ghost use Rattle.std.specs.Prelude.{◌≡◌, ◌≤◌, length};
    ghost use Rattle.twp_answers.specs.Tracts.{NAME_MOST};

    /// The tract's name, which is empty if the record is not a tract's.
    pub fn name(&self) -> &str
        ensures name { result.now ≡ self.now.name.bytes }
        ensures most { length result.now ≤ NAME_MOST }
    {
        self.name.as_str()
    }
}

/// The answer to each tract of a list on a plat, or why the list has no tracts to answer.
pub fn each_on(alloc: Global, plat: &Plat, list: &[u8]) -> Result<Vec<TractAnswer>, TractFault>
    ensures list { IfOk result (λ _. IsListOfRecords list.now) }
    ensures answers { IfOk result (λ answers. AreAnswersTo (AnswersOnPlat plat.now)
        (tract_records list.now) (length (tract_records list.now)) answers.items) }
    ensures fault { IfErr result (IsListFault list.now) }
{
    each_by(alloc, plat, list)
}

/// The same by a lot table. If the table lacks a lot of a tract, the tract's fault is
/// `TractFault::TractRefused`, and the refusal inside it is 94, at the lot.
pub fn each_by_lots(
    alloc: Global,
    township: Township,
    lots: &ReturnedLots,
    list: &[u8],
) -> Result<Vec<TractAnswer>, TractFault>
    ensures list { IfOk result (λ _. IsListOfRecords list.now) }
    ensures answers { IfOk result (λ answers. AreAnswersTo (AnswersByTable township lots.now)
        (tract_records list.now) (length (tract_records list.now)) answers.items) }
    ensures fault { IfErr result (IsListFault list.now) }
{
    each_by(alloc, &ByTable { township, lots }, list)
}

/// The answer to each tract of a list by what answers its descriptions.
fn each_by<M: Answering>(alloc: Global, by: &M, list: &[u8]) -> Result<Vec<TractAnswer>, TractFault>
    ensures list { IfOk result (λ _. IsListOfRecords list.now) }
    ensures answers { IfOk result (λ answers. AreAnswersTo (M.answers by.now)
        (tract_records list.now) (length (tract_records list.now)) answers.items) }
    ensures fault { IfErr result (IsListFault list.now) }
{
    if list.len() > TRACTS_LIMIT as usize {
        return Err(TractFault::TractsTooLarge);
    }
    let records = &mut Records::new(alloc, list);
    let mut row = ByteRecord::new(alloc);
    pass_heading(records, &mut row)?;
    take_records(alloc, by, records, &mut row)
}

/// Reads the heading, which is the first record.
pub(crate) fn pass_heading(
    records: &mut Records<'_>,
    row: &mut ByteRecord,
) -> Result<(), TractFault>
    requires { IsBetweenRecords records.old }
    ensures passed { IfOk result (λ _. (records_left records.old
        ≡ tracts_heading ∷ records_left records.new) × IsBetweenRecords records.new) }
    ensures fault { IfErr result (HasNoHeadingIn (records_left records.old)) }
{
    if !records.read(row)? {
        return Err(TractFault::TractRow(1));
    }
    if !is_heading(row) {
        return Err(TractFault::TractRow(1));
    }
    Ok(())
}

/// The answers to the remaining records, which come after the heading.
fn take_records<M: Answering>(
    alloc: Global,
    by: &M,
    records: &mut Records<'_>,
    row: &mut ByteRecord,
) -> Result<Vec<TractAnswer>, TractFault>
    requires { IsBetweenRecords records.old }
    ensures few { IfOk result (λ _. length (records_left records.old) ≤ TRACTS_MOST) }
    ensures answers { IfOk result (λ answers. AreAnswersTo (M.answers by.now) (records_left records.old)
        (length (records_left records.old)) answers.items) }
    ensures fault { IfErr result (StopsTaking (records_left records.old)) }
{
    let mut answers = Vec::new(alloc);
    let mut names = NamesSoFar::new(alloc);
    let mut taken = 0;
    'records: while records.read(row)? {
        if taken == TRACTS_MOST {
            return Err(TractFault::TooManyTracts);
        }
        let answer = answer_to(alloc, by, row, taken + FIRST_TRACT, &mut names)?;
        answers.push(answer)?;
        taken += 1;
    }
    Ok(answers)
}

/// The answer to the record with this number, after others with these names.
#[tactic(auto, using(crate::proofs::EachFacts::takes_no_tract, crate::proofs::EachFacts::takes_repeated, crate::proofs::EachFacts::takes_land))]
fn answer_to<M: Answering>(
    alloc: Global,
    by: &M,
    row: &ByteRecord,
    number: u32,
    names: &mut NamesSoFar,
) -> Result<TractAnswer, AllocError>
    ensures { IfOk result (λ given.
        TakesRecord (M.answers by.now) (fields_of row.now) number names.old names.new given) }
{
    let is_new = add_name(row, names)?;
    let Some(tract) = tract_of(row) else {
        return Ok(TractAnswer {
            name: ArrayString::new(),
            answer: Err(TractFault::TractRow(number)),
        });
    };
    let Ok(name) = ArrayString::from(tract.name) else {
        unreachable!();
    };
    if !is_new {
        let answer = Err(TractFault::NameRepeated(number));
        return Ok(TractAnswer { name, answer });
    }
    let answer = land_answer(alloc, by, tract.description, number)?;
    Ok(TractAnswer { name, answer })
}

/// Adds the name of a record, if a tract can have it, and returns whether no earlier record has it.
#[tactic(auto, using(crate::proofs::EachFacts::name_taken, crate::proofs::EachFacts::no_name_taken))]
fn add_name(row: &ByteRecord, names: &mut NamesSoFar) -> Result<bool, AllocError>
    ensures { IfOk result (λ is_new. TakesName (fields_of row.now) names.old names.new is_new) }
{
    let Some(name) = name_of_record(row) else {
        return Ok(true);
    };
    names.add(name)
}

/// The name in a record, if a tract can have it.
fn name_of_record(row: &ByteRecord) -> Option<&str>
    ensures { MatchOption result (¬ (IsTractName (name_in (fields_of row.now))))
        (λ name. IsTractName (name_in (fields_of row.now)) × (name.now ≡ name_in (fields_of row.now))) }
{
    if row.is_empty() {
        return None;
    }
    name_of(field(row, 0))
}

/// The acres of the land of the tract with this number, or the refusal of its description.
fn land_answer<M: Answering>(
    alloc: Global,
    by: &M,
    description: &[u8],
    number: u32,
) -> Result<Result<u64, TractFault>, AllocError>
    ensures { IfOk result (AnswersLand (M.answers by.now) description.now number) }
{
    match by.answer(alloc, description)? {
        Ok(hundredths) => Ok(Ok(hundredths)),
        Err(inner) => Ok(Err(TractFault::TractRefused { at: number, inner })),
    }
}
