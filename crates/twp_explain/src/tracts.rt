//! What is wrong with lists of tracts.
ghost use Rattle.std.specs.Prelude.{◌≡◌, ◌≤◌, ◌↔◌, None, IfOk, IfErr, IfSome, IsTrue, OnOk};
ghost use Rattle.csv.specs.Records.{fields_of};
ghost use Rattle.twp_notes.specs.Records.{records_of};
ghost use Rattle.twp_answers.specs.Tracts.{name_in};
ghost use Rattle.twp_diagnose.specs.RecordFields.{fields_listed, listed_span, number_listed};
ghost use Rattle.twp_diagnose.specs.RecordFields.{start_listed, IsListedAt};
ghost use Rattle.twp_diagnose.specs.declared.location.Location.TheVariants.{Field, Line, Whole};
ghost use Rattle.twp_diagnose.specs.Findings.{IfFinds};
ghost use Rattle.twp_explain.specs.BlamedTracts.{IsFirstNamed, IsRefusedTract, IsShownInRecord};
ghost use Rattle.twp_explain.specs.BlamedTracts.{ShowsTract, ShowsTractFault, description_listed};
ghost use Rattle.twp_explain.specs.BlamedTracts.{place_in_list};
ghost use Rattle.twp_explain.specs.OtherTracts.{IsFieldOf, IsNamedBefore, IsOtherInRecord};
ghost use Rattle.twp_explain.specs.OtherTracts.{IsOtherTract, IsSharedBefore};
ghost use Rattle.twp_explain.specs.Refusals.{DescribeLand};
ghost use Rattle.twp_grid.specs.Lands.{lotting};

use crate::explaining::describe;
use crate::rows;
use crate::sharing::{FIRST_TRACT, first_sharing_record};
use csv::ByteRecord;
use std::alloc::{AllocError, Global};
use twp_answers::TractFault;
use twp_diagnose::{
    Finding, Given, Listed, Location, Origin, OtherPlace, SearchStop, Suggests, text_in,
};
use twp_excerpt::write_escaped;
use twp_grid::{Refusal, Township};
use twp_land::{Land, Lanes, Lotting};
use twp_notes::Records;
use twp_sentences::write_land;
use twp_spell::spell;

/// The explanation of a list of tracts that has a fault, on the plat of a township.
#[inline(never)]
pub(crate) fn find<S: Suggests, P: Lotting>(
    alloc: Global,
    tracts: &Given<'_>,
    township: Township,
    lots: &P,
    fault: TractFault,
    refusal: Refusal,
) -> Result<Finding, AllocError>
    ensures refusal { IfOk result (λ finding. finding.refusal ≡ refusal) }
    ensures place { 1 ≤ refusal.at → IfOk result (λ finding. ShowsTractFault tracts.now
        (lotting (P.layout lots.now)) township fault refusal.at finding.place) }
    ensures other { 1 ≤ refusal.at → IfOk result (λ finding. IsOtherTract tracts.now
        (lotting (P.layout lots.now)) township fault refusal.at finding.other) }
{
    let Some(listed) = Listed::numbered(alloc, *tracts, refusal.at)? else {
        return find_none(alloc, fault, refusal);
    };
    let mut finding = Finding {
        refusal,
        place: Location::Line(listed.start()),
        sentence: String::new(alloc),
        help: String::new(alloc),
        other: None,
        reading: None,
    };
    explain::<S, P>(alloc, &listed, township, lots, fault, &mut finding)?;
    Ok(finding)
}

/// Explains the fault of a record, which is shown as a line unless more is known of it.
fn explain<S: Suggests, P: Lotting>(
    alloc: Global,
    listed: &Listed<'_>,
    township: Township,
    lots: &P,
    fault: TractFault,
    finding: &mut Finding,
) -> Result<(), AllocError>
    ensures refusal { finding.new.refusal ≡ finding.old.refusal }
    ensures place { finding.old.place ≡ Line (start_listed listed.now) → finding.old.other ≡ None
        → OnOk result (IsShownInRecord (lotting (P.layout lots.now)) township listed.now fault
        finding.new.place) }
    ensures other { finding.old.other ≡ None → finding.old.place ≡ Line (start_listed listed.now)
        → 1 ≤ number_listed listed.now
        → IsListedAt listed.now.file (number_listed listed.now) listed.now
        → OnOk result (IsOtherInRecord (lotting (P.layout lots.now)) township listed.now fault
        finding.new.other) }
{
    match fault {
        TractFault::TractRow(_) => rows::explain(alloc, listed, finding),
        TractFault::NameRepeated(_) => explain_name(alloc, listed, finding),
        TractFault::TractRefused { .. } => {
            explain_tract::<S, P>(alloc, listed, township, lots, finding)
        }
        TractFault::TractsOverlap(_) => explain_overlap(alloc, listed, township, lots, finding),
        _ => explain_many(listed, finding),
    }
}

/// The explanation of a list of too many bytes, or without a heading.
pub(crate) fn find_none(
    alloc: Global,
    fault: TractFault,
    refusal: Refusal,
) -> Result<Finding, AllocError>
    ensures refusal { IfOk result (λ finding. finding.refusal ≡ refusal) }
    ensures place { IfOk result (λ finding. finding.place ≡ Whole) }
    ensures other { IfOk result (λ finding. finding.other ≡ None) }
{
    let mut sentence = String::new(alloc);
    let mut help = String::new(alloc);
    if let TractFault::TractRow(_) = fault {
        sentence.push_str("the list is empty: it begins with `name,description`")?;
    } else {
        sentence.push_str("the list of tracts is longer than 1,048,576 bytes")?;
        help.push_str("split the list in two")?;
    }
    Ok(Finding::new(refusal, Location::Whole, sentence, help))
}

/// Explains that a record is one tract too many.
fn explain_many(listed: &Listed<'_>, finding: &mut Finding) -> Result<(), AllocError>
    ensures refusal { finding.new.refusal ≡ finding.old.refusal }
    ensures place { finding.new.place ≡ finding.old.place }
    ensures other { finding.new.other ≡ finding.old.other }
{
    write!(
        finding.sentence,
        "there are more than 1,000 tracts: record {} is one too many",
        listed.number()
    )?;
    finding.help.push_str("split the list in two")
}

/// Explains why a tract with the name of an earlier one is refused.
#[inline(never)]
fn explain_name(alloc: Global, listed: &Listed<'_>, finding: &mut Finding) -> Result<(), AllocError>
    ensures refusal { finding.new.refusal ≡ finding.old.refusal }
    ensures place { OnOk result (finding.new.place ≡ Field (listed_span listed.now 0)) }
    ensures other { finding.old.other ≡ None → 1 ≤ number_listed listed.now
        → IsListedAt listed.now.file (number_listed listed.now) listed.now
        → OnOk result (IfSome finding.new.other (IsNamedBefore listed.now)) }
{
    finding.place = Location::Field(listed.span(0));
    write_tract(listed, &mut finding.sentence)?;
    finding
        .sentence
        .push_str(" has the same name as an earlier tract")?;
    let number = first_named(alloc, listed)?;
    let Some(earlier) = Listed::numbered(alloc, listed.file, number)? else {
        return Ok(());
    };
    finding.other = Some(other_place(&earlier, 0));
    write!(
        finding.sentence,
        ", record {number} on line {}",
        earlier.line()
    )
}

/// Where a field of an earlier record is.
fn other_place(earlier: &Listed<'_>, place: usize) -> OtherPlace
    ensures { IsFieldOf earlier.now place result }
{
    OtherPlace {
        number: earlier.number(),
        span: earlier.span(place),
    }
}

/// The number of the first tract's record that has the name of one.
#[inline(never)]
fn first_named(alloc: Global, listed: &Listed<'_>) -> Result<u32, AllocError>
    ensures { IsListedAt listed.now.file (number_listed listed.now) listed.now
        → IfOk result (IsFirstNamed (records_of listed.now.file.bytes.now)
        (name_in (fields_listed listed.now)) (number_listed listed.now)) }
{
    let last = listed.number();
    let mut records = Records::new(alloc, listed.file.bytes);
    let mut row = ByteRecord::new(alloc);
    'records: for number in 1..last {
        if !records.read(&mut row)? {
            return Ok(last);
        }
        if is_named(number, &row, listed.field(0)) {
            return Ok(number);
        }
    }
    Ok(last)
}

/// Whether a record is one of a tract with this name.
fn is_named(number: u32, row: &ByteRecord, name: &[u8]) -> bool
    ensures { IsTrue result ↔ ((2 ≤ number) × (name_in (fields_of row.now) ≡ name.now)) }
{
    number >= FIRST_TRACT && are_same(text_in(row, 0), name)
}

/// Whether two texts are the same.
fn are_same(first: &[u8], second: &[u8]) -> bool
    ensures { IsTrue result ↔ (first.now ≡ second.now) }
{
    first == second
}

/// Explains why the description of a tract is refused.
#[inline(never)]
fn explain_tract<S: Suggests, P: Lotting>(
    alloc: Global,
    listed: &Listed<'_>,
    township: Township,
    lots: &P,
    finding: &mut Finding,
) -> Result<(), AllocError>
    ensures refusal { finding.new.refusal ≡ finding.old.refusal }
    ensures shows { finding.old.place ≡ Line (start_listed listed.now) → finding.old.other ≡ None
        → OnOk result (ShowsTract (lotting (P.layout lots.now)) township listed.now finding.new.place
        finding.new.other) }
{
    write_tract(listed, &mut finding.sentence)?;
    let inner = match describe_tract::<S, P>(alloc, listed, township, lots) {
        Err(SearchStop::Found(inner)) => inner,
        Err(SearchStop::Memory) => return Err(AllocError),
        Ok(()) => return finding.sentence.push_str(" has an invalid description"),
    };
    finding.sentence.push_str(": ")?;
    finding.sentence.push_str(inner.sentence.as_str())?;
    finding.place = shown_in_list(inner.place, listed);
    finding.other = inner.other;
    if is_quoted(&inner, listed) {
        return finding.help.push_str(
            "delete the quotation marks: the spreadsheet adds those that it needs",
        );
    }
    finding.reading = inner.reading;
    finding.help.push_str(inner.help.as_str())
}

/// Where in its list the place of a description is shown: on the tract's line, if it is shown as a whole.
fn shown_in_list(place: Location, listed: &Listed<'_>) -> Location
    ensures { result ≡ place_in_list place listed.now }
{
    match place {
        Location::Whole => Location::Line(listed.start()),
        _ => place,
    }
}

/// Whether a description is refused because it begins with a quotation mark.
fn is_quoted(inner: &Finding, listed: &Listed<'_>) -> bool {
    inner.refusal.number == 42 && inner.refusal.at == 0 && listed.field(1).first() == Some(&b'"')
}

/// Goes through the description of a tract, or gives what is wrong with it.
fn describe_tract<S: Suggests, P: Lotting>(
    alloc: Global,
    listed: &Listed<'_>,
    township: Township,
    lots: &P,
) -> Result<(), SearchStop>
    ensures land { IfOk result (λ _. DescribeLand (lotting (P.layout lots.now)) township
        (description_listed listed.now)) }
    ensures shown { IfErr result (λ stop. IfFinds stop
        (IsRefusedTract (lotting (P.layout lots.now)) township listed.now)) }
{
    let origin = Origin::of_field(listed.file, listed.span(1).start);
    describe::<S, P>(alloc, &origin, listed.field(1), township, lots)
}

/// Explains why a tract that shares land with an earlier one is refused.
#[inline(never)]
fn explain_overlap<P: Lotting>(
    alloc: Global,
    listed: &Listed<'_>,
    township: Township,
    lots: &P,
    finding: &mut Finding,
) -> Result<(), AllocError>
    ensures refusal { finding.new.refusal ≡ finding.old.refusal }
    ensures place { finding.new.place ≡ finding.old.place }
    ensures other { finding.old.other ≡ None
        → OnOk result (IfSome finding.new.other
        (IsSharedBefore (lotting (P.layout lots.now)) township listed.now)) }
{
    write_tract(listed, &mut finding.sentence)?;
    let mut common = Lanes::empty();
    let Some(earlier) = first_sharing_record(alloc, listed, township, lots, &mut common)? else {
        return finding.sentence.push_str(" overlaps an earlier tract");
    };
    finding.sentence.push_str(" overlaps ")?;
    write_tract(&earlier, &mut finding.sentence)?;
    finding.other = Some(other_place(&earlier, 1));
    let number = earlier.number();
    write!(finding.sentence, " (record {number}); both include ")?;
    let land = spell(alloc, &common, township, lots)?;
    write_land(land.as_slice(), &mut finding.sentence)
}

/// Appends the name of a tract, as in tract `A`.
pub(crate) fn write_tract(listed: &Listed<'_>, text: &mut String) -> Result<(), AllocError> {
    text.push_str("tract `")?;
    write_escaped(listed.field(0), text)?;
    text.push_str("`")
}
