//! The answers on an existing plat: each is for a plat and the bytes of a description. Also the land that
//! a description names, as a value that the caller keeps, and its acres; and the stages of an answer: the
//! plat of field notes, and the land of a description.
ghost use Rattle.std.specs.Prelude.{◌≡◌, ℕ, List, IfOk, IfErr, ◌++◌, OnOk, false};
ghost use Rattle.twp_grid.specs.Townships.{Designation};
ghost use Rattle.twp_read.specs.Doubts.{HasNoDoubtfulPlace};
ghost use Rattle.twp_read.specs.TextFaults.{IsReadAs};
ghost use Rattle.twp_answers.specs.OnPlats.{AnswersOn, HasAcresOn, HasAreaOn, HasNormalOn, StopsOn};
ghost use Rattle.twp_answers.specs.ReportAnswers.{IsAccountOf};
ghost use Rattle.twp_answers.specs.TractFaults.{AnswersFault};
ghost use Rattle.twp_answers.specs.Answers.{acres_line};
ghost use Rattle.twp_grid.specs.Places.{PLACE_DIGITS};
ghost use Rattle.twp_grid.specs.Lands.{HasWholeLots, STANDARD_LOTS, lotting};
ghost use Rattle.twp_answers.specs.OnLands.{IsLandOf, AnswersIn, AreAcresOf};
ghost use Rattle.twp_notes.specs.FieldNotes.{NOTES_MOST};
ghost use Rattle.twp_answers.specs.PlatReading.{IsPlatted, ReadsUpTo};
ghost use Rattle.twp_answers.specs.Uses.{Reads, used};
ghost use Rattle.twp_answers.specs.steps.Stops.{IfFailed, IsLandOrRefusal};
ghost use Rattle.twp_answers.specs.declared.stop.Stop.TheVariants.{Failed};
ghost use Rattle.twp_answers.specs.declared.stop.RunFault.{RunFault};

use crate::stop::Stop;
use crate::tract_fault::{TRACTS_LIMIT, TractFault};
use crate::tracts::account_of;
use std::alloc::{AllocError, Global};
use twp_grid::{Source, Township};
use twp_land::{Land, Lanes, Lotting, OneLanes, PlaceSet, StandardLots, WholeSections};
use twp_measure::{Area, write_acres};
use twp_notes::Notes;
use twp_plat::{Account, Plat, area_by};
use twp_read::{Clarity, Description, Noted};
use twp_resolve::{may_be_whole, names_one_section, resolve_if_room, resolve_into, resolve_whole};
use twp_spell::{spell, spell_set};

/// The acres of the land described on a plat, by an account: the exact area in hundredths of an
/// acre, rounded once, half up. `Stop::Refused` is the first fault of the description, at its byte;
/// `Stop::Failed` means that memory ran out.
pub fn acres_on(
    alloc: Global,
    plat: &Plat,
    description: &[u8],
    account: Account,
) -> Result<u64, Stop>
    ensures { AnswersOn (HasAcresOn plat.now description.now account)
        plat.now description.now result }
{
    let area = area_on(alloc, plat, description, account)?;
    Ok(area.hundredths())
}

/// The area of the land described on a plat, by an account, which `acres_on` rounds.
pub fn area_on(
    alloc: Global,
    plat: &Plat,
    description: &[u8],
    account: Account,
) -> Result<Area, Stop>
    ensures { AnswersOn (HasAreaOn plat.now description.now account)
        plat.now description.now result }
{
    let noted = read_noting(alloc, description)?;
    area_described(plat, &noted.description, account)
}

/// The canonical text of the land described on a plat, or why there is none, as for `acres_on`.
pub fn normal_on(alloc: Global, plat: &Plat, description: &[u8]) -> Result<Vec<u8>, Stop>
    ensures { AnswersOn (λ text. HasNormalOn plat.now description.now text.items)
        plat.now description.now result }
{
    let noted = read_noting(alloc, description)?;
    normal_described(alloc, plat, &noted.description)
}

/// Reads a description, and notes whether a place in it may be doubtful.
pub fn read_noting(alloc: Global, description: &[u8]) -> Result<Noted, Stop>
    ensures read { IfOk result (λ noted. IsReadAs description.now noted.description) }
    ensures stopped { IfErr result (λ stop. (township : Designation)
        → StopsOn STANDARD_LOTS township description.now stop) }
    ensures clear { IfOk result (λ noted.
        noted.clarity ≡ Clarity.Clear → HasNoDoubtfulPlace description.now) }
{
    Ok(Description::read_noting(alloc, description)?)
}

/// The area of the land that a description which was read names on a plat, by an account.
pub fn area_described(
    plat: &Plat,
    description: &Description,
    account: Account,
) -> Result<Area, Stop>
    ensures { (text : List ℕ) → IsReadAs text description.now
        → AnswersOn (HasAreaOn plat.now text account) plat.now text result }
{
    if may_be_whole(description) {
        return area_of_whole(plat, description, account);
    }
    if !names_one_section(description) {
        return area_in_all(plat, description, account);
    }
    let mut land = OneLanes::empty();
    if !resolve_if_room(&mut land, description, plat.township(), &StandardLots)? {
        return area_in_all(plat, description, account);
    }
    Ok(area_by(account, plat, &land))
}

/// The same, if it may name whole sections alone, for which a smaller set of land is enough.
#[inline(never)]
fn area_of_whole(plat: &Plat, description: &Description, account: Account) -> Result<Area, Stop>
    ensures { (text : List ℕ) → IsReadAs text description.now
        → AnswersOn (HasAreaOn plat.now text account) plat.now text result }
{
    let mut sections = WholeSections::empty();
    if !resolve_whole(&mut sections, description, plat.township()) {
        return area_in_all(plat, description, account);
    }
    Ok(area_by(account, plat, &sections))
}

/// The same in however many sections it names land. The set of land is cleared where this function
/// begins, which land in one section doesn't need.
#[inline(never)]
fn area_in_all(plat: &Plat, description: &Description, account: Account) -> Result<Area, Stop>
    ensures { (text : List ℕ) → IsReadAs text description.now
        → AnswersOn (HasAreaOn plat.now text account) plat.now text result }
{
    let mut lanes = Lanes::empty();
    resolve_into(&mut lanes, description, plat.township(), &StandardLots)?;
    Ok(area_by(account, plat, &lanes))
}

/// The canonical text of the land that a description which was read names on a plat.
pub fn normal_described(
    alloc: Global,
    plat: &Plat,
    description: &Description,
) -> Result<Vec<u8>, Stop>
    ensures { (text : List ℕ) → IsReadAs text description.now
        → AnswersOn (λ written. HasNormalOn plat.now text written.items) plat.now text result }
{
    if may_be_whole(description) {
        return normal_of_whole(alloc, plat, description);
    }
    if !names_one_section(description) {
        return normal_in_all(alloc, plat, description);
    }
    let mut land = OneLanes::empty();
    if !resolve_if_room(&mut land, description, plat.township(), &StandardLots)? {
        return normal_in_all(alloc, plat, description);
    }
    Ok(spell_set(alloc, &land, plat.township(), &StandardLots)?)
}

/// The same, if it may name whole sections alone, as for its area.
#[inline(never)]
fn normal_of_whole(alloc: Global, plat: &Plat, description: &Description) -> Result<Vec<u8>, Stop>
    ensures { (text : List ℕ) → IsReadAs text description.now
        → AnswersOn (λ written. HasNormalOn plat.now text written.items) plat.now text result }
{
    let mut sections = WholeSections::empty();
    if !resolve_whole(&mut sections, description, plat.township()) {
        return normal_in_all(alloc, plat, description);
    }
    Ok(spell_set(alloc, &sections, plat.township(), &StandardLots)?)
}

/// The same in however many sections it names land, as for its area.
#[inline(never)]
fn normal_in_all(alloc: Global, plat: &Plat, description: &Description) -> Result<Vec<u8>, Stop>
    ensures { (text : List ℕ) → IsReadAs text description.now
        → AnswersOn (λ written. HasNormalOn plat.now text written.items) plat.now text result }
{
    let mut lanes = Lanes::empty();
    resolve_into(&mut lanes, description, plat.township(), &StandardLots)?;
    Ok(spell(alloc, &lanes, plat.township(), &StandardLots)?)
}

/// The text of the account of a list of tracts on a plat, or the list's first fault.
pub fn account_on(alloc: Global, plat: &Plat, list: &[u8]) -> Result<Vec<u8>, TractFault>
    ensures account { IfOk result (λ text. IsAccountOf plat.now list.now text.items) }
    ensures fault { IfErr result (AnswersFault STANDARD_LOTS plat.now.township list.now) }
{
    if list.len() > TRACTS_LIMIT as usize {
        return Err(TractFault::TractsTooLarge);
    }
    let account = account_of(alloc, plat, list)?;
    Ok(account.text)
}

/// Appends the line of a number of hundredths of an acre, such as `40.45 acres`.
pub fn write_acres_line(hundredths: u64, text: &mut Vec<u8>) -> Result<(), AllocError>
    ensures ok { OnOk result (text.new.items ≡ text.old.items ++ acres_line hundredths) }
{
    write_acres(hundredths, text)?;
    text.extend_from_slice(b" acres\n")
}

/// The land that a description names in a township, or why there is none, as for `acres_on`. It
/// depends on the township's designation and the lots of its plat alone.
pub fn land_of<P: Lotting>(
    alloc: Global,
    township: Township,
    description: &[u8],
    lots: &P,
) -> Result<Lanes, Stop>
    ensures { AnswersIn (λ land. IsLandOf (lotting (P.layout lots.now)) township description.now
        (⟦<Lanes as PlaceSet>⟧.places land))
        (lotting (P.layout lots.now)) township description.now result }
{
    let mut land = Lanes::empty();
    describe_into(alloc, &mut land, township, description, lots)?;
    Ok(land)
}

/// The hundredths of an acre of land on a plat, by an account.
pub fn acres_of<L: Land>(plat: &Plat, land: &L, account: Account) -> u64
    requires whole { HasWholeLots STANDARD_LOTS (L.places land.now) }
    ensures { AreAcresOf plat.now account (L.places land.now) result }
{
    area_by(account, plat, land).hundredths()
}

/// The plat of the notes from a source, or the first fault of the notes or of their lines.
/// `Stop::Failed` means that the source failed, or that memory ran out.
pub fn read_plat<N: Source>(alloc: Global, notes: &mut N) -> Result<Plat, Stop>
    requires { N.has_failed notes.old ≡ false }
    ensures reads { ReadsUpTo Failed NOTES_MOST
        (used (N.remaining notes.old) (N.remaining notes.new) (N.has_failed notes.new))
        result }
    ensures plat { Reads (N.remaining notes.old) (λ n. IsPlatted n result) }
{
    let notes = Notes::read(alloc, notes)?;
    Ok(Plat::protract(&notes)?)
}

/// Sets `land` to that of a description, on the plat of a township with these lots, and returns whether a
/// place in the description may be doubtful. The previous content of `land` is lost.
pub fn describe_into<L: Land, P: Lotting>(
    alloc: Global,
    land: &mut L,
    township: Township,
    text: &[u8],
    lots: &P,
) -> Result<Clarity, Stop>
    ensures memory { IfErr result (λ stop. IfFailed stop (λ fault. fault ≡ RunFault.Memory)) }
    ensures land { IsLandOrRefusal (λ _. L.places land.new) (lotting (P.layout lots.now)) township
        text.now result }
    ensures whole_lots { OnOk result
        (HasWholeLots (lotting (P.layout lots.now)) (L.places land.new)) }
    ensures clear { IfOk result (λ clarity.
        clarity ≡ Clarity.Clear → HasNoDoubtfulPlace text.now) }
{
    let noted = Description::read_noting(alloc, text)?;
    resolve_into(land, &noted.description, township, lots)?;
    Ok(noted.clarity)
}
