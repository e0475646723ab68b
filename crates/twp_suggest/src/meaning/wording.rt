//! The description that comes of a changed text: the text, or the canonical description of what is left
//! without the land that it excepts.
ghost use Rattle.std.specs.Prelude.{◌≡◌, ◌≤◌, IfOk, IfSome, IsTrue, List, OnOk, drop, false, length};
ghost use Rattle.twp_grid.specs.Lands.{ContainsAll, SamePlaces, lotting};
ghost use Rattle.twp_grammar.specs.Sentences.{IsReadAs};
ghost use Rattle.twp_suggest.specs.Descriptions.{AreItemsOf, AreLotsNamed, IsAccepted, IsDescribed};
ghost use Rattle.twp_suggest.specs.Descriptions.{IsNoException, IsOfDivisions, IsRemainder, NamesTownship};
ghost use Rattle.twp_grammar.specs.declared.item.Item.{Item as Named};
ghost use Rattle.twp_suggest.specs.Descriptions.{as_written};
ghost use Rattle.twp_suggest.specs.Excepting.{HasNoSemicolon, IsParted, AreAroundExcept};
ghost use Rattle.twp_suggest.specs.Descriptions.{without_first_line};

use crate::meaning::kept::{EXCEPT, Excepting, around_except, divide, has_semicolon};
use crate::meaning::manner::Manner;
use crate::meaning::named::{find_with_lots, why_no_reading};
use crate::meaning::no_reading::NoReading;
use crate::meaning::on_plat::{first_township, read};
use crate::meaning::some_land::{find_some_land, find_text_with_lots};
use std::alloc::{AllocError, Global};
use twp_grammar::Item;
use twp_grid::Township;
use twp_land::{Land, Lanes, Lotting, OneLanes, PlaceSet};
use twp_read::Description;
use twp_resolve::{PlaceFault, names_one_section, resolve_if_room, resolve_into};
use twp_spell::spell;

/// The items of what is excepted, and the offset of its text in the changed text.
#[derive(Drop)]
pub struct Excepted {
    pub items: Description,
    pub at: usize,
}

/// A description derived from a changed text, the manner in which it was derived, and the items of
/// the changed text.
#[derive(Drop)]
pub struct Wording {
    pub text: Vec<u8>,
    pub manner: Manner,
    pub items: Description,
    pub excepted: Option<Excepted>,
}

/// The description that comes of a changed text in its township, or in any if it names none, on a plat with
/// these lots. None if it names some land twice, or a part that is too fine.
pub fn described<P: Lotting>(
    alloc: Global,
    made: Vec<u8>,
    has_except: bool,
    lots: &P,
) -> Result<Option<Wording>, NoReading>
    ensures described { IfOk result (λ it. IfSome it (λ found.
        IsDescribed (lotting (P.layout lots.now)) found.manner made.items found.text.items)) }
    ensures accepted { IfOk result (λ it. IfSome it (λ found. IsAccepted found.text.items)) }
    ensures items { IfOk result (λ it. IfSome it (λ found.
        AreItemsOf made.items found.items found.excepted)) }
{
    if has_except {
        let wording = without_excepted(alloc, made.as_slice(), lots)?;
        accept(alloc, wording.text.as_slice())?;
        return Ok(Some(wording));
    }
    let Some(description) = read(alloc, made.as_slice())? else {
        return Err(NoReading::Refused);
    };
    let Some(township) = first_township(description.items()) else {
        return Err(NoReading::Refused);
    };
    match is_on_plat(&description, township, lots) {
        Ok(()) => Ok(Some(Wording {
            text: made,
            manner: Manner::Changed,
            items: description,
            excepted: None,
        })),
        Err(PlaceFault::Overlap { .. } | PlaceFault::TooFine { .. }) => Ok(None),
        Err(PlaceFault::OnLot { .. }) => {
            let text = with_lots_named(alloc, made.as_slice(), &description, township, lots)?;
            accept(alloc, text.as_slice())?;
            Ok(Some(Wording {
                text,
                manner: Manner::LotsNamed,
                items: description,
                excepted: None,
            }))
        }
        Err(_) => Err(NoReading::Refused),
    }
}

/// Whether what a description names is on the plat of a township, or its first fault. Most descriptions name
/// land in one section, for which a small set of places is enough.
fn is_on_plat<P: Lotting>(
    description: &Description,
    township: Township,
    lots: &P,
) -> Result<(), PlaceFault> {
    if names_one_section(description) {
        let mut land = OneLanes::empty();
        if resolve_if_room(&mut land, description, township, lots)? {
            return Ok(());
        }
    }
    is_on_plat_in_all(description, township, lots)
}

/// The same for land in any sections. Not inlined, since its set of land would be cleared for each text.
#[inline(never)]
fn is_on_plat_in_all<P: Lotting>(
    description: &Description,
    township: Township,
    lots: &P,
) -> Result<(), PlaceFault> {
    let mut land = Lanes::empty();
    resolve_into(&mut land, description, township, lots)
}

/// Reads a canonical description.
fn accept(alloc: Global, text: &[u8]) -> Result<(), NoReading>
    ensures { OnOk result (IsAccepted text.now) }
{
    match read(alloc, text)? {
        Some(_) => Ok(()),
        None => Err(NoReading::Refused),
    }
}

/// The canonical description of the land of a text in which aliquot parts include whole lots.
#[tactic(auto, using(crate::proofs::meaning::NamedFacts::are_lots_named))]
#[inline(never)]
fn with_lots_named<P: Lotting>(
    alloc: Global,
    made: &[u8],
    description: &Description,
    township: Township,
    lots: &P,
) -> Result<Vec<u8>, NoReading>
    requires read { IsReadAs made.now description.now }
    requires township { NamesTownship description.now township }
    ensures { IfOk result (λ text. AreLotsNamed (lotting (P.layout lots.now)) made.now text.items) }
{
    let mut land = Lanes::empty();
    let is_named = find_with_lots(description, &mut land, lots);
    if !is_named {
        return Err(why_no_reading(description, lots));
    }
    let full = spell(alloc, &land, township, lots)?;
    let text = as_written(alloc, description, full.as_slice())?;
    Ok(text)
}

/// The canonical description of the land of a text that it doesn't except. All after the first
/// `except` is excepted from all before it, or, if that can't be, each division of the text is by
/// itself.
fn without_excepted<P: Lotting>(alloc: Global, made: &[u8], lots: &P) -> Result<Wording, NoReading>
    ensures described { IfOk result (λ found.
        IsDescribed (lotting (P.layout lots.now)) found.manner made.now found.text.items) }
    ensures items { IfOk result (λ found. AreItemsOf made.now found.items found.excepted) }
{
    let Some(parts) = around_except(made) else {
        return Err(NoReading::Refused);
    };
    let Some(description) = read(alloc, parts.whole)? else {
        return Err(NoReading::Refused);
    };
    let Some(township) = first_township(description.items()) else {
        return Err(NoReading::Refused);
    };
    if has_semicolon(parts.excepted) {
        let is_exception = is_exception(alloc, parts, township, lots)?;
        if !is_exception {
            return of_each(alloc, made, parts, township, lots);
        }
    }
    of_last(alloc, made, parts, description, township, lots)
}

/// Whether a text names land that can be excepted from that of another: which lies in it, and isn't
/// all of it. Aliquot parts in both may include whole lots. Not inlined, since its sets of land
/// would be cleared for each text.
#[inline(never)]
fn is_exception<P: Lotting>(
    alloc: Global,
    parts: Excepting<'_>,
    township: Township,
    lots: &P,
) -> Result<bool, AllocError>
    ensures { IfOk result (λ it. it ≡ false → IsNoException (lotting (P.layout lots.now)) township
        parts.entry.whole.now parts.entry.excepted.now) }
{
    let mut land = Lanes::empty();
    let mut less = Lanes::empty();
    let names_land = find_text_with_lots(alloc, parts.whole, township, &mut land, lots)?;
    if !names_land {
        return Ok(false);
    }
    let names_less = find_text_with_lots(alloc, parts.excepted, township, &mut less, lots)?;
    if !names_less {
        return Ok(false);
    }
    Ok(is_proper_part(&less, &land))
}

/// The description of a text without its exception, which is of all land before it.
fn of_last<P: Lotting>(
    alloc: Global,
    made: &[u8],
    parts: Excepting<'_>,
    description: Description,
    township: Township,
    lots: &P,
) -> Result<Wording, NoReading>
    requires split { AreAroundExcept made.now parts.whole.now parts.excepted.now }
    requires read { IsReadAs parts.whole.now description }
    requires only { (items : List Named) → IsReadAs parts.whole.now items → description ≡ items }
    ensures described { IfOk result (λ found.
        IsDescribed (lotting (P.layout lots.now)) found.manner made.now found.text.items) }
    ensures items { IfOk result (λ found. AreItemsOf made.now found.items found.excepted) }
{
    let at = parts.whole.len() + EXCEPT.len();
    remainder(
        alloc,
        made,
        parts.whole,
        description,
        parts.excepted,
        at,
        township,
        lots,
    )
}

/// The description of a text without the exceptions of its divisions, which semicolons separate.
/// They name no land twice, so that no text has two readings, of which one excepts all after the
/// first `except`.
#[inline(never)]
fn of_each<P: Lotting>(
    alloc: Global,
    made: &[u8],
    _parts: Excepting<'_>,
    township: Township,
    lots: &P,
) -> Result<Wording, NoReading>
    requires split { AreAroundExcept made.now _parts.whole.now _parts.excepted.now }
    requires more { ¬ HasNoSemicolon _parts.excepted.now }
    requires none { IsNoException (lotting (P.layout lots.now)) township
        _parts.whole.now _parts.excepted.now }
    ensures described { IfOk result (λ found.
        IsDescribed (lotting (P.layout lots.now)) found.manner made.now found.text.items) }
    ensures items { IfOk result (λ found. AreItemsOf made.now found.items found.excepted) }
{
    let both = divide(alloc, made)?;
    let (whole, excepted) = (both.whole.as_slice(), both.excepted.as_slice());
    let Some(description) = read(alloc, whole)? else {
        return Err(NoReading::Refused);
    };
    remainder(alloc, made, whole, description, excepted, 0, township, lots)
}

/// The canonical description of the land of a text without the land of another, which has to be in
/// the same township, in the land of the first, and not all of it. Aliquot parts in both may
/// include whole lots. Not inlined, since its sets of land would be cleared for each text.
#[tactic(auto, using(crate::proofs::meaning::LandFacts::are_excepted))]
#[inline(never)]
fn remainder<P: Lotting>(
    alloc: Global,
    _made: &[u8],
    _whole: &[u8],
    description: Description,
    excepted: &[u8],
    at: usize,
    township: Township,
    lots: &P,
) -> Result<Wording, NoReading>
    requires parted { IsParted _made.now _whole.now excepted.now at }
    requires by_itself { at ≡ 0 → IsOfDivisions (lotting (P.layout lots.now)) township _made.now }
    requires read { IsReadAs _whole.now description }
    requires only { (items : List Named) → IsReadAs _whole.now items → description ≡ items }
    ensures described { IfOk result (λ found.
        IsDescribed (lotting (P.layout lots.now)) found.manner _made.now found.text.items) }
    ensures items { IfOk result (λ found. AreItemsOf _made.now found.items found.excepted) }
{
    let mut land = Lanes::empty();
    let mut less = Lanes::empty();
    find_some_land(&description, township, &mut land, lots)?;
    let Some(items) = read(alloc, excepted)? else {
        return Err(NoReading::Refused);
    };
    find_some_land(&items, township, &mut less, lots)?;
    if !is_proper_part(&less, &land) {
        return Err(NoReading::Unfit);
    }
    land.take_away(&less);
    let full = spell(alloc, &land, township, lots)?;
    let text = as_written(alloc, &description, full.as_slice())?;
    Ok(Wording {
        text,
        manner: Manner::Remainder,
        items: description,
        excepted: Some(Excepted { items, at }),
    })
}

/// Whether land lies in other land, and isn't all of it.
fn is_proper_part(part: &Lanes, land: &Lanes) -> bool
    ensures inside { IsTrue result → ContainsAll (⟦<Lanes as PlaceSet>⟧.places land.now) (⟦<Lanes as PlaceSet>⟧.places part.now) }
    ensures some_left { IsTrue result → ¬ SamePlaces (⟦<Lanes as PlaceSet>⟧.places land.now) (⟦<Lanes as PlaceSet>⟧.places part.now) }
    ensures none_left { result ≡ false
        → ContainsAll (⟦<Lanes as PlaceSet>⟧.places land.now) (⟦<Lanes as PlaceSet>⟧.places part.now)
        → SamePlaces (⟦<Lanes as PlaceSet>⟧.places land.now) (⟦<Lanes as PlaceSet>⟧.places part.now) }
{
    land.holds_land(part) && !land.same(part)
}

/// A canonical text as a description of land for which another was written.
fn as_written(alloc: Global, description: &Description, full: &[u8]) -> Result<Vec<u8>, AllocError>
    ensures { IfOk result (λ text. text.items ≡ as_written description.now full.now) }
{
    let mut text = Vec::new(alloc);
    match description.items().first() {
        Some(Item::Heading { .. }) => text.extend_from_slice(full)?,
        _ => text.extend_from_slice(without_first_line(full))?,
    }
    Ok(text)
}

/// A text without its first line.
fn without_first_line(text: &[u8]) -> &[u8]
    ensures { result.now ≡ without_first_line text.now }
{
    for index in 0..text.len() {
        if text[index] == b'\n' {
            return after(text, index + 1);
        }
    }
    after(text, text.len())
}

/// The bytes of a text from a place on.
fn after(text: &[u8], from: usize) -> &[u8]
    requires { from ≤ length text.now }
    ensures { result.now ≡ drop from text.now }
{
    let (_, rest) = text.split_at(from);
    rest
}
