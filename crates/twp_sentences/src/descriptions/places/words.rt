//! How townships, lots, and land are written in explanations.
ghost use Rattle.std.specs.Prelude.{◌≡◌, ◌≤◌, ◌<◌, ◌++◌, length, drop, codes, count_by, string_bytes};
ghost use Rattle.std.specs.Prelude.{IfOk, IfSome};
ghost use Rattle.std.specs.Fmt.{decimal};
ghost use Rattle.twp_diagnose.specs.RecordFields.{is_comma};
ghost use Rattle.twp_grid.specs.Lands.{LOT_NUMBER_MOST, HasLot, IsNextLot, lotting};

use std::alloc::{AllocError, Global};
use twp_diagnose::PartOfLots;
use twp_excerpt::write_escaped;
use twp_grammar::Item;
use twp_grid::{EastWest, NorthSouth, Section, Township};
use twp_land::Lotting;

/// The most bytes of a land that are shown.
const LAND_MOST: usize = 150;

/// Appends the township of a heading.
pub(crate) fn write_heading(item: &Item, out: &mut String) -> Result<(), AllocError> {
    let Item::Heading {
        number,
        north_south,
        range,
        east_west,
        ..
    } = *item
    else {
        return Ok(());
    };
    write!(
        out,
        "T. {} {}., R. {} {}.",
        number,
        letter(north_south),
        range,
        way(east_west)
    )
}

/// Appends a township, as `T. 2 N., R. 3 W.`.
pub(crate) fn write_township(township: Township, out: &mut String) -> Result<(), AllocError> {
    let side = letter(township.north_south());
    let way = way(township.east_west());
    write!(
        out,
        "T. {} {}., R. {} {}.",
        township.number(),
        side,
        township.range(),
        way
    )
}

/// The letter of a side of the base line.
fn letter(side: NorthSouth) -> char {
    match side {
        NorthSouth::N => 'N',
        NorthSouth::S => 'S',
    }
}

/// The letter of a side of the principal meridian.
fn way(side: EastWest) -> char {
    match side {
        EastWest::E => 'E',
        EastWest::W => 'W',
    }
}

/// What to write for a range that runs backward.
pub(crate) fn turned_range(alloc: Global, first: u16, last: u16) -> Result<String, AllocError>
    ensures { IfOk result (λ text. string_bytes text
        ≡ codes "write " ++ (decimal last ++ (codes " to " ++ decimal first))) }
{
    format!(in alloc; "write {last} to {first}")
}

/// Appends which lots a section of the plat has.
pub(crate) fn write_lots_of<P: Lotting>(
    section: Section,
    lots: &P,
    out: &mut String,
) -> Result<(), AllocError> {
    let number = section.number();
    let Some(first) = lots.next_lot(section, 0) else {
        return write!(out, "section {} has no lots", number);
    };
    if lots.next_lot(section, first).is_none() {
        return write!(out, "section {} has only lot {}", number, first);
    }
    write!(out, "section {} has lots ", number)?;
    write_ranges(section, lots, out)
}

/// Appends the lots nearest to a number, if it is in a gap between lots of the section.
pub(crate) fn write_nearest_lots<P: Lotting>(
    section: Section,
    number: u16,
    lots: &P,
    out: &mut String,
) -> Result<(), AllocError> {
    match gap_around(section, number, lots) {
        Some(gap) => write!(out, "the nearest lots are {} and {}", gap.before, gap.after),
        None => Ok(()),
    }
}

/// The lots before and after numbers that a section lacks.
#[derive(Clone, Copy)]
struct LotGap {
    before: u8,
    after: u8,
}

/// The gap that contains a number: the lots on both sides of it. None for a lot, and for a number before the
/// first lot or after the last.
fn gap_around<P: Lotting>(section: Section, number: u16, lots: &P) -> Option<LotGap>
    ensures inside { IfSome result (λ gap. (gap.before < number) × (number < gap.after)) }
    ensures nearest { IfSome result (λ gap. HasLot (lotting (P.layout lots.now)) section gap.before
        × IsNextLot (lotting (P.layout lots.now)) section gap.before gap.after) }
{
    let mut before = lots.next_lot(section, 0)?;
    while u16::from(before) < number {
        let after = lots.next_lot(section, before)?;
        if u16::from(after) > number {
            return Some(LotGap { before, after });
        }
        before = after;
    }
    None
}

/// Lots of a section, from the first to the last of a range without a gap.
#[derive(Clone, Copy)]
struct LotRange {
    first: u8,
    last: u8,
}

/// Appends the lots of a section, as `1 to 4, 7, and 9`.
fn write_ranges<P: Lotting>(
    section: Section,
    lots: &P,
    out: &mut String,
) -> Result<(), AllocError> {
    let mut last = 0;
    let mut count: usize = 0;
    while let Some(range) = next_range(section, last, lots) {
        last = range.last;
        let is_end = lots.next_lot(section, last).is_none();
        out.push_str(separator(count, is_end))?;
        write_range(range, out)?;
        count = count.saturating_add(1);
    }
    Ok(())
}

/// What comes between an entry of a list and those before it, of which there are this many.
fn separator(count: usize, is_end: bool) -> &'static str {
    match (count, is_end) {
        (0, _) => "",
        (1, true) => " and ",
        (_, true) => ", and ",
        _ => ", ",
    }
}

/// The lots of a section after a number, up to the next gap. Of two lots, only the first.
fn next_range<P: Lotting>(section: Section, after: u8, lots: &P) -> Option<LotRange>
    ensures { IfSome result (λ range. (after < range.last) × (range.last ≤ LOT_NUMBER_MOST)) }
{
    let first = lots.next_lot(section, after)?;
    let last = before_gap(section, first, lots);
    if last == first + 1 {
        return Some(LotRange { first, last: first });
    }
    Some(LotRange { first, last })
}

/// The last of a section's lots from this one on before a gap.
fn before_gap<P: Lotting>(section: Section, lot: u8, lots: &P) -> u8
    requires { HasLot (lotting (P.layout lots.now)) section lot }
    ensures from { lot ≤ result }
    ensures most { result ≤ LOT_NUMBER_MOST }
{
    let mut last = lot;
    while lots.has_lot(section, u16::from(last) + 1) {
        last += 1;
    }
    last
}

/// Appends a range of lots, as `3`, or `1 to 4`.
fn write_range(range: LotRange, out: &mut String) -> Result<(), AllocError> {
    if range.first == range.last {
        return write!(out, "{}", range.first);
    }
    write!(out, "{} to {}", range.first, range.last)
}

/// Appends that a part includes lots, which have to be named instead, or that it cuts them.
pub(crate) fn write_whole_lots(part: &PartOfLots, out: &mut String) -> Result<(), AllocError> {
    out.push_str(match (part.are_whole, part.lots.len()) {
        (true, 1) => "this part includes a lot; name the lot instead",
        (true, _) => "this part includes lots; name the lots instead",
        (false, 1) => "this part cuts a lot; lots can only be named whole",
        (false, _) => "this part cuts lots; lots can only be named whole",
    })
}

/// Appends that the plat has no land in a part, or in some of it.
pub(crate) fn write_no_land(part: &PartOfLots, out: &mut String) -> Result<(), AllocError> {
    out.push_str(if part.rest.is_empty() {
        "the plat has no land in this part"
    } else {
        "the plat has no land in some of this part; name the rest instead"
    })
}

/// Appends what to write for a part that includes whole lots, or places without land: its section, the lots,
/// and the rest of its land.
pub(crate) fn write_lots_and_rest(part: &PartOfLots, out: &mut String) -> Result<(), AllocError> {
    write!(out, "write sec. {}, ", part.section.number())?;
    if !part.lots.is_empty() {
        write_lots(&part.lots, out)?;
        if part.rest.is_empty() {
            return Ok(());
        }
        out.push_str(", ")?;
    }
    write_escaped(list_of_section(&part.rest), out)
}

/// Appends the lots that a part cuts.
pub(crate) fn write_lots_cut(part: &PartOfLots, out: &mut String) -> Result<(), AllocError> {
    out.push_str("it includes land of ")?;
    write_lots(&part.lots, out)?;
    write!(out, " of section {}", part.section.number())
}

/// Appends lots, as `lot 4`, or `lots 1, 2 and 3`.
fn write_lots(lots: &[u8], out: &mut String) -> Result<(), AllocError> {
    out.push_str(if lots.len() == 1 { "lot " } else { "lots " })?;
    for index in 0..lots.len() {
        if index > 0 {
            out.push_str(if index + 1 == lots.len() {
                " and "
            } else {
                ", "
            })?;
        }
        write!(out, "{}", lots[index])?;
    }
    Ok(())
}

/// Of the text of a section's land, the list of its parts: what comes between the first comma's
/// space and the period.
fn list_of_section(text: &[u8]) -> &[u8] {
    let lines = after_the_first(text, b'\n');
    let list = after_the_first(lines, b',');
    let end = list.len().saturating_sub(b".\n".len());
    list[..end].trim_ascii_start()
}

/// What comes after the first such byte.
fn after_the_first(text: &[u8], byte: u8) -> &[u8] {
    match text.iter().position(|other| *other == byte) {
        Some(index) => &text[index + 1..],
        None => &text[text.len()..],
    }
}

/// Appends the land of a canonical text on one line, without its heading. Of a long text the first sections,
/// lots, and parts are shown, and how many more there are.
pub fn write_land(text: &[u8], out: &mut String) -> Result<(), AllocError> {
    let land = after_the_first(text, b'\n').trim_ascii_end();
    if land.len() <= LAND_MOST {
        return write_on_one_line(land, out);
    }
    let shown = front_of_land(land);
    write_on_one_line(&land[..shown], out)?;
    write!(out, " and {} more", commas_after(land, shown))
}

/// How many lots and parts come after the front of a land: a comma is before each, and before `all`.
fn commas_after(land: &[u8], front: usize) -> usize
    requires { front ≤ length land.now }
    ensures { result ≡ count_by is_comma (drop front land.now) }
{
    land[front..].iter().filter(|byte| **byte == b',').count()
}

/// The front of a long land that is shown: it ends after a section, a lot, or a part.
fn front_of_land(land: &[u8]) -> usize
    ensures { result ≤ length land.now }
{
    let mut front = 0;
    let mut is_after_number = true;
    for index in 0..land.len().min(LAND_MOST) {
        match land[index] {
            b';' => {
                front = index;
                is_after_number = true;
            }
            b',' if is_after_number => is_after_number = false,
            b',' => front = index,
            _ => {}
        }
    }
    front
}

/// Appends lines with a space between them.
fn write_on_one_line(text: &[u8], out: &mut String) -> Result<(), AllocError> {
    let Ok(text) = str::from_utf8(text) else {
        return Ok(());
    };
    for (index, line) in text.lines().enumerate() {
        if index > 0 {
            out.push_str(" ")?;
        }
        out.push_str(line)?;
    }
    Ok(())
}
