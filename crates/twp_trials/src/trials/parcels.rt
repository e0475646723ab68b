//! Land as a value: combined, compared, and as plain data; and its acres by a lot table.

use std::io;
use twp_answers::{Stop, acres_of, land_of};
use twp_grid::{Bytes, Section};
use twp_land::{Comparison, Land, LandRows, Lanes, StandardLots, compare};
use twp_plat::{Account, LOTS, LotTable, Plat, ReturnedLots, area_by_lots};
use twp_spell::spell;

/// Pairs of descriptions, which are combined and compared.
static PAIRS: [(&str, &str); 6] = [
    // 640 acres and 40: together 640, shared 40, without the second 600.
    ("sec. 14.", "sec. 14, NE1/4NE1/4."),
    ("sec. 14, NE1/4NE1/4.", "sec. 14."),
    ("sec. 14, N1/2, S1/2.", "sec. 14."),
    // 320 acres each, which share 160.
    ("sec. 14, N1/2.", "sec. 14, E1/2."),
    ("sec. 14, N1/2.", "sec. 15, N1/2."),
    // Lots 1 and 2 have 40.45 and 40.55 acres, and lots 2 and 3 have 40.55 and 40.65.
    ("sec. 5, lots 1 and 2.", "sec. 5, lots 2 and 3; sec. 36."),
];

/// Figures of a lot table: the lot's index, which counts the lots of the sections before, and the
/// hundredths of an acre.
static FIGURES: [(usize, u32); 4] = [
    // Lots 1 and 2 of section 5, after 16 lots of sections 1 to 4.
    (16, 4_045),
    (17, 4_055),
    // Lot 7 of section 6.
    (26, 1),
    // Lot 4 of section 31, the last one.
    (46, 99_999),
];

/// Descriptions whose acres by the lot table are printed.
static BY_LOTS: [&str; 6] = [
    // 40.45 acres, 40.55, and 320.
    "sec. 5, lots 1 and 2, S1/2.",
    "sec. 6, lot 7.",
    // 999.99 acres and 0.625, which is 1,000.615: 1,000.62 when rounded half up.
    "sec. 31, lot 4, NE1/4NE1/4NE1/4NE1/4NE1/4.",
    "sec. 14.",
    "sec. 5, lots 1 and 3.",
    "secs. 6 and 7.",
];

/// Lot tables as texts. The first is one; each of the others has one fault.
static LOT_TEXTS: [&str; 11] = [
    "section,lot,acres\nT,2,N,3,W\n5,1,40.45\n6,7,0.01\n31,4,999.99\n",
    "",
    "section,lot,hectares\n",
    "section,lot,acres\nT,2,N,3,W\n5,1\n",
    "section,lot,acres\nT,100,N,3,W\n",
    "section,lot,acres\nT,2,N,3,W\n5,1,40.45\n8,1,40.00\n",
    "section,lot,acres\nT,2,N,3,W\n5,5,40.45\n",
    "section,lot,acres\nT,2,N,3,W\n5,1,40.4\n",
    "section,lot,acres\nT,2,N,3,W\n5,1,0.00\n",
    "section,lot,acres\nT,2,N,3,W\n5,1,1000.00\n",
    "section,lot,acres\nT,2,N,3,W\n5,1,40.45\n5,1,40.46\n",
];

/// Tries the pairs, rows of bits, the lot table, and texts of lot tables.
pub fn try_parcels(rt: &HostRuntime, plat: &Plat) -> io::Result<()> {
    for (first, second) in PAIRS.iter() {
        print_pair(rt, plat, first, second)?;
    }
    try_rows(rt, plat)?;
    try_lots(rt, plat)?;
    for text in LOT_TEXTS.iter() {
        print_lot_text(rt, text)?;
    }
    Ok(())
}

/// Prints the figures of the lots in a text, or the text's refusal.
fn print_lot_text(rt: &HostRuntime, text: &str) -> io::Result<()> {
    let mut source = Bytes::new(text.as_bytes());
    match LotTable::read(rt.alloc(), &mut source) {
        Ok(table) => {
            rt.print("a lot table:")?;
            for figure in table.lots.figures.iter() {
                if *figure > 0 {
                    rt.print(" ")?;
                    rt.print(*figure)?;
                }
            }
            rt.println("")
        }
        Err(fault) => match fault.refusal() {
            Some(refusal) => {
                rt.print("no lot table: refused ")?;
                rt.print(refusal.number)?;
                rt.print(" at ")?;
                rt.println(refusal.at)
            }
            None => rt.println(fault),
        },
    }
}

/// Prints what two descriptions have together, what they share, and what the first has alone; and
/// how they compare.
fn print_pair(rt: &HostRuntime, plat: &Plat, first: &str, second: &str) -> io::Result<()> {
    rt.print("`")?;
    rt.print(first)?;
    rt.print("` and `")?;
    rt.print(second)?;
    rt.print("`: ")?;
    let (Ok(land), Ok(other)) = (parcel(rt, plat, first), parcel(rt, plat, second)) else {
        return rt.println("refused");
    };
    rt.println(name_of(compare(&land, &other)))?;
    let mut together = Lanes::empty();
    together.add_land(&land);
    together.add_land(&other);
    print_parcel(rt, plat, "together: ", &together)?;
    let mut shared = Lanes::empty();
    shared.add_land(&land);
    shared.keep_common(&other);
    print_parcel(rt, plat, "shared: ", &shared)?;
    let mut rest = land;
    rest.take_away(&other);
    print_parcel(rt, plat, "the first alone: ", &rest)
}

/// The land of a description on a plat.
fn parcel(rt: &HostRuntime, plat: &Plat, text: &str) -> Result<Lanes, Stop> {
    land_of(rt.alloc(), plat.township(), text.as_bytes(), &StandardLots)
}

/// The name of a comparison.
fn name_of(comparison: Comparison) -> &'static str {
    match comparison {
        Comparison::Same => "the same",
        Comparison::Contains => "the first contains the second",
        Comparison::IsContained => "the second contains the first",
        Comparison::Overlaps => "they overlap",
        Comparison::Disjoint => "they are disjoint",
    }
}

/// Prints the acres of land by each account, and how the land that its text names compares to it.
/// The land is first made plain data and read back.
fn print_parcel(rt: &HostRuntime, plat: &Plat, lead: &str, land: &Lanes) -> io::Result<()> {
    rt.print(lead)?;
    let Some(land) = Lanes::from_rows(&land.rows()) else {
        return rt.println("part of a lot");
    };
    rt.print(acres_of(plat, &land, Account::Exact))?;
    rt.print(" and ")?;
    rt.print(acres_of(plat, &land, Account::Plat))?;
    rt.print(" hundredths of an acre; its text is ")?;
    let text = spell(rt.alloc(), &land, plat.township(), &StandardLots)?;
    match land_of(rt.alloc(), plat.township(), text.as_slice(), &StandardLots) {
        Ok(again) => rt.println(name_of(compare(&again, &land))),
        Err(stop) => rt.println(stop),
    }
}

/// Prints the rows of single places. The place in the northeast corner of section 14 is in its
/// last row from the south, 31, and its first column from the east, whose bit is 1; the one in the
/// northwest corner has the highest bit, 2 to the 31st. A place of lot 1 of section 1 is part of a
/// lot.
fn try_rows(rt: &HostRuntime, plat: &Plat) -> io::Result<()> {
    print_row(rt, plat, "sec. 14, NE1/4NE1/4NE1/4NE1/4NE1/4.")?;
    print_row(rt, plat, "sec. 14, NW1/4NW1/4NW1/4NW1/4NW1/4.")?;
    let mut rows: LandRows = [[0; 32]; 36];
    rows[0][31] = 1;
    rt.print("a place of lot 1 of section 1: from_rows is none: ")?;
    rt.println(Lanes::from_rows(&rows).is_none())
}

/// Prints the northernmost row of section 14.
fn print_row(rt: &HostRuntime, plat: &Plat, text: &str) -> io::Result<()> {
    rt.print("the northernmost row of `")?;
    rt.print(text)?;
    rt.print("`: ")?;
    match parcel(rt, plat, text) {
        Ok(land) => rt.println(land.rows()[13][31]),
        Err(stop) => rt.println(stop),
    }
}

/// Prints acres by the lot table.
fn try_lots(rt: &HostRuntime, plat: &Plat) -> io::Result<()> {
    let mut figures = [0; LOTS];
    for (index, figure) in FIGURES.iter() {
        if *index < LOTS {
            figures[*index] = *figure;
        }
    }
    let lots = ReturnedLots::standard(&figures);
    for text in BY_LOTS.iter() {
        print_by_lots(rt, plat, &lots, text)?;
    }
    figures[0] = 100_000;
    rt.print("1,000 acres in a lot table: it lacks the lot: ")?;
    let first = Section::new(1).unwrap();
    rt.println(ReturnedLots::standard(&figures).figure(first, 1).is_none())
}

/// Prints the acres of a description by a lot table.
fn print_by_lots(rt: &HostRuntime, plat: &Plat, lots: &ReturnedLots, text: &str) -> io::Result<()> {
    rt.print("by the lot table, `")?;
    rt.print(text)?;
    rt.print("`: ")?;
    let land = match land_of(rt.alloc(), plat.township(), text.as_bytes(), &lots.plat) {
        Ok(land) => land,
        Err(stop) => return rt.println(stop),
    };
    match area_by_lots(lots, &land) {
        Ok(area) => {
            rt.print(area.hundredths())?;
            rt.println(" hundredths of an acre")
        }
        Err(lacking) => {
            rt.print("no figure for lot ")?;
            rt.print(lacking.number)?;
            rt.print(" of section ")?;
            rt.println(lacking.section.number())
        }
    }
}
