//! Descriptions resolved to land of each kind, with its area and its canonical text.

use crate::trials::figures::print_area;
use std::io;
use std::io::Write;
use twp_answers::Stop;
use twp_land::{Grid, Land, Lanes, StandardLots};
use twp_plat::{Plat, area_of};
use twp_read::Description;
use twp_resolve::resolve;
use twp_spell::spell;

/// Accepted and refused descriptions. An area is over 25,597,440,000 = 4 * 79,200 * 80,800, so an
/// acre of it, 10,000,000 square thousandths of a chain, is 255,974,400,000,000,000 units.
pub static DESCRIPTIONS: [&str; 48] = [
    // 640 acres, in a section whose lines are all even.
    "sec. 14.",
    // The heights of section 5 vary from 20.20 chains on the east to 20.40 on the west: at
    // intervals of 20 chains they are 20.20, 20.25, 20.30, 20.35, and 20.40. Lot 1 is 20 chains by
    // the mean of the first two, 40.45 acres; then 40.55, 40.65, and 40.75.
    "sec. 5, lot 1.",
    "sec. 5, lot 2.",
    "sec. 5, lot 3.",
    "sec. 5, lot 4.",
    // In section 6, the area of a lot is its doubled mean width times 80,800, multiplied by its
    // doubled mean height times 79,200. Lot 1: 3,232,000,000 and 2 * 20,400 * 79,200 + 400 * 20,000
    // = 3,239,360,000. Lot 3: the same width, and 2 * 20,400 * 79,200 + 400 * 100,000 =
    // 3,271,360,000.
    "sec. 6, lot 1.",
    "sec. 6, lot 3.",
    // Lots 5, 6, and 7 have the height 3,168,000,000, and the widths 2 * 19,600 * 80,800 - 400 *
    // 100,000 = 3,127,360,000, - 400 * 60,000 = 3,143,360,000, and
    // - 400 * 20,000 = 3,159,360,000: together 9,430,080,000.
    "sec. 6, lots 5, 6 and 7.",
    "sec. 6, lot 5.",
    "sec. 6, lot 6.",
    "sec. 6, lot 7.",
    // 3,111,040,000 times 3,287,040,000.
    "sec. 6, lot 4.",
    // 360 acres off the lots. Lots 1 to 3 have the heights 3,239,360,000, 3,255,360,000, and
    // 3,271,360,000, together 9,766,080,000, by 3,232,000,000.
    "Section 6: ALL",
    "sec. 6.",
    // The widths of section 7 vary from 19.50 chains on the south to 19.60 on the north: at
    // intervals of 20 chains they are 19.50, 19.525, 19.55, 19.575, and 19.60. So lots 1 to 4 have
    // 39.175, 39.125, 39.075, and 39.025 acres, 156.40 together.
    "sec. 7, lot 4.",
    "sec. 7, lots 1 to 4, inclusive.",
    "sec. 7, lot 1.",
    "sec. 7, lot 2.",
    "sec. 7, lot 3.",
    "sec. 7, lots 1 and 4.",
    // 160, 160, and 320 acres.
    "sec. 14, S1/2N1/2, N1/2N1/2, and S1/2.",
    "sec. 5, N1/2.",
    "sec. 5, lot 5.",
    "sec. 14, NE1/4 and N1/2.",
    // 640 acres halved nine times, ten times, and five times; after eleven times the part is too
    // small.
    "sec. 14, N1/2NE1/4NE1/4NE1/4NE1/4.",
    "sec. 14, NE1/4NE1/4NE1/4NE1/4NE1/4.",
    "sec. 14, NW1/4NE1/4NE1/4NE1/4NE1/4.",
    "sec. 14, N1/2NE1/4NE1/4NE1/4NE1/4NE1/4.",
    "sec. 14, N1/2N1/2N1/2N1/2N1/2.",
    "sec. 14, SE1/4, NE1/4, NW1/4.",
    "sec. 14, NE1/4NE1/4NE1/4NE1/4.",
    "sec. 14, S½ of the NE¼",
    "T. 2 N., R. 3 E., sec. 14.",
    "T. 2 N., R. 3 W., sec. 14.",
    "T2N R3W sec 14",
    "sec. 37.",
    "secs. 9 to 4.",
    "secs. 1, 1.",
    "sec. 9999.",
    // 160, 80, 80, and 40 acres.
    "sec. 6, SE1/4, S1/2NE1/4, E1/2SW1/4, SE1/4NW1/4.",
    "sec. 6, lots 1 thru 7, SE1/4, S1/2NE1/4, E1/2SW1/4, SE1/4NW1/4.",
    "sec. 14, W1/2, NE1/4.",
    "sec. 14, W1/2.",
    // 640 acres; lots 1 and 3 together have the height 6,510,720,000 by 3,232,000,000, lot 4 is as
    // above, and lot 5 has 3,127,360,000 by 3,168,000,000.
    "sec. 6, lots 5, 1, 3 thru 4; sec. 1.",
    "sec. 8.",
    // 31 even sections of 640 acres, 640.80 in section 4, 642.40 in 5, 636.40 in 7, and 638.00 in
    // 18: 22,397.60 acres, and section 6 as above.
    "secs. 1 thru 36.",
    "sec. 4.",
    "sec. 18.",
];

/// Prints the land that each description names, for each kind of land.
pub fn try_descriptions(rt: &HostRuntime, plat: &Plat) -> io::Result<()> {
    for text in DESCRIPTIONS.iter() {
        rt.print("resolve(`")?;
        rt.print(text)?;
        rt.println("`)")?;
        match Description::read(rt.alloc(), text.as_bytes()) {
            Ok(description) => {
                print_land::<Grid>(rt, "Grid: ", plat, &description)?;
                print_land::<Lanes>(rt, "Lanes: ", plat, &description)?;
            }
            Err(fault) => rt.println(fault)?,
        }
    }
    print_empty::<Grid>(rt, "Grid", plat)?;
    print_empty::<Lanes>(rt, "Lanes", plat)
}

/// Prints the length of the text of empty land, which no description names.
fn print_empty<L: Land>(rt: &HostRuntime, kind: &str, plat: &Plat) -> io::Result<()> {
    let text = spell(rt.alloc(), &L::empty(), plat.township(), &StandardLots)?;
    rt.print(kind)?;
    rt.print(": bytes of the empty land's text: ")?;
    rt.println(text.len())
}

/// Prints the area and the text of the land that a description names, or its refusal.
fn print_land<L: Land>(
    rt: &HostRuntime,
    kind: &str,
    plat: &Plat,
    description: &Description,
) -> io::Result<()> {
    let land: L = match resolve(description, plat.township(), &StandardLots) {
        Ok(land) => land,
        Err(fault) => {
            rt.print(kind)?;
            return rt.println(Stop::from(fault));
        }
    };
    print_area(rt, kind, &area_of(plat, &land))?;
    let text = spell(rt.alloc(), &land, plat.township(), &StandardLots)?;
    io::writer(rt).write_all(text.as_slice())
}
