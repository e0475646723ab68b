//! Single figures: the exact area of a position, and the rounding of an area.

use std::io;
use twp_grid::Section;
use twp_measure::Area;
use twp_plat::Plat;

/// Section 6 of the uneven township has 20.40 chains in its last quarter mile on the east, 20.80 on
/// the west, 19.20 on the north, and 19.60 on the south. So the position in its northwest corner
/// has, in thousandths of a chain times the length of the side across, a doubled mean width of 2 *
/// 19,600 * 80,800 - 400 * 140,800 = 3,111,040,000 and a doubled mean height of 2 * 20,400 * 79,200
/// + 400 * 139,200 = 3,287,040,000; the product is over 4 * 79,200 * 80,800.
///
/// 390,250,000 square thousandths of a chain are 3,902.5 hundredths of an acre, a tie.
pub fn try_figures(rt: &HostRuntime, plat: &Plat) -> io::Result<()> {
    let corner = plat.piece_area(Section::new(6).unwrap(), 3, 3);
    print_area(rt, "piece_area(section 6, column 3, row 3): ", &corner)?;
    let Some(tie) = Area::new(390_250_000, 1) else {
        return rt.println("no area");
    };
    rt.print("Area::new(390250000, 1), in hundredths of an acre: ")?;
    rt.println(tie.hundredths())
}

/// Prints an exact area.
pub fn print_area(rt: &HostRuntime, lead: &str, area: &Area) -> io::Result<()> {
    rt.print(lead)?;
    rt.print(area.units())?;
    rt.print(" units over ")?;
    rt.println(area.over())
}
