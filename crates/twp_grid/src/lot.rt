ghost use Rattle.std.specs.Prelude.{◌≡◌, ◌≤◌, ◌↔◌, nat_le, IsSome, IfSome};
ghost use Rattle.twp_grid.specs.Winding.{IsSection};
ghost use Rattle.twp_grid.specs.Lots.{IsPosition, lot_at_position, position_of_lot, number_of_lots};
ghost use Rattle.twp_grid.specs.steps.WesternSections.{is_western_number};

use crate::section::Section;

/// The positions along a side of a section.
pub const POSITIONS_ACROSS: u8 = 4;

/// The lot that fills a position of a section, if one does. The column is counted from the east and
/// the row from the south, 0 to 3; outside this range there is none. Lots lie along the half miles
/// into which excess or deficiency in measurement is thrown (Manual of Surveying Instructions 2009,
/// chapter 3).
#[tactic(auto, using(crate::proofs::LotFacts::lot_at_position_is))]
pub fn lot_at(section: Section, column: u8, row: u8) -> Option<u8>
    ensures lot { result ≡ lot_at_position section column row }
    ensures section { IsSection section }
{
    if column >= POSITIONS_ACROSS || row >= POSITIONS_ACROSS {
        return None;
    }
    if is_northern(section) && row == 3 {
        return Some(column + 1);
    }
    if is_western(section) && column == 3 {
        return Some(lot_count(section) - row);
    }
    None
}

/// The position that a lot of a section fills: its column from the east and its row from the south.
/// `None` if the section has no such lot.
#[tactic(auto, using(crate::proofs::LotFacts::numbered_lots))]
pub fn lot_place(section: Section, lot: u8) -> Option<(u8, u8)>
    ensures position { result ≡ position_of_lot section lot }
    ensures within { IfSome result (λ (column, row). IsPosition column row) }
    ensures has { IsSome result ↔ ((1 ≤ lot) × (lot ≤ number_of_lots section)) }
    ensures section { IsSection section }
{
    let count = lot_count(section);
    if lot == 0 || lot > count {
        return None;
    }
    if is_northern(section) && lot <= 4 {
        return Some((lot - 1, 3));
    }
    Some((3, count - lot))
}

/// How many lots a section has: 0, 4, or 7.
#[tactic(auto, using(crate::proofs::LotFacts::lot_count_is))]
pub fn lot_count(section: Section) -> u8
    ensures count { result ≡ number_of_lots section }
    ensures section { IsSection section }
{
    match (is_northern(section), is_western(section)) {
        (true, true) => 7,
        (false, false) => 0,
        _ => 4,
    }
}

/// Whether the section is in the northern row.
fn is_northern(section: Section) -> bool
    ensures value { result ≡ nat_le section 6 }
    ensures range { IsSection section }
{
    section.number() <= 6
}

/// Whether the section is in the western column.
fn is_western(section: Section) -> bool
    ensures { result ≡ is_western_number section }
{
    matches!(section.number(), 6 | 7 | 18 | 19 | 30 | 31)
}
