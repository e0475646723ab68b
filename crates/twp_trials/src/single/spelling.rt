//! The call that writes the canonical text of land.

use crate::single::showing::{ANSWERED, OUT_OF_MEMORY, explain, start};
use std::io;
use twp_grid::{EastWest, NorthSouth, Township};
use twp_land::{Lanes, StandardLots};
use twp_read::Description;
use twp_resolve::resolve;
use twp_spell::spell;

/// Spells the land of a description in T. 2 N., R. 3 W., or prints why there is no such land.
pub fn spell_land(rt: &HostRuntime, text: &[u8]) -> io::Result<()> {
    let Some(township) = Township::new(2, NorthSouth::N, 3, EastWest::W) else {
        return rt.println("no township");
    };
    let description = match Description::read(rt.alloc(), text) {
        Ok(description) => description,
        Err(fault) => return rt.println(fault),
    };
    let land: Lanes = match resolve(&description, township, &StandardLots) {
        Ok(land) => land,
        Err(fault) => return rt.println(fault),
    };
    start(rt)?;
    match spell(rt.alloc(), &land, township, &StandardLots) {
        Ok(spelled) => explain(rt, ANSWERED, spelled.as_slice()),
        Err(_) => rt.println(OUT_OF_MEMORY),
    }
}
