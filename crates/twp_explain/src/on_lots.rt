//! Explanations by lot tables: of bytes that are no lot table, and of land with a lot that a table lacks.
ghost use Rattle.std.specs.Prelude.{◌≡◌, None, IfErr, IfOk, IfSome};
ghost use Rattle.twp_plat.specs.LotsFaults.{lacking_refusal};
ghost use Rattle.twp_diagnose.specs.Findings.{IfFound};
ghost use Rattle.twp_diagnose.specs.ShownMessages.{ShowsIn};
ghost use Rattle.twp_explain.specs.LotRefusals.{AreNoLots, AreSomeLots};

use crate::on_plat::explain_stop;
use std::alloc::{AllocError, Global};
use twp_diagnose::{Explanation, Given, SearchStop};
use twp_grid::{Bytes, Section};
use twp_plat::{LotTable, ReturnedLots};
use twp_sentences::{find_lacking, stop_of_lots};

/// The explanation of bytes that are no lot table.
pub fn explain_lots(alloc: Global, table: &Given<'_>) -> Result<Option<Explanation>, AllocError>
    ensures refusal { IfOk result (λ explained. IfSome explained (λ explanation.
        AreNoLots table.now.bytes.now explanation.refusal)) }
    ensures none { IfOk result (λ explained. explained ≡ None → AreSomeLots table.now.bytes.now) }
    ensures shows { IfOk result (λ explained. IfSome explained (ShowsIn table.now)) }
{
    match read_lots(alloc, table) {
        Ok(()) => Ok(None),
        Err(stop) => Ok(Some(explain_stop(alloc, table, stop)?)),
    }
}

/// The explanation of land that contains a lot of a section, which a lot table lacks. It shows no place of
/// the file that describes the land.
pub fn explain_lacking(
    alloc: Global,
    lots: &ReturnedLots,
    file: &Given<'_>,
    section: Section,
    lot: u8,
) -> Result<Explanation, AllocError>
    ensures refusal { IfOk result (λ explanation. explanation.refusal ≡ lacking_refusal section lot) }
    ensures shows { IfOk result (ShowsIn file.now) }
{
    find_lacking(alloc, lots, section, lot)?.explain(alloc, file)
}

/// Reads a lot table, or gives what is wrong with it.
#[tactic(auto, using(crate::proofs::LotFindings::lots_refused))]
#[inline(never)]
fn read_lots(alloc: Global, file: &Given<'_>) -> Result<(), SearchStop>
    ensures lots { IfOk result (λ _. AreSomeLots file.now.bytes.now) }
    ensures found { IfErr result (λ stop. IfFound stop (AreNoLots file.now.bytes.now)) }
{
    match LotTable::read(alloc, &mut Bytes::new(file.bytes)) {
        Ok(_) => Ok(()),
        Err(fault) => Err(stop_of_lots(alloc, file, fault)),
    }
}
