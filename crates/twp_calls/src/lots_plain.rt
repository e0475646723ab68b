//! The call that gives the plain table of a lot table as a spreadsheet saves it.
ghost use Rattle.std.specs.Prelude.{◌≡◌, ◌≢◌};
ghost use Rattle.twp_calls.specs.Answers.{ACCEPTED};
ghost use Rattle.twp_calls.specs.LotsPlainCalls.{IsLotsPlainCall};

use crate::answer::TownshipAnswer;
use crate::text::put;
use crate::verdict::{ACCEPTED, NO_MEMORY};
use std::alloc::Global;
use twp_plat::plain_table;

/// The plain table of a lot table as a spreadsheet saves it.
pub fn township_lots_plain(alloc: Global, table: &[u8], text: &mut [u8]) -> TownshipAnswer
    ensures answer { IsLotsPlainCall table.now text.old text.new result }
    ensures kept { result.verdict ≢ ACCEPTED → text.new ≡ text.old }
{
    match plain_table(alloc, table) {
        Ok(plain) => put(TownshipAnswer::bare(ACCEPTED), &plain, text),
        Err(_) => TownshipAnswer::bare(NO_MEMORY),
    }
}
