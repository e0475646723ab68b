//! Texts of faults that neither another call nor a run shows.

use std::io;
use twp_answers::{RunFault, Stop, TractFault};
use twp_grid::Refusal;
use twp_notes::{NotesFault, ReadFault};

/// Prints the text of each fault.
pub fn try_faults(rt: &HostRuntime) -> io::Result<()> {
    for fault in [ReadFault::Read, ReadFault::Memory] {
        println!(rt; "a fault of reading: {fault}")?;
        println!(rt; "the same, of notes: {}", NotesFault::from(fault))?;
    }
    let inner = Refusal { number: 66, at: 8 };
    for fault in [
        TractFault::TractsTooLarge,
        TractFault::TractRow(3),
        TractFault::NameRepeated(4),
        TractFault::TractRefused { at: 5, inner },
        TractFault::TractsOverlap(6),
        TractFault::TooManyTracts,
        TractFault::Memory,
    ] {
        println!(rt; "a fault of a list: {fault}")?;
    }
    println!(rt; "no answer: {}", Stop::Failed(RunFault::Memory))
}
