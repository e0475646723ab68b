use crate::reading::ReadFault;
use std::alloc::AllocError;
use thiserror::Error;
use twp_grid::{Line, Refusal};

/// The most bytes of field notes, which is also the place in the refusal of larger ones.
pub const MOST_BYTES: u32 = 65_536;

/// Why bytes are not field notes. Records are numbered from 1, as `csv` returns them; the layout of
/// the notes is this project's rule.
#[derive(Clone, Copy, Debug, PartialEq, Eq, Error)]
pub enum NotesFault {
    /// 1, at the limit: there are more bytes than field notes can have.
    #[error("the notes have more than 65,536 bytes")]
    TooLarge,
    /// 2, at record 1: there are no records.
    #[error("the notes are empty: record 1 is `line,between,and,quarter,corner`")]
    Empty,
    /// 3, at record 1: this is not the heading.
    #[error("record 1 isn't the heading `line,between,and,quarter,corner`")]
    Heading,
    /// 4, at the record: it does not have five fields.
    #[error("record {0} doesn't have five fields")]
    Columns(u32),
    /// 5, at record 2: it is not a township, or is missing.
    #[error("record 2 isn't a township, as `T,2,N,3,W`: numbers 1 to 99, in one or two digits")]
    Township,
    /// 6, at the record: its first field is not a run.
    #[error("record {0} has no run: its first field is `N` or `W`")]
    Run(u32),
    /// 7, at the record: its second field is not a section, or its third is neither a section nor
    /// empty.
    #[error("record {0} has no sections: 1 to 36 in one or two digits; only field 3 may be empty")]
    Section(u32),
    /// 8, at the record: there is no line of that run between these sections, or on the township's
    /// boundary beside the one section.
    #[error("record {0} names no line: its run has none between these sections")]
    NoLine(u32),
    /// 9, at the record: its fourth or fifth field is not a length.
    #[error("a distance of record {0} isn't chains: one or two digits, at most three decimals")]
    Length(u32),
    /// 10, at the record: an earlier record is for the same line.
    #[error("record {0} returns a line that an earlier record returned")]
    Repeated(u32),
    /// 11, at the line's index: no record is for this line. If there are several such lines, it is
    /// the one with the smallest index.
    #[error("no record returns the line of index {0}")]
    Missing(u8),
    /// The reader failed.
    #[error("cannot read")]
    Read,
    /// Memory ran out.
    #[error("out of memory")]
    Memory,
}

impl NotesFault {
    ghost use Rattle.std.specs.Prelude.{◌≡◌};
    ghost use Rattle.twp_notes.specs.NotesFaults.{refusal_of};

    /// The number and the place of a refusal. `None` for `Read` and `Memory`.
    pub fn refusal(&self) -> Option<Refusal>
        ensures { result ≡ refusal_of self.now }
    {
        let (number, at) = match *self {
            NotesFault::TooLarge => (1, MOST_BYTES),
            NotesFault::Empty => (2, 1),
            NotesFault::Heading => (3, 1),
            NotesFault::Columns(record) => (4, record),
            NotesFault::Township => (5, 2),
            NotesFault::Run(record) => (6, record),
            NotesFault::Section(record) => (7, record),
            NotesFault::NoLine(record) => (8, record),
            NotesFault::Length(record) => (9, record),
            NotesFault::Repeated(record) => (10, record),
            NotesFault::Missing(line) => (11, u32::from(line)),
            NotesFault::Read | NotesFault::Memory => return None,
        };
        Some(Refusal { number, at })
    }
}

impl From<ReadFault> for NotesFault {
    ghost use Rattle.twp_notes.specs.steps.PassedFaults.{IsNotesFaultOf};

    ghost from_gives = { IsNotesFaultOf };

    fn from(fault: ReadFault) -> NotesFault {
        match fault {
            ReadFault::Read => NotesFault::Read,
            ReadFault::Memory => NotesFault::Memory,
        }
    }
}

impl From<AllocError> for NotesFault {
    ghost use Rattle.std.specs.Prelude.{◌≡◌};
    ghost use Rattle.twp_notes.specs.declared.fault.NotesFault.TheVariants.{Memory};

    ghost from_gives = { λ _ fault. fault ≡ Memory };

    fn from(_fault: AllocError) -> NotesFault {
        NotesFault::Memory
    }
}
