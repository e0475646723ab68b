use std::alloc::AllocError;
use thiserror::Error;
use twp_grid::Refusal;
use twp_notes::ReadFault;

/// The most bytes of a lot table, which is also the place in the refusal of larger ones.
pub const MOST_BYTES: u32 = 65_536;

/// Why bytes are not a lot table. Records are numbered from 1, as `csv` returns them; the layout of
/// the table is this project's rule.
#[derive(Clone, Copy, Debug, PartialEq, Eq, Error)]
pub enum LotsFault {
    /// 86, at the limit: there are more bytes than a lot table can have.
    #[error("the lot table has more than 65,536 bytes")]
    TooLarge,
    /// 87, at record 1: there are no records.
    #[error("the lot table is empty: record 1 is `section,lot,acres`")]
    Empty,
    /// 88, at record 1: this is not the heading.
    #[error("record 1 isn't the heading `section,lot,acres` or `section,lot,acres,land`")]
    Heading,
    /// 89, at the record: record 2 does not have five or six fields, or a later one does not have as
    /// many as the heading.
    #[error("record {0} doesn't have the fields of its kind: five or six in record 2, later as many as in 1")]
    Columns(u32),
    /// 90, at record 2: it is not a township, or is missing.
    #[error("record 2 isn't a township, as `T,2,N,3,W`: numbers 1 to 99, in one or two digits")]
    Township,
    /// 91, at the record: there is no such section, or its number is not that of a lot: one of the
    /// section's standard lots, or 1 to 99 in a table with land.
    #[error("record {0} is for no lot of a township")]
    NoLot(u32),
    /// 92, at the record: its third field is not acres.
    #[error("record {0} has no acres: 0.01 to 999.99, with two decimals")]
    Acres(u32),
    /// 93, at the record: an earlier record is for the same lot.
    #[error("record {0} is for a lot that an earlier record is for")]
    Repeated(u32),
    /// 95, at record 2: its sixth field is not a date.
    #[error("record 2 has no date: a day that there is, as `1912-03-04`")]
    Date,
    /// 96, at the record: its land is not a sequence of aliquot parts.
    #[error("record {0} has no land: aliquot parts of the section, as `N1/2NE1/4, SE1/4NE1/4`")]
    Land(u32),
    /// 97, at the record: one of its aliquot parts is too small.
    #[error("record {0} has an aliquot part that halves a side of one place")]
    TooFine(u32),
    /// 98, at the record: a place is in two parts, of the record or of it and an earlier one.
    #[error("record {0} has land that is in another part, of this record or of an earlier one")]
    Shared(u32),
    /// 99, at the record: there are as many lots as a section or a township can have.
    #[error("record {0} is for one lot more than 64 in a section, or 1,024 in the township")]
    TooMany(u32),
    /// 100, at the record of a lot: it lies in a quarter-quarter that also contains other land.
    #[error("record {0} is for a lot in a quarter-quarter that is not all lots and missing land")]
    Unfilled(u32),
    /// 101, at the last record: too many quarter-quarters are divided.
    #[error("more than 128 quarter-quarters are divided among lots and other land")]
    Divided(u32),
    /// The reader failed.
    #[error("cannot read")]
    Read,
    /// Memory ran out.
    #[error("out of memory")]
    Memory,
}

impl LotsFault {
    ghost use Rattle.std.specs.Prelude.{◌≡◌};
    ghost use Rattle.twp_plat.specs.LotsFaults.{refusal_of};

    /// The number and the place of a refusal. `None` for `Read` and `Memory`.
    pub fn refusal(&self) -> Option<Refusal>
        ensures { result ≡ refusal_of self.now }
    {
        let (number, at) = match *self {
            LotsFault::TooLarge => (86, MOST_BYTES),
            LotsFault::Empty => (87, 1),
            LotsFault::Heading => (88, 1),
            LotsFault::Columns(record) => (89, record),
            LotsFault::Township => (90, 2),
            LotsFault::NoLot(record) => (91, record),
            LotsFault::Acres(record) => (92, record),
            LotsFault::Repeated(record) => (93, record),
            LotsFault::Date => (95, 2),
            LotsFault::Land(record) => (96, record),
            LotsFault::TooFine(record) => (97, record),
            LotsFault::Shared(record) => (98, record),
            LotsFault::TooMany(record) => (99, record),
            LotsFault::Unfilled(record) => (100, record),
            LotsFault::Divided(record) => (101, record),
            LotsFault::Read | LotsFault::Memory => return None,
        };
        Some(Refusal { number, at })
    }
}

impl From<ReadFault> for LotsFault {
    ghost use Rattle.twp_plat.specs.steps.PassedLotFaults.{IsLotsFaultOf};

    ghost from_gives = { IsLotsFaultOf };

    fn from(fault: ReadFault) -> LotsFault {
        match fault {
            ReadFault::Read => LotsFault::Read,
            ReadFault::Memory => LotsFault::Memory,
        }
    }
}

impl From<AllocError> for LotsFault {
    ghost use Rattle.std.specs.Prelude.{◌≡◌};
    ghost use Rattle.twp_plat.specs.declared.lots.fault.LotsFault.TheVariants.{Memory};

    ghost from_gives = { λ _ fault. fault ≡ Memory };

    fn from(_fault: AllocError) -> LotsFault {
        LotsFault::Memory
    }
}
