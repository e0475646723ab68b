ghost use Rattle.std.specs.Prelude.{◌≡◌, ℕ, ◌+◌, ◌^◌, ◌≤◌, ◌<◌, ◌↔◌, Bool, true, false, List};
ghost use Rattle.std.specs.Prelude.{length, take, IfOk, OnOk, IsErrOf, MatchOption, [], ◌∷◌};
ghost use Rattle.std.specs.Prelude.{IsTrue, MatchBool};
ghost use Rattle.std.specs.Io.KnownBytes.{Consumes, IsAtEnd};
ghost use Rattle.twp_grid.specs.Devices.{Tells, TakesAtMost, TakesJust, TakesAll, TakesFirst};
ghost use Rattle.csv.specs.Records.{fields_of};
ghost use Rattle.twp_notes.specs.Records.{field, records_of, records_left, IsBetweenRecords};

use csv::{ByteRecord, ErrorKind, Reader, ReaderBuilder};
use std::alloc::{AllocError, Global};
use thiserror::Error;
use twp_grid::{DeviceFault, Source};

/// Why bytes could not be read.
#[derive(Clone, Copy, Debug, PartialEq, Eq, Error)]
pub enum ReadFault {
    /// The device failed.
    #[error("cannot read")]
    Read,
    /// Memory for the bytes ran out.
    #[error("out of memory")]
    Memory,
}

impl From<DeviceFault> for ReadFault {
    ghost use Rattle.twp_notes.specs.declared.reading.ReadFault.TheVariants.{Read};

    ghost from_gives = { λ _ fault. fault ≡ Read };

    fn from(_fault: DeviceFault) -> ReadFault {
        ReadFault::Read
    }
}

impl From<AllocError> for ReadFault {
    ghost use Rattle.twp_notes.specs.declared.reading.ReadFault.TheVariants.{Memory};

    ghost from_gives = { λ _ fault. fault ≡ Memory };

    fn from(_fault: AllocError) -> ReadFault {
        ReadFault::Memory
    }
}

/// How many bytes to ask for at a time: a reader that fills every buffer is called 65 times for
/// 65,536 bytes, 64 times for the pieces and once for the end.
const PIECE: usize = 1_024;

/// How many bytes to reserve at the start, because growing copies the bytes read so far.
const ROOM: usize = 131_072;

/// Reads all bytes of a source, to the end of the input. `None` if there are more than `limit`;
/// then one byte more was read, and no others were asked for.
pub fn read_whole<S: Source>(
    alloc: Global,
    source: &mut S,
    limit: usize,
) -> Result<Option<Vec<u8>>, ReadFault>
    requires open { S.has_failed source.old ≡ false }
    requires room { limit + 1 < 2 ^ 32 }
    ensures failed { IsErrOf result ReadFault.Read ↔ (S.has_failed source.new ≡ true) }
    ensures most { TakesAtMost (S.remaining source.old) (S.remaining source.new) (limit + 1) }
    ensures exact { OnOk result
        (TakesFirst (S.remaining source.old) (S.remaining source.new) (limit + 1)) }
    ensures left { IfOk result (λ read. MatchOption read
        (TakesJust (S.remaining source.old) (S.remaining source.new) (limit + 1))
        (λ v. TakesAll (S.remaining source.old) (S.remaining source.new) v.items)) }
    ensures bytes { IfOk result (λ read. (bytes : List ℕ) × Tells (S.remaining source.old) bytes
        × MatchOption read (limit < length bytes)
        (λ v. (v.items ≡ bytes) × (length bytes ≤ limit))) }
{
    let bytes = read_up_to(alloc, source, limit + 1)?;
    Ok(if bytes.len() > limit {
        None
    } else {
        Some(bytes)
    })
}

/// Reads the bytes of a source, to the end of the input or until there are `most` of them. No byte
/// after these is asked for.
pub fn read_up_to<S: Source>(
    alloc: Global,
    source: &mut S,
    most: usize,
) -> Result<Vec<u8>, ReadFault>
    requires open { S.has_failed source.old ≡ false }
    requires room { most < 2 ^ 32 }
    ensures failed { IsErrOf result ReadFault.Read ↔ (S.has_failed source.new ≡ true) }
    ensures most { TakesAtMost (S.remaining source.old) (S.remaining source.new) most }
    ensures exact { OnOk result
        (TakesFirst (S.remaining source.old) (S.remaining source.new) most) }
    ensures taken { IfOk result (λ read.
        Consumes (S.remaining source.old) (S.remaining source.new) read.items) }
    ensures end { IfOk result (λ read.
        length read.items < most → IsAtEnd (S.remaining source.new)) }
    ensures bytes { IfOk result (λ read. (bytes : List ℕ)
        × Tells (S.remaining source.old) bytes × (read.items ≡ take most bytes)) }
{
    let mut read = Vec::with_capacity(alloc, ROOM.min(most))?;
    let mut piece = [0; PIECE];
    'pieces: while read.len() < most {
        let room = PIECE.min(most - read.len());
        let count = source.fill(&mut piece[..room])?;
        if count == 0 {
            return Ok(read);
        }
        read.extend_from_slice(&piece[..count])?;
    }
    Ok(read)
}

/// The records of bytes, one after another.
#[derive(Drop)]
pub struct Records<'a> {
    reader: Reader<&'a [u8]>,
}

impl<'a> Records<'a> {
    /// The records of these bytes, before the first one is read.
    pub fn new(alloc: Global, bytes: &'a [u8]) -> Records<'a>
        ensures reading { IsBetweenRecords result }
        ensures all { records_left result ≡ records_of bytes.now }
    {
        Records {
            reader: ReaderBuilder::new()
                .has_headers(false)
                .flexible(true)
                .from_reader(alloc, bytes),
        }
    }

    /// Reads the next record into `row`, and returns whether there was one.
    pub fn read(&mut self, row: &mut ByteRecord) -> Result<bool, AllocError>
        requires { IsBetweenRecords self.old }
        ensures { IfOk result (λ found. MatchBool found
            ((records_left self.old ≡ fields_of row.new ∷ records_left self.new)
            × IsBetweenRecords self.new)
            (records_left self.old ≡ [])) }
    {
        match self.reader.read_byte_record(row) {
            Ok(found) => Ok(found),
            Err(error) => match error.into_kind() {
                // Bytes in memory cause no device fault, but `csv` does not promise that for every
                // reader.
                ErrorKind::OutOfMemory | ErrorKind::Io(_) => Err(AllocError),
                _ => unreachable!(),
            },
        }
    }
}

/// The field of a record at an index.
#[tactic(auto, using(crate::proofs::RecordFacts::field_at_is))]
pub fn field(row: &ByteRecord, place: usize) -> &[u8]
    requires { place < length (fields_of row.now) }
    ensures { result.now ≡ field (fields_of row.now) place }
{
    row.get(place).unwrap()
}

/// Whether the bytes of a field are exactly this text.
pub fn is_exactly(bytes: &[u8], text: &str) -> bool
    ensures { IsTrue result ↔ (bytes.now ≡ text.now) }
{
    bytes == text.as_bytes()
}
