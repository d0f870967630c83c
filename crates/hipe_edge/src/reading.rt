// Reading a source to its end.
ghost use Rattle.std.specs.Prelude.{◌≡◌, ℕ, ◌+◌, ◌<◌, ◌≤◌, ◌↔◌, length, vec_len, Ok, Err, IfOk, IsErrOf};
ghost use Rattle.std.specs.Io.KnownBytes.{Consumes, IsAtEnd};
ghost use Rattle.hipe_edge.specs.Counts.{Rises};
ghost use Rattle.hipe_edge.specs.Bytes.{TakesCount};
ghost use Rattle.hipe_edge.specs.declared.reading.ReadAllFault.{ReadAllFault};
ghost use Rattle.hipe_edge.specs.declared.reading.ReadAllFault.TheVariants.{Memory as NoMemory};

use super::streams::Source;
use hipe_base::Memory;
use std::alloc::Global;

/// The most bytes that one read is asked for: 64 KiB, the piece in which pipes and files are read well.
pub const READ_PIECE: usize = 65_536;

/// Why not everything was read.
#[derive(Clone, Copy, Debug, PartialEq, Eq)]
pub enum ReadAllFault {
    /// A read failed.
    ReadFault,
    /// The source had more bytes than the limit.
    TooLong,
    /// There was no memory for the bytes.
    Memory,
}

impl From<Memory> for ReadAllFault {
    ghost from_gives = { λ _ e. e ≡ NoMemory };

    fn from(_error: Memory) -> ReadAllFault {
        ReadAllFault::Memory
    }
}

/// Reads the source to its end, and gives all its bytes, `limit` of them at most.
///
/// # Errors
///
/// - `ReadFault` where a read failed.
/// - `TooLong` where there were more than `limit` bytes: then `limit` + 1 of them were taken, never more.
/// - `Memory` where there was no memory for the bytes. Some of them may have been taken.
pub fn read_all<S: Source>(
    alloc: Global,
    source: &mut S,
    limit: u32,
) -> Result<Vec<u8>, ReadAllFault>
    ensures all { IfOk result (λ v. Consumes (S.left source.old) (S.left source.new) v.items
        × IsAtEnd (S.left source.new)) }
    ensures within { IfOk result (λ v. vec_len v ≤ limit) }

    // Never more than one byte past the limit, and that byte exactly where the answer is `TooLong`.
    ensures taken { TakesCount (S.left source.old) (S.left source.new)
        (λ n. (n ≤ limit + 1) × ((n ≡ limit + 1) ↔ IsErrOf result ReadAllFault.TooLong)) }
    ensures read_fault { IsErrOf result ReadAllFault.ReadFault
        → Rises (S.faults source.old) (S.faults source.new) }
    ensures faults_never_fall { S.faults source.old ≤ S.faults source.new }
{
    let most = limit as usize + 1;
    let mut buffer = vec![in alloc; 0u8; most.min(READ_PIECE)]?;
    let mut bytes = Vec::new(alloc);
    loop {
        let wanting = most - bytes.len();
        let into = &mut buffer[..wanting.min(READ_PIECE)];
        match source.read(into) {
            Ok(0) => return Ok(bytes),
            Ok(n) if n == wanting => return Err(ReadAllFault::TooLong),
            Ok(n) => bytes.extend_from_slice(&into[..n])?,
            Err(_) => return Err(ReadAllFault::ReadFault),
        }
    }
}
