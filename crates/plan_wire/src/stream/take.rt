ghost use Rattle.std.specs.Prelude.{◌≡◌, ◌+◌, ◌<◌, ◌≤◌, ◌≢◌, [], length, Some, vec_len, Err, IfOk, OnOk, IfSome, IsErrOf};
ghost use Rattle.plan_wire.specs.Stream.{TakesAtMost};
ghost use Rattle.plan_wire.specs.Documents.{most_bytes};

use super::failed::Failed;
use super::source::Source;
use std::alloc::{AllocError, Global};

/// Why a document was not taken.
#[derive(Clone, Copy, Debug, PartialEq, Eq)]
pub enum TakeFault {
    /// The source failed.
    Failed,
    /// There are more bytes than a document may have.
    TooLong,
    /// There was no memory left.
    NoMemory,
}

/// The most bytes that a document may have.
pub const MOST_BYTES: usize = 4_194_304;

/// How many bytes are asked for at once.
const CHUNK: usize = 4096;

impl From<Failed> for TakeFault {
    ghost use Rattle.plan_wire.specs.declared.stream.take.TakeFault.TheVariants as fault;

    ghost from_gives = { λ _ e. e ≡ fault.Failed };

    fn from(_failed: Failed) -> TakeFault {
        TakeFault::Failed
    }
}

impl From<AllocError> for TakeFault {
    ghost use Rattle.plan_wire.specs.declared.stream.take.TakeFault.TheVariants as fault;

    ghost from_gives = { λ _ e. e ≡ fault.NoMemory };

    fn from(_error: AllocError) -> TakeFault {
        TakeFault::NoMemory
    }
}

/// Takes all bytes of the source, and reads on only as long as a document may still be whole.
pub fn take_all<S: Source>(alloc: Global, source: &mut S) -> Result<Vec<u8>, TakeFault>
    ensures count { S.faults source.old ≤ S.faults source.new }
    ensures bounded { IfOk result (λ bytes. vec_len bytes ≤ most_bytes) }
    ensures exact { IfOk result
        (λ bytes. IfSome (S.remaining source.old) (λ all. bytes.items ≡ all)) }
    ensures ended { OnOk result
        (IfSome (S.remaining source.old) (λ _. S.remaining source.new ≡ Some [])) }
    ensures long { IsErrOf result TakeFault.TooLong
        → IfSome (S.remaining source.old) (λ all. most_bytes < length all) }
    ensures still { result ≢ Err TakeFault.Failed → S.faults source.new ≡ S.faults source.old }
    ensures rose { IsErrOf result TakeFault.Failed
        → S.rises (S.faults source.old) (S.faults source.new) }
    ensures left { TakesAtMost (most_bytes + 1) (S.remaining source.old) (S.remaining source.new) }
{
    let mut bytes = Vec::new(alloc);
    let mut room = [0u8; CHUNK];
    while bytes.len() <= MOST_BYTES {
        let size = CHUNK.min(MOST_BYTES + 1 - bytes.len());
        let n = source.read(&mut room[..size])?;
        if n == 0 {
            return Ok(bytes);
        }
        bytes.extend_from_slice(&room[..n])?;
    }
    Err(TakeFault::TooLong)
}
