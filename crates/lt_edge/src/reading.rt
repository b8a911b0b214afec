//! Reading a source to its end.
ghost use Rattle.std.specs.Prelude.{◌≡◌, ◌≢◌, ◌<◌, ◌≤◌, vec_len, IfOk, OnErr, Err};
ghost use Rattle.std.specs.Io.KnownBytes.{Consumes, IsAtEnd};
ghost use Rattle.lt_edge.specs.Bytes.{ReadsUpTo, ConsumesUpTo};
ghost use Rattle.lt_edge.specs.Causes.{Rose};

use crate::Source;
use std::alloc::{AllocError, Global};
use thiserror::Error;

/// Why not all was read.
#[derive(Clone, Copy, Debug, PartialEq, Eq, Hash, Error)]
pub enum ReadFault {
    /// The bytes that were read found no room.
    #[error("out of memory")]
    OutOfMemory,
    /// A call of the source failed.
    #[error("the input failed")]
    Failed,
}

impl From<AllocError> for ReadFault {
    ghost use Rattle.std.specs.Prelude.{◌≡◌};
    ghost use Rattle.lt_edge.specs.declared.reading.ReadFault.TheVariants.{OutOfMemory};

    ghost from_gives = { λ _ fault. fault ≡ OutOfMemory };

    fn from(_error: AllocError) -> ReadFault {
        ReadFault::OutOfMemory
    }
}

/// How many bytes one call of a source is asked for.
const PIECE: usize = 8192;

/// Reads to the end, or up to a limit of bytes, and stops at the first fault. `Failed` comes where the source failed,
/// and `OutOfMemory` where the bytes found no room; what was read until then is lost.
pub fn read_all<S: Source>(
    alloc: Global,
    source: &mut S,
    limit: usize,
) -> Result<Vec<u8>, ReadFault>
    ensures bytes { IfOk result (λ v. ReadsUpTo limit (S.left source.old) v.items) }
    ensures within { IfOk result (λ v. vec_len v ≤ limit) }
    ensures rest { IfOk result (λ v. Consumes (S.left source.old) (S.left source.new) v.items) }
    ensures end { IfOk result (λ v. vec_len v < limit → IsAtEnd (S.left source.new)) }
    ensures lost { OnErr result (ConsumesUpTo limit (S.left source.old) (S.left source.new)) }

    ensures failed { result ≡ Err ReadFault.Failed → Rose (S.faults source.old) (S.faults source.new) }
    ensures calm { result ≢ Err ReadFault.Failed → S.faults source.new ≡ S.faults source.old }
    ensures later { S.faults source.old ≤ S.faults source.new }
{
    let mut all = Vec::new(alloc);
    let mut buf = [0u8; PIECE];
    'pieces: while all.len() < limit {
        let room = buf.len().min(limit - all.len());
        let Ok(n) = source.next(&mut buf[..room]) else {
            return Err(ReadFault::Failed);
        };
        if n == 0 {
            return Ok(all);
        }
        all.extend_from_slice(&buf[..n])?;
    }
    Ok(all)
}
