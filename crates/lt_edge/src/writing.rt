//! Writing all of some bytes.
ghost use Rattle.std.specs.Prelude.{◌≡◌, ◌≤◌, OnOk, OnErr};
ghost use Rattle.std.specs.Io.KnownBytes.{Appends};
ghost use Rattle.lt_edge.specs.Bytes.{AppendsPart};
ghost use Rattle.lt_edge.specs.Causes.{Rose};

use crate::{Failed, Sink};

/// Puts all the bytes, in their order, and stops at the first fault.
///
/// Each put is lent all the bytes that are not taken yet; none is made where there are none. Where the sink fails, it
/// has taken some of the first bytes, but not all.
pub fn put_all<K: Sink>(sink: &mut K, bytes: &[u8]) -> Result<(), Failed>
    ensures all { OnOk result (Appends (K.taken sink.old) (K.taken sink.new) bytes.now) }
    ensures part { OnErr result (AppendsPart (K.taken sink.old) (K.taken sink.new) bytes.now) }

    ensures failed { OnErr result (Rose (K.faults sink.old) (K.faults sink.new)) }
    ensures calm { OnOk result (K.faults sink.new ≡ K.faults sink.old) }
    ensures later { K.faults sink.old ≤ K.faults sink.new }
{
    let mut at = 0;
    'puts: while at < bytes.len() {
        let n = sink.put(&bytes[at..])?;
        at += n;
    }
    Ok(())
}
