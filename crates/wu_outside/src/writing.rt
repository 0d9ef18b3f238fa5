//! Writing a whole piece to a sink.
ghost use Rattle.std.specs.Prelude.{OnOk, OnErr};
ghost use Rattle.std.specs.Io.KnownBytes.{Appends};
ghost use Rattle.wu_outside.specs.Faults.{HasFaultCause};
ghost use Rattle.wu_outside.specs.Gains.{GainsPrefix};

use crate::traits::{Fault, Sink};

/// Writes the piece, all of it. After a fault the sink gained a prefix of it. `Failed` comes only
/// where the sink's count of faults rose; on every other answer the count is as it was.
pub fn write_all<O: Sink>(sink: &mut O, piece: &[u8]) -> Result<(), Fault>
    ensures ok { OnOk result (Appends (O.gained sink.old) (O.gained sink.new) piece.now) }
    ensures err { OnErr result (GainsPrefix (O.gained sink.old) (O.gained sink.new) piece.now) }
    ensures cause { HasFaultCause (O.faults sink.old) (O.faults sink.new) result }
{
    let mut at = 0;
    while at < piece.len() {
        match sink.write(&piece[at..]) {
            Ok(0) => return Err(Fault::Failed),
            Ok(count) => at += count,
            Err(fault) => return Err(fault),
        }
    }
    Ok(())
}
