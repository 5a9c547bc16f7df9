ghost use Rattle.std.specs.Io.KnownBytes.{Keeps};
ghost use Rattle.zone_outside.specs.Buffers.{taken_by};
ghost use Rattle.zonereplay.specs.Stages.{Closes};

use crate::tell::tell_write_fault;
use zone_outside::{BufferedSink, Sink};

/// Hands on what standard output still keeps after a command that ended with this number, and answers the
/// number with which the program ends: where a write fails after a job that was done, this is told, and
/// the number is that of a failed write. After any other number nothing is told a second time.
pub(crate) fn close<O: Sink + Drop, E: Sink>(
    number: u8,
    out: &mut BufferedSink<O>,
    err: &mut E,
) -> u8
    ensures same { Keeps (taken_by out.old) (taken_by out.new) }
    ensures closed { Closes number result out.old out.new
        (record { text = E.taken err.old; faults = E.faults err.old }) (record { text = E.taken err.new; faults = E.faults err.new }) }
{
    match out.flush() {
        Err(_) if number == 0 => tell_write_fault(err).code(),
        _ => number,
    }
}
