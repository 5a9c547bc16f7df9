ghost use Rattle.std.specs.Prelude.{◌≡◌, ◌<◌, ◌≤◌, ℕ, length, take, OnOk, OnErr};
ghost use Rattle.std.specs.Io.KnownBytes.{Appends};
ghost use Rattle.zone_outside.specs.Faults.{HasCause};

use memchr::memchr;
use zone_outside::{Sink, WriteFault, write_all};

/// How many bytes of a text its first line has, with its end.
fn line_length(text: &[u8]) -> usize
    requires { 0 < length text.now }
    ensures some { 0 < result }
    ensures within { result ≤ length text.now }
{
    match memchr(b'\n', text) {
        Some(end) => end + 1,
        None => text.len(),
    }
}

/// Writes a text, each line with one `write_all`. It takes no memory.
/// `WriteFault`: a write failed, and a proper prefix of the text was taken.
pub(crate) fn write_lines<K: Sink>(sink: &mut K, text: &[u8]) -> Result<(), WriteFault>
    ensures whole { OnOk result (Appends (K.taken sink.old) (K.taken sink.new) text.now) }
    ensures part { OnErr result ((n : ℕ) × (n < length text.now) × Appends (K.taken sink.old) (K.taken sink.new) (take n text.now)) }
    ensures cause { HasCause (K.faults sink.old) (K.faults sink.new) result }
    ensures calm { OnOk result (K.faults sink.new ≡ K.faults sink.old) }
{
    let mut rest = text;
    'lines: while !rest.is_empty() {
        let (line, later) = rest.split_at(line_length(rest));
        match write_all(sink, line) {
            Ok(()) => rest = later,
            Err(fault) => return Err(fault),
        }
    }
    Ok(())
}
