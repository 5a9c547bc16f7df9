ghost use Rattle.std.specs.Prelude.{◌≡◌, IfOk};
ghost use Rattle.zonereplay.specs.Stops.{fault_line};
ghost use Rattle.zonereplay.specs.Devices.{Tries, write_fault};
ghost use Rattle.zonereplay.specs.Stages.{LineTold, NumbersTold, StopTold};

use crate::status::Status;
use crate::stop::{Refusal, Stop};
use decision_text::push_number;
use std::alloc::Global;
use zone_outside::{NoMemory, Sink, Text, write_all};

/// The line that tells the forms of the words.
const USAGE: &[u8; 143] =
    b"usage: one RATE BURST SIZE LOG | check CONFIG | plain CONFIG LOG | replay CONFIG LOG WORKERS [words] | image CONFIG LOG ZONE | made SEED LINES\n";

/// Tells standard error of a failed write, if it takes that.
pub(crate) fn tell_write_fault<E: Sink>(err: &mut E) -> Status
    ensures status { result ≡ Status.WriteFault }
    ensures told { Tries (record { text = E.taken err.old; faults = E.faults err.old }) (record { text = E.taken err.new; faults = E.faults err.new }) write_fault }
{
    let _ = write_all(err, b"write fault\n");
    Status::WriteFault
}

/// Writes a line to standard error, and answers this status; or, where that fails, tells so.
fn tell<E: Sink>(err: &mut E, status: Status, line: &[u8]) -> Status
    ensures { LineTold status line.now result (record { text = E.taken err.old; faults = E.faults err.old }) (record { text = E.taken err.new; faults = E.faults err.new }) }
{
    match write_all(err, line) {
        Ok(()) => status,
        Err(_) => tell_write_fault(err),
    }
}

/// The line of a fault of a text: which text, the line, and the number of the fault.
fn fault_line(
    alloc: Global,
    text: &[u8],
    line: u64,
    between: &[u8],
    number: u32,
) -> Result<Text, NoMemory>
    ensures { IfOk result (λ told. told ≡ fault_line text.now line between.now number) }
{
    let mut told = Vec::from_slice(alloc, text)?;
    push_number(&mut told, line)?;
    told.extend_from_slice(between)?;
    push_number(&mut told, u64::from(number))?;
    told.extend_from_slice(b"\n")?;
    Ok(Text::from_vec(told))
}

/// Tells standard error of a fault of a text, and answers this status, or `NoMemory` where there is none for the line.
fn tell_fault<E: Sink>(
    alloc: Global,
    err: &mut E,
    status: Status,
    text: &[u8],
    line: u64,
    between: &[u8],
    number: u32,
) -> Status
    ensures { NumbersTold status (fault_line text.now line between.now number) result (record { text = E.taken err.old; faults = E.faults err.old }) (record { text = E.taken err.new; faults = E.faults err.new }) }
{
    match fault_line(alloc, text, line, between, number) {
        Ok(told) => tell(err, status, told.bytes()),
        Err(_) => Status::NoMemory,
    }
}

/// Tells why a command stopped, and answers its status.
pub(crate) fn tell_stop<E: Sink>(alloc: Global, err: &mut E, stop: Stop) -> Status
    ensures { StopTold stop result (record { text = E.taken err.old; faults = E.faults err.old }) (record { text = E.taken err.new; faults = E.faults err.new }) }
{
    match stop {
        Stop::Refused(Refusal::Usage) => tell(err, Status::Usage, USAGE),
        Stop::Refused(Refusal::TooLong) => tell(err, Status::TooLong, b"too long\n"),
        Stop::Refused(Refusal::Text { line, kind }) => {
            tell_fault(
                alloc,
                err,
                Status::ConfigFault,
                b"config ",
                line,
                b" text ",
                kind,
            )
        }
        Stop::Refused(Refusal::Rule { line, rule }) => {
            tell_fault(
                alloc,
                err,
                Status::ConfigFault,
                b"config ",
                line,
                b" rule ",
                rule,
            )
        }
        Stop::Refused(Refusal::Log { line, kind }) => {
            tell_fault(alloc, err, Status::LogFault, b"log ", line, b" ", kind)
        }
        Stop::ReadFault => tell(err, Status::ReadFault, b"read fault\n"),
        Stop::NoMemory => Status::NoMemory,
    }
}
