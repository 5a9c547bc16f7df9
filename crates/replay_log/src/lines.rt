ghost use Rattle.std.specs.Prelude.{◌≡◌, ◌<◌, ◌≤◌, ℕ, List, Result, IfOk, length};
ghost use Rattle.replay_log.specs.Lines.{lines_of};
ghost use Rattle.replay_log.specs.Reading.{Tells, GivesLines};
ghost use Rattle.replay_log.specs.Next.{GivesNext};

use crate::cut::cut;
use crate::fault::{LineFault, LogFault};
use std::alloc::Global;

/// The most lines that a log may have.
const MOST_LINES: u32 = 131_072;

/// A form of the lines of a log.
pub trait LineForm {
    /// What a line says.
    type Line: Drop;

    /// What the line of a number says, by its bytes without the line feed, or the kind of its first fault.
    ghost says: { Self → ℕ → List ℕ → Result Self.Line ℕ };

    /// Reads the line of a number, without its line feed.
    fn read(&self, alloc: Global, number: u32, line: &[u8]) -> Result<Self::Line, LineFault>
        ensures { Tells (says self.now number line.now) result };
}

/// The first line of what is left of a log, which has this number in the log, and what is left behind it. The faults are
/// those of `read_lines`.
pub(crate) fn next_line<'a, F: LineForm>(
    alloc: Global,
    number: u32,
    rest: &'a [u8],
    form: &F,
) -> Result<(F::Line, &'a [u8]), LogFault>
    requires { 0 < length rest.now }
    ensures { GivesNext (F.says form.now) number rest.now result }
{
    let Some((front, tail)) = cut(rest, b'\n') else {
        return Err(LogFault::At {
            line: u64::from(number),
            kind: 1,
        });
    };
    if number > MOST_LINES {
        return Err(LogFault::At {
            line: u64::from(number),
            kind: 11,
        });
    }
    match form.read(alloc, number, front) {
        Ok(line) => Ok((line, tail)),
        Err(LineFault::Kind(kind)) => Err(LogFault::At {
            line: u64::from(number),
            kind,
        }),
        Err(LineFault::NoMemory) => Err(LogFault::NoMemory),
    }
}

/// The lines of a log, each ended by a line feed. It looks for each line feed once.
///
/// `LogFault::At` comes exactly where a line is faulty: with the number of the first one, from 1, and the kind of
/// its first fault. A last line without a line feed is kind 1, and the 131,073rd line is kind 11, whatever else
/// they say. `LogFault::NoMemory` comes where there is no memory for the lines.
pub fn read_lines<F: LineForm>(
    alloc: Global,
    text: &[u8],
    form: &F,
) -> Result<Vec<F::Line>, LogFault>
    ensures value { GivesLines (lines_of (F.says form.now) text.now) result }
    ensures few { IfOk result (λ lines. length lines.items ≤ 131072) }
{
    let mut lines = Vec::new(alloc);
    let mut rest = text;
    let mut number = 1u32;
    while !rest.is_empty() {
        let (line, tail) = next_line(alloc, number, rest, form)?;
        lines.push(line)?;
        rest = tail;
        number += 1;
    }
    Ok(lines)
}
