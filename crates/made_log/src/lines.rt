ghost use Rattle.std.specs.Prelude.{◌≡◌, ◌≤◌, IfOk};
ghost use Rattle.std.specs.List.{All};
ghost use Rattle.replay_log.specs.Limits.{IsLineOf};
ghost use Rattle.made_log.specs.MadeLog.{made_lines};

use crate::draws::{draw_line, generator_of};
use replay_log::Line;
use std::alloc::Global;
use zone_outside::NoMemory;

/// The moment before the first line, in ms.
const FIRST_MOMENT: u64 = 1_000_000;

/// The log of so many lines of a seed. The generator is `Lcg64Xsh32::seed_from_u64(seed)`, and each line takes four draws,
/// its next words of 32 bits: how many ms it is behind the line before it, its connection, its event, and an address. The
/// same seed gives the same log. `NoMemory`: there was none for the lines.
pub fn made_lines(alloc: Global, seed: u64, count: u32) -> Result<Vec<Line>, NoMemory>
    requires { count ≤ 131072 }
    ensures made { IfOk result (λ lines. lines.items ≡ made_lines seed count) }
    ensures in_limits { IfOk result (λ lines. All (IsLineOf 1) lines.items) }
{
    let mut generator = generator_of(seed);
    let mut moment = FIRST_MOMENT;
    let mut lines = Vec::with_capacity(alloc, count as usize)?;
    for number in 0..count {
        let line = draw_line(alloc, &mut generator, number + 1, moment);
        moment = line.moment;
        lines.push(line)?;
    }
    Ok(lines)
}
