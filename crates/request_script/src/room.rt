ghost use Rattle.std.specs.Prelude.{◌≡◌, ◌*◌, ◌≤◌, length, replicate, IfOk};

use replay_log::Line;
use std::alloc::Global;
use zone_config::Config;
use zone_outside::NoMemory;

/// The most calls that a line of a log makes to one zone, whatever it is answered: where a server failed, it is let go, and
/// the next one is asked of both lists of its upstream.
pub const CALLS_A_LINE: u32 = 3;

/// The room for the calls of a share of a log to each zone: `CALLS_A_LINE` for each of its lines. It fails only where there is no
/// memory for the numbers.
pub fn rooms(alloc: Global, config: &Config, lines: &[Line]) -> Result<Vec<u32>, NoMemory>
    requires { length lines.now ≤ 131072 }
    ensures { IfOk result (λ rooms. rooms.items ≡ replicate (length config.now.zones) (3 * length lines.now)) }
{
    let room = lines.len() as u32 * CALLS_A_LINE;
    Ok(vec![in alloc; room; config.zones.len()]?)
}
