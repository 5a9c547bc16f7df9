ghost use Rattle.std.specs.Prelude.{◌≡◌, ◌<◌, ◌≤◌, length, None, IfOk};
ghost use Rattle.std.specs.List.{All};
ghost use Rattle.zone_config.specs.Conditions.{IsConfig};
ghost use Rattle.replay_log.specs.Limits.{IsLineOf};
ghost use Rattle.replay_share.specs.Opening.{refused_line};
ghost use Rattle.replay_workers.specs.Zones.{HasReplayedAll};

use crate::closing::close_zones;
use crate::gate::Gate;
use crate::history::ZoneHistory;
use crate::merging::merge;
use crate::opening::open_zones;
use crate::rooms::rooms;
use crate::rows::{numbered, passes_of};
use crate::transposing::transpose;
use crate::work::work;
use replay_log::Line;
use request_script::Decision;
use std::alloc::Global;
use std::sync::Wait;
use std::thread::Threads;
use zone_config::Config;
use zone_outside::NoMemory;

/// Replays a log in the zones of a configuration, by 1 to 16 workers, each in a thread of its own. The lines of connection c
/// are worker `c % workers`'s, in the order of the log. It gives what is decided of each line, in the order of the lines, and
/// each zone with the history of all calls to it. It may wait: for a zone's turn, and where the gate waits. It fails only for
/// want of memory.
///
/// A worker passes over the lines of the others, so the lines are read once by each of the workers.
pub fn replay<R: Threads + Wait + Sync, G: Gate + Sync>(
    rt: &R,
    alloc: Global,
    config: &Config,
    lines: &[Line],
    workers: u32,
    gate: &G,
) -> Result<(Vec<Decision>, Vec<ZoneHistory>), NoMemory>
    requires config { IsConfig config.now }
    requires lines { All (IsLineOf (length config.now.locations)) lines.now }
    requires few { length lines.now ≤ 131072 }
    requires workers { (0 < workers) × (workers ≤ 16) }
    requires opens { refused_line config.now.zones ≡ None }
    ensures { IfOk result (λ r. HasReplayedAll config.now workers lines.now r.0.items r.1.items) }
{
    let rooms = rooms(alloc, lines, workers)?;
    let (zones, columns) = open_zones(rt, alloc, config.zones.as_slice(), &rooms)?;
    let rows = numbered(alloc, transpose(alloc, columns, workers as usize)?)?;
    let played = work(
        rt, alloc, config, lines, workers, &zones, &rooms, gate, rows,
    )?;
    let decided = merge(alloc, lines, workers, &played)?;
    let columns = transpose(alloc, passes_of(alloc, played)?, zones.len())?;
    let left = close_zones(rt, alloc, zones, columns)?;
    Ok((decided, left))
}
