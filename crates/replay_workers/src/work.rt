ghost use Rattle.std.specs.Prelude.{◌≡◌, List, map, IfOk};
ghost use Rattle.std.specs.List.{All};
ghost use Rattle.replay_workers.specs.Passes.{IsFreshRow, HasWorked, number_of_row, number_of_played};
ghost use Rattle.replay_workers.specs.Tasks.{task_of, CanReplay};
ghost use denote.Param.Send.{IsSync};

use crate::gate::Gate;
use crate::passes::{Played, Row, Shared};
use crate::worker::Worker;
use replay_log::Line;
use replay_share::replay_share;
use std::alloc::Global;
use std::sync::Wait;
use std::thread::{Threads, join};
use zone_config::Config;
use zone_outside::NoMemory;

/// Replays the share of one worker.
fn play<R: Wait, G: Gate>(
    rt: &R,
    alloc: Global,
    config: &Config,
    lines: &[Line],
    workers: u32,
    zones: &[Shared],
    rooms: &[u32],
    gate: &G,
    row: Row,
) -> Result<Played, NoMemory>
    requires task { CanReplay (task_of config.now lines.now workers zones.now rooms.now) }
    requires row { IsFreshRow (task_of config.now lines.now workers zones.now rooms.now) row }
    ensures worked { IfOk result (HasWorked (task_of config.now lines.now workers zones.now rooms.now)) }
    ensures number { IfOk result (λ played. played.number ≡ row.number) }
{
    let Row { number, passes } = row;
    let mut worker = Worker {
        rt,
        gate,
        zones,
        rooms,
        number,
        calls: 0,
        passes,
    };
    let decisions = replay_share(alloc, config, lines, workers, number, &mut worker)?;
    Ok(Played {
        number,
        decisions,
        passes: worker.into_passes(),
    })
}

/// Replays the shares of all workers, each in a thread of its own, divided by halves. They come back in their order.
pub(crate) fn work<R: Threads + Wait + Sync, G: Gate + Sync>(
    rt: &R,
    alloc: Global,
    config: &Config,
    lines: &[Line],
    workers: u32,
    zones: &[Shared],
    rooms: &[u32],
    gate: &G,
    mut rows: Vec<Row>,
) -> Result<Vec<Played>, NoMemory>
    requires task { CanReplay (task_of config.now lines.now workers zones.now rooms.now) }
    requires rows { All (IsFreshRow (task_of config.now lines.now workers zones.now rooms.now)) rows.items }
    ensures worked { IfOk result (λ done. All (HasWorked (task_of config.now lines.now workers zones.now rooms.now)) done.items) }
    ensures numbers { IfOk result (λ done. map number_of_played done.items ≡ map number_of_row rows.items) }
{
    if rows.len() < 2 {
        let mut done = Vec::new(alloc);
        if let Some(row) = rows.pop() {
            done.push(play(rt, alloc, config, lines, workers, zones, rooms, gate, row)?)?;
        }
        return Ok(done);
    }
    let half = rows.len() / 2;
    let rest = rows.split_off(half)?;
    let (first, second) = join(
        rt,
        move || -> Result<Vec<Played>, NoMemory>
            requires { IsSync R.row × IsSync G.row × CanReplay (task_of config.now lines.now workers zones.now rooms.now) × All (IsFreshRow (task_of config.now lines.now workers zones.now rooms.now)) rows.items }
            ensures worked { IfOk result (λ done. All (HasWorked (task_of config.entry.now lines.entry.now workers zones.entry.now rooms.entry.now)) done.items) }
            ensures numbers { IfOk result (λ done. map number_of_played done.items ≡ map number_of_row rows.items) }
        { work(rt, alloc, config, lines, workers, zones, rooms, gate, rows) },
        move || -> Result<Vec<Played>, NoMemory>
            requires { IsSync R.row × IsSync G.row × CanReplay (task_of config.now lines.now workers zones.now rooms.now) × All (IsFreshRow (task_of config.now lines.now workers zones.now rooms.now)) rest.items }
            ensures worked { IfOk result (λ done. All (HasWorked (task_of config.entry.now lines.entry.now workers zones.entry.now rooms.entry.now)) done.items) }
            ensures numbers { IfOk result (λ done. map number_of_played done.items ≡ map number_of_row rest.items) }
        { work(rt, alloc, config, lines, workers, zones, rooms, gate, rest) },
    );
    let mut first = first?;
    let mut second = second?;
    first.append(&mut second)?;
    Ok(first)
}
