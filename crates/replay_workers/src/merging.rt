ghost use Rattle.std.specs.Prelude.{ℕ, ◌≡◌, ◌<◌, ◌≤◌, List, length, map, Some, slice_get, vec_len, IfOk};
ghost use Rattle.replay_share.specs.Replay.{lines_of};
ghost use Rattle.replay_workers.specs.Merging.{IsMerged};

use crate::passes::Played;
use replay_log::Line;
use request_script::Decision;
use std::alloc::Global;
use zone_outside::NoMemory;

/// The decisions of all workers in the order of the lines.
pub(crate) fn merge(
    alloc: Global,
    lines: &[Line],
    workers: u32,
    played: &[Played],
) -> Result<Vec<Decision>, NoMemory>
    requires some { 0 < workers }
    requires few { length lines.now ≤ 131072 }
    requires all { length played.now ≡ workers }
    requires each { (k : ℕ) (one : Played) → slice_get played.now k ≡ Some one → vec_len one.decisions ≡ length (lines_of workers k lines.now) }
    ensures { IfOk result (λ merged. IsMerged workers lines.now played.now merged.items) }
{
    let mut told = vec![in alloc; 0usize; workers as usize]?;
    let mut merged = Vec::with_capacity(alloc, lines.len())?;
    for line in lines {
        let worker = (line.conn % workers) as usize;
        let next = told[worker];
        merged.push(played[worker].decisions[next])?;
        told[worker] = next + 1;
    }
    Ok(merged)
}
