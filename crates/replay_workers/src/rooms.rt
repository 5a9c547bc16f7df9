ghost use Rattle.std.specs.Prelude.{ℕ, ◌≡◌, ◌*◌, ◌<◌, ◌≤◌, length, vec_len, slice_index, sum, IfOk};
ghost use Rattle.replay_share.specs.Replay.{lines_of};

use replay_log::Line;
use request_script::CALLS_A_LINE;
use std::alloc::Global;
use zone_outside::NoMemory;

/// How many calls each worker may make to a zone: `CALLS_A_LINE` for each of its lines.
pub(crate) fn rooms(alloc: Global, lines: &[Line], workers: u32) -> Result<Vec<u32>, NoMemory>
    requires some { 0 < workers }
    requires few { length lines.now ≤ 131072 }
    ensures count { IfOk result (λ rooms. vec_len rooms ≡ workers) }
    ensures each { IfOk result (λ rooms. (k : ℕ) → k < workers → slice_index rooms.items k ≡ 3 * length (lines_of workers k lines.now)) }
    ensures total { IfOk result (λ rooms. sum rooms.items ≡ 3 * length lines.now) }
{
    let mut rooms = vec![in alloc; 0u32; workers as usize]?;
    for line in lines {
        rooms[(line.conn % workers) as usize] += CALLS_A_LINE;
    }
    Ok(rooms)
}
