ghost use Rattle.std.specs.Prelude.{ℕ, ◌≡◌, ◌+◌, ◌*◌, ◌<◌, ◌≤◌, ◌∷◌, [], ◌++◌, List, length, IfOk};
ghost use Rattle.std.specs.List.{All};
ghost use Rattle.zone_config.specs.Conditions.{IsConfig};
ghost use Rattle.replay_log.specs.declared.line.Line.{Line as LogLine};
ghost use Rattle.replay_log.specs.Limits.{IsLineOf};
ghost use Rattle.request_script.specs.declared.decision.Decision.{Decision as LineDecision};
ghost use Rattle.request_script.specs.Script.{state_of};
ghost use Rattle.replay_share.specs.Replay.{lines_of};
ghost use Rattle.replay_share.specs.Share.{HasDecided, HasReplayed, IsUnderWay};

use crate::answers::Answers;
use replay_log::Line;
use request_script::{Decision, Next, Script};
use std::alloc::Global;
use zone_config::Config;
use zone_outside::NoMemory;

/// The most calls that one line makes, to all zones.
const MOST_CALLS: u32 = 32;

/// Decides the next line of a share.
fn decide<A: Answers>(
    script: &mut Script<'_>,
    config: &Config,
    line: &Line,
    zones: &mut A,
) -> Result<Decision, NoMemory>
    requires config { IsConfig config.now }
    requires line { IsLineOf (length config.now.locations) line.now }
    requires before { (start : A) × (lines : List LogLine) × (decisions : List LineDecision) × (room : ℕ) × All (IsLineOf (length config.now.locations)) lines × (3 * length lines + 3 ≤ room) × HasDecided (A.serves start zones.old config.now.zones room) config.now (state_of script.old) lines decisions }
    ensures { (start : A) (lines : List LogLine) (decisions : List LineDecision) (room : ℕ) → All (IsLineOf (length config.now.locations)) lines → 3 * length lines + 3 ≤ room → HasDecided (A.serves start zones.old config.now.zones room) config.now (state_of script.old) lines decisions
        → IfOk result (λ decision. HasDecided (A.serves start zones.new config.now.zones room) config.now (state_of script.new) (lines ++ line.now ∷ []) (decisions ++ decision ∷ [])) }
{
    let mut next = script.begin(line)?;
    for _ in 0..MOST_CALLS {
        match next {
            Next::Told { decision } => return Ok(decision),
            Next::Ask { call } => {
                let reply = zones.ask(call);
                next = script.answer(reply)?;
            }
        }
    }
    match next {
        Next::Told { decision } => Ok(decision),
        Next::Ask { call: _ } => unreachable!(),
    }
}

/// Replays a worker's share of a log against what answers its calls: the lines of those connections that are its own, of so
/// many workers. It gives what is decided of each of them, in their order, and fails only for want of memory.
pub fn replay_share<A: Answers>(
    alloc: Global,
    config: &Config,
    lines: &[Line],
    workers: u32,
    worker: u32,
    zones: &mut A,
) -> Result<Vec<Decision>, NoMemory>
    requires config { IsConfig config.now }
    requires lines { All (IsLineOf (length config.now.locations)) lines.now }
    requires some { 0 < workers }
    requires fresh { (start : A) × (room : ℕ) × A.serves start zones.old config.now.zones room [] × (3 * length (lines_of workers worker lines.now) ≤ room) }
    ensures { (start : A) (room : ℕ) → A.serves start zones.old config.now.zones room [] → 3 * length (lines_of workers worker lines.now) ≤ room
        → IfOk result (λ decisions. HasReplayed (A.serves start zones.new config.now.zones room) config.now (lines_of workers worker lines.now) decisions.items) }
{
    let mut script = Script::new(alloc, config);
    let mut decisions = Vec::with_capacity(alloc, lines.len() / workers as usize)?;
    for line in lines {
        if line.conn % workers == worker {
            decisions.push(decide(&mut script, config, line, zones)?)?;
        }
    }
    Ok(decisions)
}
