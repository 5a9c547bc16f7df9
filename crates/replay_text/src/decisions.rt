ghost use Rattle.std.specs.Prelude.{◌≡◌, ◌++◌, List, map, OnOk};
ghost use Rattle.std.specs.List.{flat_map};
ghost use Rattle.replay_share.specs.Replay.{Decided, line_of, decision_of};
ghost use Rattle.replay_text.specs.ReplayText.{decided_line};

use decision_text::push_decision;
use replay_log::Line;
use request_script::Decision;
use zone_config::Config;
use zone_outside::NoMemory;

/// Adds a line for each line of the log, in their order: what was decided of it. `NoMemory`: there was none for the text.
pub fn push_decisions(
    text: &mut Vec<u8>,
    config: &Config,
    lines: &[Line],
    decisions: &[Decision],
) -> Result<(), NoMemory>
    ensures { (decided : List Decided) → map line_of decided ≡ lines.now → map decision_of decided ≡ decisions.now →
        OnOk result (text.new.items ≡ text.old.items ++ flat_map (decided_line config.now) decided) }
{
    for (line, decision) in lines.iter().zip(decisions) {
        push_decision(text, config, line, *decision)?;
    }
    Ok(())
}
