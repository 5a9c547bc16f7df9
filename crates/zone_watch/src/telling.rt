ghost use Rattle.std.specs.Prelude.{map, OnErr, OnOk};
ghost use Rattle.zone_watch.specs.Notices.{notices_of};
ghost use Rattle.zone_watch.specs.Telling.{MayBeShown, Reported};

use crate::reports::push_reports;
use crate::show::show_decisions;
use crate::watcher::Watcher;
use replay_log::Line;
use request_script::Decision;
use std::alloc::Global;
use zone_outside::NoMemory;

/// Shows each watcher of a list what is decided of each line, and then adds the reports of those that are left to a text.
/// Showing takes no memory. `NoMemory`: there was none for the reports; the list is as it was or was shown the notices.
pub fn show_and_report<W: Watcher>(
    alloc: Global,
    text: &mut Vec<u8>,
    lines: &[Line],
    decisions: &[Decision],
    list: &mut Vec<W>,
) -> Result<(), NoMemory>
    ensures told { OnOk result (Reported (notices_of lines.now decisions.now) (map W.watched list.old.items) (map W.watched list.new.items) text.old.items text.new.items) }
    ensures cut { OnErr result (MayBeShown (notices_of lines.now decisions.now) (map W.watched list.old.items) (map W.watched list.new.items)) }
{
    show_decisions(list, lines, decisions);
    push_reports(alloc, text, list)
}
