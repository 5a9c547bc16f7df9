ghost use Rattle.std.specs.Prelude.{◌≡◌, ◌≤◌, length, map, take};
ghost use Rattle.std.specs.List.{filter_map};
ghost use Rattle.zone_watch.specs.Notices.{notices_of};
ghost use Rattle.zone_watch.specs.Watched.{sees, answers, left_after, shown};

use crate::stay::Stay;
use crate::watcher::Watcher;
use replay_log::Line;
use request_script::{Decision, Notice};

/// Shows a notice to one watcher.
fn show<W: Watcher>(watcher: &mut W, notice: &Notice) -> Stay
    ensures seen { W.watched watcher.new ≡ sees (W.watched watcher.old) notice.now }
    ensures answered { result ≡ answers (W.watched watcher.old) notice.now }
{
    watcher.see(notice)
}

/// Shows a notice to each watcher, in their order, and moves those that stay to the front. How many they are.
fn show_each<W: Watcher>(list: &mut [W], notice: &Notice) -> usize
    ensures stayed { map W.watched (take result list.new) ≡ filter_map (left_after notice.now) (map W.watched list.old) }
    ensures within { result ≤ length list.old }
{
    let mut kept = 0;
    for i in 0..list.len() {
        match show(&mut list[i], notice) {
            Stay::Keep => {
                list.swap(kept, i);
                kept += 1;
            }
            Stay::Leave => {}
        }
    }
    kept
}

/// Shows a notice to each watcher, and drops those that leave.
fn show_notice<W: Watcher>(list: &mut Vec<W>, notice: &Notice)
    ensures { map W.watched list.new.items ≡ filter_map (left_after notice.now) (map W.watched list.old.items) }
{
    let kept = show_each(list, notice);
    list.truncate(kept);
}

/// Shows each notice, in order, to each watcher that is still in the list. A watcher that answers `Leave` is taken out and
/// dropped, and is shown no more. Those that are left stand in the order in which they stood. It takes no memory, and time
/// linear in the notices that are shown.
pub fn show_all<W: Watcher>(list: &mut Vec<W>, notices: &[Notice])
    ensures { map W.watched list.new.items ≡ shown notices.now (map W.watched list.old.items) }
{
    for notice in notices {
        show_notice(list, notice);
    }
}

/// Shows what is decided of each line, in order, to each watcher that is still in the list, as `show_all` does for a list of
/// notices. It takes no memory, and ends where no watcher is left.
pub(crate) fn show_decisions<W: Watcher>(list: &mut Vec<W>, lines: &[Line], decisions: &[Decision])
    ensures { map W.watched list.new.items ≡ shown (notices_of lines.now decisions.now) (map W.watched list.old.items) }
{
    for (line, decision) in lines.iter().zip(decisions) {
        if list.is_empty() {
            return;
        }
        let notice = Notice {
            line: line.number,
            decision: *decision,
        };
        show_notice(list, &notice);
    }
}
