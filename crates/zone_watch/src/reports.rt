ghost use Rattle.std.specs.Prelude.{◌≡◌, ◌++◌, IfOk, OnOk, map};
ghost use Rattle.zone_watch.specs.Watched.{report_of, reports_of};

use crate::watcher::Watcher;
use std::alloc::Global;
use zone_outside::{NoMemory, Text};

/// The report of one watcher.
fn report<W: Watcher>(alloc: Global, watcher: &W) -> Result<Text, NoMemory>
    ensures { IfOk result (λ text. text ≡ report_of (W.watched watcher.now)) }
{
    watcher.report(alloc)
}

/// Adds the report of one watcher.
fn push_report<W: Watcher>(alloc: Global, text: &mut Vec<u8>, watcher: &W) -> Result<(), NoMemory>
    ensures { OnOk result (text.new.items ≡ text.old.items ++ report_of (W.watched watcher.now)) }
{
    let told = report(alloc, watcher)?;
    text.extend_from_slice(told.bytes())?;
    Ok(())
}

/// Adds the reports of the watchers, in their order. `NoMemory`: there was none for a report or for the text.
pub fn push_reports<W: Watcher>(
    alloc: Global,
    text: &mut Vec<u8>,
    list: &[W],
) -> Result<(), NoMemory>
    ensures { OnOk result (text.new.items ≡ text.old.items ++ reports_of (map W.watched list.now)) }
{
    for watcher in list {
        push_report(alloc, text, watcher)?;
    }
    Ok(())
}
