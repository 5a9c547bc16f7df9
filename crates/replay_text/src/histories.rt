ghost use Rattle.std.specs.Prelude.{ℕ, ◌≡◌, ◌++◌, List, OnOk, map};
ghost use Rattle.zone_config.specs.declared.data.ZoneSpec.{ZoneSpec};
ghost use Rattle.request_script.specs.Turn.{Exchange};
ghost use Rattle.replay_share.specs.Journals.{IsJournalOf, Serves, log_of};
ghost use Rattle.replay_text.specs.After.{IsReqAfter, IsConnAfter, IsPeerAfter};
ghost use Rattle.replay_text.specs.ReplayText.{lines_from, req_line, conn_line, peer_line, req_text, conn_text, peer_text, zone_text, zones_text};

use conn_zone::ConnZone;
use decision_text::{push_conn_entry, push_peer_entry, push_req_entry, push_tail, push_zone_head};
use peer_zone::PeerZone;
use replay_share::{Journals, ZoneJournal};
use req_zone::ReqZone;
use std::alloc::Global;
use zone_config::{ConnData, PeerData, ReqData, ZoneSpec};
use zone_object::Entry;
use zone_outside::NoMemory;

/// Adds a line for each call of a request zone.
fn push_req_lines(
    alloc: Global,
    text: &mut Vec<u8>,
    entries: &[Entry<ReqZone>],
) -> Result<(), NoMemory>
    ensures { OnOk result (text.new.items ≡ text.old.items ++ lines_from req_line 1 entries.now) }
{
    let mut place = 1u64;
    for entry in entries {
        push_req_entry(alloc, text, place, entry.caller, &entry.call, entry.reply)?;
        place += 1;
    }
    Ok(())
}

/// Adds a line for each call of a connection zone.
fn push_conn_lines(
    alloc: Global,
    text: &mut Vec<u8>,
    entries: &[Entry<ConnZone>],
) -> Result<(), NoMemory>
    ensures { OnOk result (text.new.items ≡ text.old.items ++ lines_from conn_line 1 entries.now) }
{
    let mut place = 1u64;
    for entry in entries {
        push_conn_entry(alloc, text, place, entry.caller, &entry.call, entry.reply)?;
        place += 1;
    }
    Ok(())
}

/// Adds a line for each call of an upstream's zone.
fn push_peer_lines(
    alloc: Global,
    text: &mut Vec<u8>,
    entries: &[Entry<PeerZone>],
) -> Result<(), NoMemory>
    ensures { OnOk result (text.new.items ≡ text.old.items ++ lines_from peer_line 1 entries.now) }
{
    let mut place = 1u64;
    for entry in entries {
        push_peer_entry(alloc, text, place, entry.caller, &entry.call, entry.reply)?;
        place += 1;
    }
    Ok(())
}

/// Adds the history of a request zone: the line that begins it, a line for each call, and how full the zone is.
pub(crate) fn push_req_zone(
    alloc: Global,
    text: &mut Vec<u8>,
    spec: &ReqData,
    zone: &ReqZone,
    entries: &[Entry<ReqZone>],
) -> Result<(), NoMemory>
    requires { IsReqAfter spec.now entries.now zone.now }
    ensures { OnOk result (text.new.items ≡ text.old.items ++ req_text spec.now entries.now) }
{
    push_zone_head(text, spec.name.bytes(), b" req ", entries.len() as u64)?;
    push_req_lines(alloc, text, entries)?;
    push_tail(text, zone)?;
    Ok(())
}

/// Adds the history of a connection zone: the line that begins it, a line for each call, and how full the zone is.
pub(crate) fn push_conn_zone(
    alloc: Global,
    text: &mut Vec<u8>,
    spec: &ConnData,
    zone: &ConnZone,
    entries: &[Entry<ConnZone>],
) -> Result<(), NoMemory>
    requires { IsConnAfter spec.now entries.now zone.now }
    ensures { OnOk result (text.new.items ≡ text.old.items ++ conn_text spec.now entries.now) }
{
    push_zone_head(text, spec.name.bytes(), b" conn ", entries.len() as u64)?;
    push_conn_lines(alloc, text, entries)?;
    push_tail(text, zone)?;
    Ok(())
}

/// Adds the history of an upstream's zone: the line that begins it, a line for each call, and how full the zone is.
pub(crate) fn push_peer_zone(
    alloc: Global,
    text: &mut Vec<u8>,
    spec: &PeerData,
    zone: &PeerZone,
    entries: &[Entry<PeerZone>],
) -> Result<(), NoMemory>
    requires { IsPeerAfter spec.now entries.now zone.now }
    ensures { OnOk result (text.new.items ≡ text.old.items ++ peer_text spec.now entries.now) }
{
    push_zone_head(text, spec.name.bytes(), b" peer ", entries.len() as u64)?;
    push_peer_lines(alloc, text, entries)?;
    push_tail(text, zone)?;
    Ok(())
}

/// Adds the history of a zone that has a journal.
fn push_zone(
    alloc: Global,
    text: &mut Vec<u8>,
    spec: &ZoneSpec,
    zone: &ZoneJournal,
) -> Result<(), NoMemory>
    requires { (room : ℕ) × IsJournalOf room spec.now zone.now }
    ensures { OnOk result (text.new.items ≡ text.old.items ++ zone_text spec.now (log_of zone.now)) }
{
    match (spec, zone) {
        (ZoneSpec::Req { spec, key: _ }, ZoneJournal::Req { journal }) => {
            push_req_zone(alloc, text, spec, journal.object(), journal.entries())
        }
        (ZoneSpec::Conn { spec, key: _ }, ZoneJournal::Conn { journal }) => {
            push_conn_zone(alloc, text, spec, journal.object(), journal.entries())
        }
        (ZoneSpec::Peer { spec, line: _ }, ZoneJournal::Peer { journal }) => {
            push_peer_zone(alloc, text, spec, journal.object(), journal.entries())
        }
        _ => unreachable!(),
    }
}

/// Adds the histories of all zones that have journals, in their order: for each the line that begins it, a line for each
/// call, and how full the zone is. `NoMemory`: there was none for the text.
pub fn push_zones(
    alloc: Global,
    text: &mut Vec<u8>,
    specs: &[ZoneSpec],
    zones: &Journals,
) -> Result<(), NoMemory>
    requires { (room : ℕ) × (asked : List Exchange) × Serves zones.now specs.now room asked }
    ensures { (room : ℕ) (asked : List Exchange) → Serves zones.now specs.now room asked → OnOk result (text.new.items ≡ text.old.items ++ zones_text specs.now (map log_of zones.now)) }
{
    let journals = zones.as_slice();
    for (spec, journal) in specs.iter().zip(journals) {
        push_zone(alloc, text, spec, journal)?;
    }
    Ok(())
}
