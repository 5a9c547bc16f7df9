ghost use Rattle.std.specs.Prelude.{ℕ, ◌≡◌, ◌++◌, OnOk};
ghost use Rattle.replay_share.specs.Journals.{RunsReq, RunsConn, RunsPeer, IsJournalOf, log_of};
ghost use Rattle.made_log.specs.Summary.{conn_line, line_of, peer_line, req_line};

use crate::summary::push_zone_line;
use conn_zone::ConnZone;
use peer_zone::PeerZone;
use replay_share::ZoneJournal;
use req_zone::ReqZone;
use std::alloc::AllocError;
use zone_config::{ConnData, PeerData, ReqData, ZoneSpec};
use zone_object::Journal;

/// Adds the line of a request zone after its history.
fn push_req_zone(
    text: &mut Vec<u8>,
    spec: &ReqData,
    journal: &Journal<ReqZone>,
) -> Result<(), AllocError>
    requires { (room : ℕ) × RunsReq spec.now room journal.now }
    ensures { (room : ℕ) → RunsReq spec.now room journal.now → OnOk result (text.new.items ≡ text.old.items ++ req_line spec.now journal.now.log) }
{
    let calls = journal.entries().len() as u64;
    push_zone_line(text, spec.name.bytes(), b" req ", calls, journal.object())?;
    Ok(())
}

/// Adds the line of a connection zone after its history.
fn push_conn_zone(
    text: &mut Vec<u8>,
    spec: &ConnData,
    journal: &Journal<ConnZone>,
) -> Result<(), AllocError>
    requires { (room : ℕ) × RunsConn spec.now room journal.now }
    ensures { (room : ℕ) → RunsConn spec.now room journal.now → OnOk result (text.new.items ≡ text.old.items ++ conn_line spec.now journal.now.log) }
{
    let calls = journal.entries().len() as u64;
    push_zone_line(text, spec.name.bytes(), b" conn ", calls, journal.object())?;
    Ok(())
}

/// Adds the line of an upstream's zone after its history.
fn push_peer_zone(
    text: &mut Vec<u8>,
    spec: &PeerData,
    journal: &Journal<PeerZone>,
) -> Result<(), AllocError>
    requires { (room : ℕ) × RunsPeer spec.now room journal.now }
    ensures { (room : ℕ) → RunsPeer spec.now room journal.now → OnOk result (text.new.items ≡ text.old.items ++ peer_line spec.now journal.now.log) }
{
    let calls = journal.entries().len() as u64;
    push_zone_line(text, spec.name.bytes(), b" peer ", calls, journal.object())?;
    Ok(())
}

/// Adds `zone NAME KIND calls=N entries=E free=F` of a zone of a configuration after its history: its calls, its entries (for
/// an upstream the servers of both lists) and its free pages.
pub fn push_zone_summary(
    text: &mut Vec<u8>,
    spec: &ZoneSpec,
    zone: &ZoneJournal,
) -> Result<(), AllocError>
    requires { (room : ℕ) × IsJournalOf room spec.now zone.now }
    ensures { (room : ℕ) → IsJournalOf room spec.now zone.now → OnOk result (text.new.items ≡ text.old.items ++ line_of spec.now (log_of zone.now)) }
{
    match (spec, zone) {
        (ZoneSpec::Req { spec, key: _ }, ZoneJournal::Req { journal }) => {
            push_req_zone(text, spec, journal)
        }
        (ZoneSpec::Conn { spec, key: _ }, ZoneJournal::Conn { journal }) => {
            push_conn_zone(text, spec, journal)
        }
        (ZoneSpec::Peer { spec, line: _ }, ZoneJournal::Peer { journal }) => {
            push_peer_zone(text, spec, journal)
        }
        _ => unreachable!(),
    }
}
