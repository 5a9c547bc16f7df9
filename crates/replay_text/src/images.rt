ghost use Rattle.std.specs.Prelude.{ℕ, ◌≡◌, ◌<◌, ◌++◌, List, OnOk, length, map, slice_get};
ghost use Rattle.zone_config.specs.Configuration.{zone_name};
ghost use Rattle.request_script.specs.Turn.{Exchange};
ghost use Rattle.replay_share.specs.Logs.{ReqEntry, ConnEntry, PeerEntry};
ghost use Rattle.replay_share.specs.Journals.{IsJournalOf, Serves, log_of};
ghost use Rattle.replay_text.specs.After.{IsReqAfter, IsConnAfter, IsPeerAfter};
ghost use Rattle.replay_text.specs.Images.{AddsWords, LaysReqAfter, LaysConnAfter, LaysPeerAfter, LaysAfter, ShowsWordsAt};

use conn_zone::ConnZone;
use decision_text::push_image;
use peer_zone::PeerZone;
use replay_share::{Journals, ZoneJournal};
use req_zone::ReqZone;
use std::alloc::Global;
use zone_config::{ConnData, PeerData, ReqData, ZoneSpec};
use zone_outside::NoMemory;

/// Adds the words of a request zone.
pub(crate) fn push_req_words(
    alloc: Global,
    text: &mut Vec<u8>,
    spec: &ReqData,
    zone: &ReqZone,
) -> Result<(), NoMemory>
    ensures { (log : List ReqEntry) → IsReqAfter spec.now log zone.now → OnOk result (AddsWords spec.now.name (LaysReqAfter spec.now log) text.old.items text.new.items) }
{
    push_image(alloc, text, spec.name.bytes(), zone)?;
    Ok(())
}

/// Adds the words of a connection zone.
pub(crate) fn push_conn_words(
    alloc: Global,
    text: &mut Vec<u8>,
    spec: &ConnData,
    zone: &ConnZone,
) -> Result<(), NoMemory>
    ensures { (log : List ConnEntry) → IsConnAfter spec.now log zone.now → OnOk result (AddsWords spec.now.name (LaysConnAfter spec.now log) text.old.items text.new.items) }
{
    push_image(alloc, text, spec.name.bytes(), zone)?;
    Ok(())
}

/// Adds the words of an upstream's zone.
pub(crate) fn push_peer_words(
    alloc: Global,
    text: &mut Vec<u8>,
    spec: &PeerData,
    zone: &PeerZone,
) -> Result<(), NoMemory>
    ensures { (log : List PeerEntry) → IsPeerAfter spec.now log zone.now → OnOk result (AddsWords spec.now.name (LaysPeerAfter spec.now log) text.old.items text.new.items) }
{
    push_image(alloc, text, spec.name.bytes(), zone)?;
    Ok(())
}

/// Adds the words of a zone that has a journal.
fn push_words(
    alloc: Global,
    text: &mut Vec<u8>,
    spec: &ZoneSpec,
    zone: &ZoneJournal,
) -> Result<(), NoMemory>
    requires { (room : ℕ) × IsJournalOf room spec.now zone.now }
    ensures { OnOk result (AddsWords (zone_name spec.now) (LaysAfter spec.now (log_of zone.now)) text.old.items text.new.items) }
{
    match (spec, zone) {
        (ZoneSpec::Req { spec, key: _ }, ZoneJournal::Req { journal }) => {
            push_req_words(alloc, text, spec, journal.object())
        }
        (ZoneSpec::Conn { spec, key: _ }, ZoneJournal::Conn { journal }) => {
            push_conn_words(alloc, text, spec, journal.object())
        }
        (ZoneSpec::Peer { spec, line: _ }, ZoneJournal::Peer { journal }) => {
            push_peer_words(alloc, text, spec, journal.object())
        }
        _ => unreachable!(),
    }
}

/// Adds the words of the zone of this number, as they are after its history: the line `zone NAME words N`, and
/// `w INDEX VALUE` for each word that isn't 0. `NoMemory`: there was none for the text.
pub fn push_zone_words(
    alloc: Global,
    text: &mut Vec<u8>,
    specs: &[ZoneSpec],
    zones: &Journals,
    number: usize,
) -> Result<(), NoMemory>
    requires there { number < length specs.now }
    requires served { (room : ℕ) × (asked : List Exchange) × Serves zones.now specs.now room asked }
    ensures { (room : ℕ) (asked : List Exchange) → Serves zones.now specs.now room asked →
        OnOk result ((image : List ℕ) × ShowsWordsAt (slice_get specs.now number) (slice_get (map log_of zones.now) number) image × (text.new.items ≡ text.old.items ++ image)) }
{
    let journals = zones.as_slice();
    push_words(alloc, text, &specs[number], &journals[number])
}
