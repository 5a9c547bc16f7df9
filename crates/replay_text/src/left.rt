ghost use Rattle.std.specs.Prelude.{ℕ, ◌≡◌, ◌++◌, List, OnOk, map, slice_get};
ghost use Rattle.zone_config.specs.Configuration.{zone_name};
ghost use Rattle.replay_share.specs.Logs.{IsAt};
ghost use Rattle.replay_workers.specs.Columns.{IsRunOf, log_left};
ghost use Rattle.replay_text.specs.ReplayText.{zone_text, zones_text};
ghost use Rattle.replay_text.specs.Images.{AddsWords, LaysAfter, IsImageOf, AreImages, zone_text_with_words, zones_text_with_words};

use crate::histories::{push_conn_zone, push_peer_zone, push_req_zone};
use crate::images::{push_conn_words, push_peer_words, push_req_words};
use replay_workers::ZoneHistory;
use std::alloc::Global;
use zone_config::ZoneSpec;
use zone_outside::NoMemory;

/// Adds the history of a zone as a replay leaves it.
fn push_history(
    alloc: Global,
    text: &mut Vec<u8>,
    spec: &ZoneSpec,
    left: &ZoneHistory,
) -> Result<(), NoMemory>
    requires { (workers : ℕ) × IsRunOf workers spec.now left.now }
    ensures { OnOk result (text.new.items ≡ text.old.items ++ zone_text spec.now (log_left left.now)) }
{
    match (spec, left) {
        (ZoneSpec::Req { spec, key: _ }, ZoneHistory::Req { zone, entries }) => {
            push_req_zone(alloc, text, spec, zone, entries)
        }
        (ZoneSpec::Conn { spec, key: _ }, ZoneHistory::Conn { zone, entries }) => {
            push_conn_zone(alloc, text, spec, zone, entries)
        }
        (ZoneSpec::Peer { spec, line: _ }, ZoneHistory::Peer { zone, entries }) => {
            push_peer_zone(alloc, text, spec, zone, entries)
        }
        _ => unreachable!(),
    }
}

/// Adds the words of a zone as a replay leaves it.
fn push_words_left(
    alloc: Global,
    text: &mut Vec<u8>,
    spec: &ZoneSpec,
    left: &ZoneHistory,
) -> Result<(), NoMemory>
    requires { (workers : ℕ) × IsRunOf workers spec.now left.now }
    ensures { OnOk result (AddsWords (zone_name spec.now) (LaysAfter spec.now (log_left left.now)) text.old.items text.new.items) }
{
    match (spec, left) {
        (ZoneSpec::Req { spec, key: _ }, ZoneHistory::Req { zone, entries: _ }) => {
            push_req_words(alloc, text, spec, zone)
        }
        (ZoneSpec::Conn { spec, key: _ }, ZoneHistory::Conn { zone, entries: _ }) => {
            push_conn_words(alloc, text, spec, zone)
        }
        (ZoneSpec::Peer { spec, line: _ }, ZoneHistory::Peer { zone, entries: _ }) => {
            push_peer_words(alloc, text, spec, zone)
        }
        _ => unreachable!(),
    }
}

/// Adds the history of a zone as a replay leaves it, and then its words.
fn push_history_with_words(
    alloc: Global,
    text: &mut Vec<u8>,
    spec: &ZoneSpec,
    left: &ZoneHistory,
) -> Result<(), NoMemory>
    requires { (workers : ℕ) × IsRunOf workers spec.now left.now }
    ensures { OnOk result ((words : List ℕ) × IsImageOf spec.now (log_left left.now) words × (text.new.items ≡ text.old.items ++ zone_text_with_words spec.now (log_left left.now) words)) }
{
    push_history(alloc, text, spec, left)?;
    push_words_left(alloc, text, spec, left)?;
    Ok(())
}

/// Adds the histories of all zones as a replay leaves them, in their order: for each the line that begins it, a line for
/// each call, and how full the zone is. `NoMemory`: there was none for the text.
pub fn push_histories(
    alloc: Global,
    text: &mut Vec<u8>,
    specs: &[ZoneSpec],
    left: &[ZoneHistory],
) -> Result<(), NoMemory>
    requires { (workers : ℕ) × ((z : ℕ) → IsAt (IsRunOf workers) (slice_get specs.now z) (slice_get left.now z)) }
    ensures { OnOk result (text.new.items ≡ text.old.items ++ zones_text specs.now (map log_left left.now)) }
{
    for (spec, zone) in specs.iter().zip(left) {
        push_history(alloc, text, spec, zone)?;
    }
    Ok(())
}

/// The same, and behind how full each zone is its words: the line `zone NAME words N`, and `w INDEX VALUE` for each word that
/// isn't 0.
pub fn push_histories_with_words(
    alloc: Global,
    text: &mut Vec<u8>,
    specs: &[ZoneSpec],
    left: &[ZoneHistory],
) -> Result<(), NoMemory>
    requires { (workers : ℕ) × ((z : ℕ) → IsAt (IsRunOf workers) (slice_get specs.now z) (slice_get left.now z)) }
    ensures { OnOk result ((images : List (List ℕ)) × AreImages specs.now (map log_left left.now) images × (text.new.items ≡ text.old.items ++ zones_text_with_words specs.now (map log_left left.now) images)) }
{
    for (spec, zone) in specs.iter().zip(left) {
        push_history_with_words(alloc, text, spec, zone)?;
    }
    Ok(())
}
