ghost use Rattle.std.specs.Prelude.{◌≡◌, ◌++◌, OnOk, slice_get};
ghost use Rattle.request_script.specs.Zones.{primary_in, backup_in};
ghost use Rattle.decision_text.specs.DecisionText.{name_word, servers_in, servers_beside, server_word, outcome_word, req_word, by_word, excess_word, req_words, conn_word, peer_word, decision_words, decision_text};

use crate::check::name_of;
use crate::coding::push_coded;
use crate::numbers::{push_number, push_thousandths, push_with};
use replay_log::Line;
use request_script::{ConnStatus, Decision, Excess, Outcome, PeerAt, ReqStatus};
use std::alloc::AllocError;
use zone_config::{Config, ServerData, ZoneSpec};
use zone_outside::NoMemory;

// ---- zones and servers

/// Adds the name of the zone of this number.
fn push_name(text: &mut Vec<u8>, zones: &[ZoneSpec], number: u32) -> Result<(), AllocError>
    ensures { OnOk result (text.new.items ≡ text.old.items ++ name_word (slice_get zones.now number)) }
{
    match zones.get(number as usize) {
        Some(zone) => push_coded(text, name_of(zone)),
        None => Ok(()),
    }
}

/// Adds a word and the name of the zone of this number.
fn push_with_name(
    text: &mut Vec<u8>,
    word: &[u8],
    zones: &[ZoneSpec],
    number: u32,
) -> Result<(), AllocError>
    ensures { OnOk result (text.new.items ≡ text.old.items ++ (word.now ++ name_word (slice_get zones.now number))) }
{
    text.extend_from_slice(word)?;
    push_name(text, zones, number)
}

/// The servers of the list that a server stands in.
fn servers_beside(zones: &[ZoneSpec], peer: PeerAt) -> &[ServerData]
    ensures { result.now ≡ servers_beside zones.now peer }
{
    match zones.get(peer.zone as usize) {
        Some(ZoneSpec::Peer { spec, line: _ }) => match peer.list {
            0 => spec.primary.as_slice(),
            1 => spec.backup.as_slice(),
            _ => &[],
        },
        _ => &[],
    }
}

/// Adds the address of a server.
fn push_server(text: &mut Vec<u8>, zones: &[ZoneSpec], peer: PeerAt) -> Result<(), AllocError>
    ensures { OnOk result (text.new.items ≡ text.old.items ++ server_word zones.now peer) }
{
    match servers_beside(zones, peer).get(peer.index as usize) {
        Some(server) => push_coded(text, server.address.bytes()),
        None => Ok(()),
    }
}

/// Adds a word and the address of a server.
fn push_with_server(
    text: &mut Vec<u8>,
    word: &[u8],
    zones: &[ZoneSpec],
    peer: PeerAt,
) -> Result<(), AllocError>
    ensures { OnOk result (text.new.items ≡ text.old.items ++ (word.now ++ server_word zones.now peer)) }
{
    text.extend_from_slice(word)?;
    push_server(text, zones, peer)
}

// ---- the words of an open

/// Adds how a request goes on from its open.
fn push_outcome(text: &mut Vec<u8>, outcome: Outcome) -> Result<(), AllocError>
    ensures { OnOk result (text.new.items ≡ text.old.items ++ outcome_word outcome) }
{
    match outcome {
        Outcome::Pass => text.extend_from_slice(b"pass"),
        Outcome::Limited { status } => push_number(text, u64::from(status)),
        Outcome::Gateway => text.extend_from_slice(b"502"),
    }
}

/// What the limits of requests say, as a word.
fn req_word(status: ReqStatus) -> &'static [u8]
    ensures { result.now ≡ req_word status }
{
    match status {
        ReqStatus::Unset => b"-",
        ReqStatus::Passed => b"PASSED",
        ReqStatus::Delayed => b"DELAYED",
        ReqStatus::Rejected => b"REJECTED",
        ReqStatus::DelayedDry => b"DELAYED_DRY_RUN",
        ReqStatus::RejectedDry => b"REJECTED_DRY_RUN",
    }
}

/// Adds the zone of the limit of requests that delays or refuses a request.
fn push_by(text: &mut Vec<u8>, zones: &[ZoneSpec], by: Option<u32>) -> Result<(), AllocError>
    ensures { OnOk result (text.new.items ≡ text.old.items ++ by_word zones.now by) }
{
    match by {
        Some(zone) => push_name(text, zones, zone),
        None => text.extend_from_slice(b"-"),
    }
}

/// Adds the excess for which a request is delayed or refused.
fn push_excess(text: &mut Vec<u8>, excess: Excess) -> Result<(), AllocError>
    ensures { OnOk result (text.new.items ≡ text.old.items ++ excess_word excess) }
{
    match excess {
        Excess::Unset => text.extend_from_slice(b"-"),
        Excess::Amount { value } => push_thousandths(text, value),
        Excess::Full => text.extend_from_slice(b"full"),
    }
}

/// Adds all that the limits of requests say.
fn push_req(
    text: &mut Vec<u8>,
    zones: &[ZoneSpec],
    status: ReqStatus,
    delay: u64,
    by: Option<u32>,
    excess: Excess,
) -> Result<(), AllocError>
    ensures { OnOk result (text.new.items ≡ text.old.items ++ req_words zones.now status delay by excess) }
{
    text.extend_from_slice(b" req=")?;
    text.extend_from_slice(req_word(status))?;
    push_with(text, b" delay=", delay)?;
    text.extend_from_slice(b" by=")?;
    push_by(text, zones, by)?;
    text.extend_from_slice(b" excess=")?;
    push_excess(text, excess)
}

/// Adds what the limits of connections say.
fn push_conn(text: &mut Vec<u8>, zones: &[ZoneSpec], status: ConnStatus) -> Result<(), AllocError>
    ensures { OnOk result (text.new.items ≡ text.old.items ++ conn_word zones.now status) }
{
    match status {
        ConnStatus::Unset => text.extend_from_slice(b"-"),
        ConnStatus::Passed => text.extend_from_slice(b"PASSED"),
        ConnStatus::Rejected { zone } => push_with_name(text, b"REJECTED:", zones, zone),
        ConnStatus::RejectedDry { zone } => push_with_name(text, b"REJECTED_DRY_RUN:", zones, zone),
    }
}

/// Adds the server that takes a request.
fn push_peer(text: &mut Vec<u8>, zones: &[ZoneSpec], peer: Option<PeerAt>) -> Result<(), AllocError>
    ensures { OnOk result (text.new.items ≡ text.old.items ++ peer_word zones.now peer) }
{
    match peer {
        Some(peer) => push_server(text, zones, peer),
        None => text.extend_from_slice(b"-"),
    }
}

// ---- the line

/// Adds what is decided.
fn push_words(text: &mut Vec<u8>, zones: &[ZoneSpec], decision: Decision) -> Result<(), AllocError>
    ensures { OnOk result (text.new.items ≡ text.old.items ++ decision_words zones.now decision) }
{
    match decision {
        Decision::Busy => text.extend_from_slice(b"open busy"),
        Decision::Started {
            outcome,
            req,
            delay,
            by,
            excess,
            conn,
            peer,
        } => {
            text.extend_from_slice(b"open ")?;
            push_outcome(text, outcome)?;
            push_req(text, zones, req, delay, by, excess)?;
            text.extend_from_slice(b" conn=")?;
            push_conn(text, zones, conn)?;
            text.extend_from_slice(b" peer=")?;
            push_peer(text, zones, peer)
        }
        Decision::NextPeer { peer } => push_with_server(text, b"fail next peer=", zones, peer),
        Decision::FailGateway => text.extend_from_slice(b"fail 502"),
        Decision::IdleFail => text.extend_from_slice(b"fail idle"),
        Decision::Ended => text.extend_from_slice(b"done end"),
        Decision::IdleDone => text.extend_from_slice(b"done idle"),
    }
}

/// Adds the line of a decision, ended by a line feed: the number of the log's line, its connection, and what is decided
/// of it. Zones and servers are those of the configuration, by their names and addresses in coded text; a delay is in
/// ms, and an excess in requests with three digits behind the dot. The status of requests is that of nginx's variable
/// `$limit_req_status`, and that of connections the one of `$limit_conn_status` with the zone behind a refusal.
/// `NoMemory`: there was none for the text.
pub fn push_decision(
    text: &mut Vec<u8>,
    config: &Config,
    line: &Line,
    decision: Decision,
) -> Result<(), NoMemory>
    ensures { OnOk result (text.new.items ≡ text.old.items ++ decision_text config.now line.now decision) }
{
    push_number(text, u64::from(line.number))?;
    push_with(text, b" ", u64::from(line.conn))?;
    text.push(b' ')?;
    push_words(text, config.zones.as_slice(), decision)?;
    text.push(b'\n')?;
    Ok(())
}
