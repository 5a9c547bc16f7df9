ghost use Rattle.std.specs.Prelude.{◌≡◌, ◌<◌, ◌^◌, bit_or, None, Some, IfOk};
ghost use Rattle.request_script.specs.Peers.{peer_of, seconds, taken_at, tries_left};
ghost use Rattle.request_script.specs.Replies.{HasSmallIndex};
ghost use Rattle.request_script.specs.RequestSteps.{ends, fails, peer_step, started, tries_next};
ghost use Rattle.request_script.specs.Progress.{HasFewServers, behind_call, choice_turn, found, left_of, level_of, next_turn, with_peer, without_peer, without_server};
ghost use Rattle.zone_config.specs.declared.data.Config.{Config};
ghost use Rattle.request_script.specs.Turn.Turn.{decides};
ghost use Rattle.request_script.specs.declared.call.ZoneReply.TheVariants as from;

use crate::active::{Active, Opened, Taken};
use crate::call::ZoneCall;
use crate::conns::close;
use crate::decision::{ConnStatus, Decision, Outcome, PeerAt};
use crate::progress::{Asked, Behind, Choice, Left, Progress, Purpose};
use crate::said::ReqSaid;
use crate::script::Next;
use crate::zones::{has_backups, is_single, level_at, servers_up};
use peer_zone::{PeerCall, PeerReply};
use sqlite_items::Items;
use std::alloc::Global;
use zone_config::Config;
use zone_outside::NoMemory;

/// An open that ends so, after what the limits said.
pub(crate) fn started(
    outcome: Outcome,
    said: ReqSaid,
    conn: ConnStatus,
    peer: Option<PeerAt>,
) -> Decision
    ensures { result ≡ started outcome said conn peer }
{
    Decision::Started {
        outcome,
        req: said.status,
        delay: said.delay,
        by: said.by,
        excess: said.excess,
        conn,
        peer,
    }
}

/// A moment in seconds, rounded down.
fn seconds(now: u64) -> u64
    ensures { result ≡ seconds now }
{
    now / 1000
}

/// The server that a request has.
fn peer_of(taken: Taken) -> PeerAt
    ensures { result ≡ peer_of taken }
{
    PeerAt {
        zone: taken.zone,
        list: taken.list,
        index: taken.index,
    }
}

/// The decision where a server is found.
fn with_peer(said: ReqSaid, purpose: Purpose, peer: PeerAt) -> Decision
    ensures { result ≡ with_peer said purpose peer }
{
    match purpose {
        Purpose::Begin { conns } => started(Outcome::Pass, said, conns, Some(peer)),
        Purpose::Next => Decision::NextPeer { peer },
    }
}

/// The decision where there is none.
pub(crate) fn without_peer(said: ReqSaid, purpose: Purpose) -> Decision
    ensures { result ≡ without_peer said purpose }
{
    match purpose {
        Purpose::Begin { conns } => started(Outcome::Gateway, said, conns, None),
        Purpose::Next => Decision::FailGateway,
    }
}

/// The servers that were tried, with one more.
fn tried_with(tried: u64, index: u32) -> u64
    requires { index < 64 }
    ensures { result ≡ bit_or tried (2 ^ index) }
{
    tried | 1 << index
}

/// The tries that are left after a failure.
fn tries_left(config: &Config, taken: Taken) -> u64
    ensures { result ≡ tries_left config.now taken }
{
    if is_single(config, taken.zone) {
        0
    } else {
        taken.tries.saturating_sub(1)
    }
}

/// A line is decided, and its connection then has what is left.
pub(crate) fn decided(progress: &mut Progress, decision: Decision, left: Left) -> Next
    ensures { (config : Config) → next_turn config progress.new result ≡ decides decision (left_of progress.old.opened left) }
{
    progress.left = left;
    Next::Told { decision }
}

/// A list is asked for a server.
fn choose(progress: &mut Progress, choice: Choice) -> Next
    ensures { (config : Config) → next_turn config progress.new result ≡ choice_turn config progress.old.said progress.old.opened choice }
{
    progress.asked = Asked::Choose { choice };
    Next::Ask {
        call: ZoneCall::Peer {
            zone: choice.zone,
            call: PeerCall::Choose {
                list: choice.list,
                tried: choice.tried,
                now: seconds(choice.moment),
            },
        },
    }
}

/// A server is chosen for an open, where its level has an upstream.
pub(crate) fn peer_step(config: &Config, progress: &mut Progress, conns: ConnStatus) -> Next
    requires { HasFewServers config.now }
    ensures { next_turn config.now progress.new result ≡ peer_step config.now progress.old.opening.moment progress.old.opening.vars (level_of config.now progress.old.opening) progress.old.said conns progress.old.opened }
{
    match level_at(config, progress.opening.location).peers {
        None => {
            let decision = started(Outcome::Pass, progress.said, conns, None);
            decided(progress, decision, Left::Request { peer: None })
        }
        Some(zone) => {
            let choice = Choice {
                zone,
                tries: servers_up(config, zone),
                moment: progress.opening.moment,
                list: 0,
                tried: 0,
                purpose: Purpose::Begin { conns },
            };
            choose(progress, choice)
        }
    }
}

/// The request has the server of this index of the list that was asked.
fn found(progress: &mut Progress, choice: Choice, index: u32) -> Next
    requires { index < 64 }
    ensures { (config : Config) → next_turn config progress.new result ≡ found progress.old.said choice.purpose progress.old.opened (taken_at choice.zone choice.tries choice.list choice.tried index) }
{
    let taken = Taken {
        zone: choice.zone,
        list: choice.list,
        index,
        tried: tried_with(choice.tried, index),
        tries: choice.tries,
    };
    let decision = with_peer(progress.said, choice.purpose, peer_of(taken));
    decided(progress, decision, Left::Request { peer: Some(taken) })
}

/// The list that was asked has no server: the backup list is asked with nothing tried, or the request has none.
fn not_found(config: &Config, progress: &mut Progress, choice: Choice) -> Next
    requires { HasFewServers config.now }
    ensures { next_turn config.now progress.new result ≡ without_server config.now progress.old.said progress.old.opened choice }
{
    if choice.list == 0 && has_backups(config, choice.zone) {
        let choice = Choice {
            zone: choice.zone,
            tries: choice.tries,
            moment: choice.moment,
            list: 1,
            tried: 0,
            purpose: choice.purpose,
        };
        choose(progress, choice)
    } else {
        let purpose = choice.purpose;
        close(config, progress, Behind::NoServer { purpose })
    }
}

/// What a list has answered.
pub(crate) fn chosen(
    config: &Config,
    progress: &mut Progress,
    choice: Choice,
    reply: PeerReply,
) -> Next
    requires servers { HasFewServers config.now }
    requires range { HasSmallIndex reply }
    ensures { next_turn config.now progress.new result ≡ behind_call (choice_turn config.now progress.old.said progress.old.opened choice) (from.Peer reply) }
{
    match reply {
        PeerReply::Peer { index } => found(progress, choice, index),
        PeerReply::NoPeer | PeerReply::Freed => not_found(config, progress, choice),
    }
}

/// A server is given back, as failed or as good.
fn free(taken: Taken, failed: bool, now: u64) -> ZoneCall
    ensures { result ≡ ZoneCall.Peer taken.zone (PeerCall.Free taken.list taken.index failed (seconds now)) }
{
    ZoneCall::Peer {
        zone: taken.zone,
        call: PeerCall::Free {
            list: taken.list,
            index: taken.index,
            failed,
            now: seconds(now),
        },
    }
}

/// The server of an active request has failed, or the request itself where it has none.
pub(crate) fn fails(
    alloc: Global,
    config: &Config,
    progress: &mut Progress,
    active: &Active,
    now: u64,
) -> Result<Next, NoMemory>
    requires { HasFewServers config.now }
    ensures { IfOk result (λ next. next_turn config.now progress.new next ≡ fails config.now now active.now) }
{
    progress.opened = Items::from_slice(alloc, active.opened.as_slice())?;
    match active.peer {
        None => Ok(close(config, progress, Behind::Failed)),
        Some(taken) => {
            progress.asked = Asked::Fail { taken, now };
            Ok(Next::Ask {
                call: free(taken, true, now),
            })
        }
    }
}

/// The server that failed is given back: another is chosen, if a try is left.
pub(crate) fn tries_next(config: &Config, progress: &mut Progress, taken: Taken, now: u64) -> Next
    requires { HasFewServers config.now }
    ensures { next_turn config.now progress.new result ≡ tries_next config.now now (record { opened = progress.old.opened; peer = Some taken }) taken }
{
    let tries = tries_left(config, taken);
    if 0 < tries {
        let choice = Choice {
            zone: taken.zone,
            tries,
            moment: now,
            list: taken.list,
            tried: taken.tried,
            purpose: Purpose::Next,
        };
        choose(progress, choice)
    } else {
        close(config, progress, Behind::Failed)
    }
}

/// An active request ends.
pub(crate) fn ends(
    alloc: Global,
    config: &Config,
    progress: &mut Progress,
    active: &Active,
    now: u64,
) -> Result<Next, NoMemory>
    requires { HasFewServers config.now }
    ensures { IfOk result (λ next. next_turn config.now progress.new next ≡ ends config.now now active.now) }
{
    progress.opened = Items::from_slice(alloc, active.opened.as_slice())?;
    match active.peer {
        None => Ok(close(config, progress, Behind::Ended)),
        Some(taken) => {
            progress.asked = Asked::Done;
            Ok(Next::Ask {
                call: free(taken, false, now),
            })
        }
    }
}
