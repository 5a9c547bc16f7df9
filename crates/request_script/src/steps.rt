ghost use Rattle.std.specs.Prelude.{◌≡◌, IfOk};
ghost use Rattle.std.specs.Option.{option_copied};
ghost use Rattle.request_script.specs.ConnLimits.{conn_reply};
ghost use Rattle.request_script.specs.Peers.{peer_reply};
ghost use Rattle.request_script.specs.Progress.{HasFewServers, HasRates, rest, next_turn};
ghost use Rattle.request_script.specs.Replies.{HasSmallExcess, HasSmallIndex, IsInRange};
ghost use Rattle.request_script.specs.ReqLimits.{req_reply};
ghost use Rattle.request_script.specs.RequestSteps.{active_turn, idle_turn, turn_of};

use crate::active::Active;
use crate::call::ZoneReply;
use crate::conns::{close, copy_of as copy_of_conn_limit, opened};
use crate::decision::Decision;
use crate::peers::{chosen, decided, ends, fails, tries_next};
use crate::progress::{Asked, Behind, Left, Opening, Progress};
use crate::reqs::{account_more, checked, copy_of as copy_of_limit, release, walk_reqs};
use crate::script::Next;
use crate::vars::copy_of;
use conn_zone::ConnReply;
use peer_zone::PeerReply;
use replay_log::{Event, Line};
use req_zone::ReqReply;
use sqlite_items::Items;
use std::alloc::Global;
use zone_config::Config;
use zone_outside::NoMemory;

/// The first step of an event on a connection without an active request.
fn idle_step(
    alloc: Global,
    config: &Config,
    progress: &mut Progress,
    now: u64,
    event: &Event,
) -> Result<Next, NoMemory>
    requires { HasFewServers config.now }
    ensures { IfOk result (λ next. next_turn config.now progress.new next ≡ idle_turn config.now now event.now) }
{
    match event {
        Event::Start { level, vars } => {
            progress.opening = Opening {
                location: *level,
                moment: now,
                vars: copy_of(alloc, vars)?,
            };
            progress.holds = Items::new(alloc);
            walk_reqs(alloc, config, progress, 0)
        }
        Event::Fail => Ok(decided(progress, Decision::IdleFail, Left::Nothing)),
        Event::Done => Ok(decided(progress, Decision::IdleDone, Left::Nothing)),
    }
}

/// The first step of an event on a connection with an active request.
fn active_step(
    alloc: Global,
    config: &Config,
    progress: &mut Progress,
    now: u64,
    active: &Active,
    event: &Event,
) -> Result<Next, NoMemory>
    requires { HasFewServers config.now }
    ensures { IfOk result (λ next. next_turn config.now progress.new next ≡ active_turn config.now now active.now event.now) }
{
    match event {
        Event::Start { .. } => {
            progress.opened = Items::from_slice(alloc, active.opened.as_slice())?;
            let left = Left::Request { peer: active.peer };
            Ok(decided(progress, Decision::Busy, left))
        }
        Event::Fail => fails(alloc, config, progress, active, now),
        Event::Done => ends(alloc, config, progress, active, now),
    }
}

/// The first step of a line, on a connection with this active request, or none.
pub(crate) fn first_step(
    alloc: Global,
    config: &Config,
    progress: &mut Progress,
    active: Option<&Active>,
    line: &Line,
) -> Result<Next, NoMemory>
    requires { HasFewServers config.now }
    ensures { IfOk result (λ next. next_turn config.now progress.new next ≡ turn_of config.now (option_copied active.entry) line.now) }
{
    match active {
        None => idle_step(alloc, config, progress, line.moment, &line.event),
        Some(active) => { active_step(alloc, config, progress, line.moment, active, &line.event) }
    }
}

/// What a request zone answered; no reply of another zone is one.
fn req_reply(reply: ZoneReply) -> ReqReply
    requires { IsInRange reply }
    ensures value { result ≡ req_reply reply }
    ensures range { HasSmallExcess result }
{
    match reply {
        ZoneReply::Req { reply } => reply,
        ZoneReply::Conn { .. } | ZoneReply::Peer { .. } => ReqReply::Released,
    }
}

/// What a connection zone answered; no reply of another zone is one.
fn conn_reply(reply: ZoneReply) -> ConnReply
    ensures { result ≡ conn_reply reply }
{
    match reply {
        ZoneReply::Conn { reply } => reply,
        ZoneReply::Req { .. } | ZoneReply::Peer { .. } => ConnReply::NoRoom,
    }
}

/// What an upstream's zone answered; no reply of another zone is one.
fn peer_reply(reply: ZoneReply) -> PeerReply
    requires { IsInRange reply }
    ensures value { result ≡ peer_reply reply }
    ensures range { HasSmallIndex result }
{
    match reply {
        ZoneReply::Peer { reply } => reply,
        ZoneReply::Req { .. } | ZoneReply::Conn { .. } => PeerReply::NoPeer,
    }
}

/// The step that follows a reply.
pub(crate) fn next_step(
    alloc: Global,
    config: &Config,
    progress: &mut Progress,
    reply: ZoneReply,
) -> Result<Next, NoMemory>
    requires rates { HasRates config.now }
    requires servers { HasFewServers config.now }
    requires range { IsInRange reply }
    ensures { IfOk result (λ next. next_turn config.now progress.new next ≡ rest config.now progress.old reply) }
{
    match &progress.asked {
        Asked::Check { limit, behind } => {
            let limit = copy_of_limit(limit);
            let behind = *behind;
            checked(alloc, config, progress, limit, behind, req_reply(reply))
        }
        Asked::Release => release(alloc, config, progress),
        Asked::Account { hold, greatest } => {
            let hold = *hold;
            let greatest = *greatest;
            account_more(alloc, config, progress, hold, greatest, req_reply(reply))
        }
        Asked::Open { limit, behind } => {
            let limit = copy_of_conn_limit(limit);
            let behind = *behind;
            opened(alloc, config, progress, limit, behind, conn_reply(reply))
        }
        Asked::Close { behind } => {
            let behind = *behind;
            Ok(close(config, progress, behind))
        }
        Asked::Choose { choice } => {
            let choice = *choice;
            Ok(chosen(config, progress, choice, peer_reply(reply)))
        }
        Asked::Fail { taken, now } => {
            let taken = *taken;
            let now = *now;
            Ok(tries_next(config, progress, taken, now))
        }
        Asked::Done => Ok(close(config, progress, Behind::Ended)),
    }
}
