ghost use Rattle.std.specs.Prelude.{◌≡◌, [], reverse, IfOk};
ghost use Rattle.request_script.specs.ConnLimits.{after_open, closes, conn_passed, conn_refused, opened_in};
ghost use Rattle.request_script.specs.RequestSteps.{is_conn_refusal, is_req_refusal};
ghost use Rattle.request_script.specs.Progress.{HasFewServers, behind_closes, behind_conns, behind_reqs, conns_from, level_of, next_turn};

use crate::active::Opened;
use crate::call::ZoneCall;
use crate::decision::{ConnStatus, Decision, Outcome, ReqStatus};
use crate::peers::{decided, peer_step, started, without_peer};
use crate::progress::{Asked, Behind, Left, Progress};
use crate::script::Next;
use crate::zones::{is_skipped, key_of, level_at};
use conn_zone::{ConnCall, ConnReply};
use sqlite_items::Items;
use std::alloc::Global;
use zone_config::{Config, ConnLimit};
use zone_outside::NoMemory;

/// Whether a limit of requests refuses the request, outside a dry run.
fn is_req_refusal(status: ReqStatus) -> bool
    ensures { result ≡ is_req_refusal status }
{
    matches!(status, ReqStatus::Rejected)
}

/// Whether a limit of connections refuses the request, outside a dry run.
fn is_conn_refusal(status: ConnStatus) -> bool
    ensures { result ≡ is_conn_refusal status }
{
    matches!(status, ConnStatus::Rejected { .. })
}

/// What the limits of connections say where they let a request with these connections go on.
fn conn_passed(opened: &Items<Opened>) -> ConnStatus
    ensures { result ≡ conn_passed opened.now }
{
    if opened.is_empty() {
        ConnStatus::Unset
    } else {
        ConnStatus::Passed
    }
}

/// The limit of a zone refuses a request.
fn conn_refused(dry: bool, zone: u32) -> ConnStatus
    ensures { result ≡ conn_refused dry zone }
{
    if dry {
        ConnStatus::RejectedDry { zone }
    } else {
        ConnStatus::Rejected { zone }
    }
}

/// A copy of a limit.
pub(crate) fn copy_of(limit: &ConnLimit) -> ConnLimit
    ensures { result ≡ limit.now }
{
    ConnLimit {
        zone: limit.zone,
        limit: limit.limit,
    }
}

/// What follows the limits of connections.
fn after_conns(config: &Config, progress: &mut Progress, conns: ConnStatus) -> Next
    requires { HasFewServers config.now }
    ensures { next_turn config.now progress.new result ≡ behind_conns config.now progress.old.opening progress.old.said conns progress.old.opened }
{
    if is_conn_refusal(conns) {
        let status = level_at(config, progress.opening.location).conn_status;
        let decision = started(Outcome::Limited { status }, progress.said, conns, None);
        decided(progress, decision, Left::Nothing)
    } else {
        peer_step(config, progress, conns)
    }
}

/// What follows when the connections are closed.
fn after_closes(config: &Config, progress: &mut Progress, behind: Behind) -> Next
    requires servers { HasFewServers config.now }
    requires closed { progress.old.opened ≡ [] }
    ensures { next_turn config.now progress.new result ≡ behind_closes config.now progress.old.opening progress.old.said behind }
{
    match behind {
        Behind::Refused { zone } => {
            let dry = level_at(config, progress.opening.location).conn_dry;
            after_conns(config, progress, conn_refused(dry, zone))
        }
        Behind::NoServer { purpose } => {
            let decision = without_peer(progress.said, purpose);
            decided(progress, decision, Left::Nothing)
        }
        Behind::Failed => decided(progress, Decision::FailGateway, Left::Nothing),
        Behind::Ended => decided(progress, Decision::Ended, Left::Nothing),
    }
}

/// Closes the connections of the request, the last one first.
pub(crate) fn close(config: &Config, progress: &mut Progress, behind: Behind) -> Next
    requires { HasFewServers config.now }
    ensures { next_turn config.now progress.new result ≡ closes (reverse progress.old.opened) (behind_closes config.now progress.old.opening progress.old.said behind) }
{
    match progress.opened.pop() {
        Some(last) => {
            progress.asked = Asked::Close { behind };
            Next::Ask {
                call: ZoneCall::Conn {
                    zone: last.zone,
                    call: ConnCall::Close { at: last.at },
                },
            }
        }
        None => after_closes(config, progress, behind),
    }
}

/// Goes along the limits of connections from a place of their list on.
fn walk_conns(
    alloc: Global,
    config: &Config,
    progress: &mut Progress,
    from: usize,
) -> Result<Next, NoMemory>
    requires { HasFewServers config.now }
    ensures { IfOk result (λ next. next_turn config.now progress.new next ≡ conns_from config.now progress.old.opening progress.old.said progress.old.opened from) }
{
    let limits = level_at(config, progress.opening.location).conn.as_slice();
    let mut place = from;
    'limits: while place < limits.len() {
        let limit = &limits[place];
        place += 1;
        let key = key_of(alloc, config, &progress.opening.vars, limit.zone)?;
        if !is_skipped(255, &key) {
            progress.asked = Asked::Open {
                limit: copy_of(limit),
                behind: place,
            };
            return Ok(Next::Ask {
                call: ZoneCall::Conn {
                    zone: limit.zone,
                    call: ConnCall::Open {
                        key,
                        limit: limit.limit,
                    },
                },
            });
        }
    }
    let conns = conn_passed(&progress.opened);
    Ok(after_conns(config, progress, conns))
}

/// What follows the limits of requests.
pub(crate) fn after_reqs(
    alloc: Global,
    config: &Config,
    progress: &mut Progress,
) -> Result<Next, NoMemory>
    requires { HasFewServers config.now }
    ensures { IfOk result (λ next. next_turn config.now progress.new next ≡ behind_reqs config.now progress.old.opening progress.old.said) }
{
    if is_req_refusal(progress.said.status) {
        let status = level_at(config, progress.opening.location).req_status;
        let outcome = Outcome::Limited { status };
        let decision = started(outcome, progress.said, ConnStatus::Unset, None);
        Ok(decided(progress, decision, Left::Nothing))
    } else {
        progress.opened = Items::new(alloc);
        walk_conns(alloc, config, progress, 0)
    }
}

/// What a limit's zone has answered of the request.
pub(crate) fn opened(
    alloc: Global,
    config: &Config,
    progress: &mut Progress,
    limit: ConnLimit,
    behind: usize,
    reply: ConnReply,
) -> Result<Next, NoMemory>
    requires { HasFewServers config.now }
    ensures { IfOk result (λ next. next_turn config.now progress.new next ≡ after_open config.now progress.old.opening.vars (level_of config.now progress.old.opening).conn_dry limit progress.old.opened (λ more. conns_from config.now progress.old.opening progress.old.said more behind) (behind_conns config.now progress.old.opening progress.old.said) (opened_in reply)) }
{
    match reply {
        ConnReply::Opened { at, count: _ } => {
            progress.opened.push(Opened {
                zone: limit.zone,
                at,
            })?;
            walk_conns(alloc, config, progress, behind)
        }
        ConnReply::AtLimit { .. } | ConnReply::NoRoom | ConnReply::Closed { .. } => {
            Ok(close(config, progress, Behind::Refused { zone: limit.zone }))
        }
    }
}
