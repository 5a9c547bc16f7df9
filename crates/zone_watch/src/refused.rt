ghost use Rattle.std.specs.Prelude.{◌≡◌, ◌++◌, OnOk, Option, replicate};
ghost use Rattle.zone_watch.specs.RefusedCounts.{counted_for, is_conn_refused_by, is_refused_by, is_req_refused_by, raised_from, refusals_line, refusals_lines};

use crate::counting::{one_more, push_count};
use crate::stay::Stay;
use crate::watcher::Watcher;
use request_script::{ConnStatus, Decision, Notice, ReqStatus};
use std::alloc::{AllocError, Global};
use std::marker::Model;
use zone_outside::{NoMemory, Text};

/// The zones that are counted: those of a number below this, which are all that a configuration has.
const ZONES: usize = 16;

/// Whether a limit of requests of this zone refuses a request, and not in a dry run.
fn is_req_refused_by(status: ReqStatus, by: Option<u32>, zone: u64) -> bool
    ensures { result ≡ is_req_refused_by zone status by }
{
    match (status, by) {
        (ReqStatus::Rejected, Some(refusing)) => u64::from(refusing) == zone,
        _ => false,
    }
}

/// Whether a limit of connections of this zone refuses a request, and not in a dry run.
fn is_conn_refused_by(status: ConnStatus, zone: u64) -> bool
    ensures { result ≡ is_conn_refused_by zone status }
{
    match status {
        ConnStatus::Rejected { zone: refusing } => u64::from(refusing) == zone,
        _ => false,
    }
}

/// Whether a limit of this zone refuses a request.
fn is_refused_by(decision: &Decision, zone: u64) -> bool
    ensures { result ≡ is_refused_by zone decision.now }
{
    match *decision {
        Decision::Started { req, by, conn, .. } => {
            is_req_refused_by(req, by, zone) || is_conn_refused_by(conn, zone)
        }
        _ => false,
    }
}

/// The count of a zone after a decision.
fn counted_for(count: u64, decision: &Decision, zone: u64) -> u64
    ensures { result ≡ counted_for zone decision.now count }
{
    if is_refused_by(decision, zone) {
        one_more(count)
    } else {
        count
    }
}

/// Counts a decision for the zones that refuse the request.
fn raise(counts: &mut [u64], decision: &Decision)
    ensures { counts.new ≡ raised_from 0 decision.now counts.old }
{
    for zone in 0..counts.len() {
        counts[zone] = counted_for(counts[zone], decision, zone as u64);
    }
}

/// Adds `refused INDEX N` of a zone that refused requests, and nothing of one that refused none.
fn push_refused(text: &mut Vec<u8>, zone: u64, count: u64) -> Result<(), AllocError>
    ensures { OnOk result (text.new.items ≡ text.old.items ++ refusals_line zone count) }
{
    if count == 0 {
        return Ok(());
    }
    push_count(text, b"refused ", zone)?;
    push_count(text, b" ", count)?;
    text.extend_from_slice(b"\n")
}

/// Adds a line of each zone that refused requests.
fn push_all_refused(text: &mut Vec<u8>, counts: &[u64]) -> Result<(), AllocError>
    ensures { OnOk result (text.new.items ≡ text.old.items ++ refusals_lines 0 counts.now) }
{
    for zone in 0..counts.len() {
        push_refused(text, zone as u64, counts[zone])?;
    }
    Ok(())
}

/// The watcher that counts, for each zone, the requests that its limits refused. It never leaves.
///
/// Contracts see the counts of the zones 0 to 15. A zone of a greater number is passed over.
#[derive(Debug, Drop)]
pub struct RefusedWatch {
    counts: [u64; ZONES],
}

impl Model for RefusedWatch {
    ghost use Rattle.std.specs.Prelude.{List, ℕ};

    ghost Value = { List ℕ };

    ghost view = { λ w. w.counts };
}

impl RefusedWatch {
    /// A watcher that has seen no notice. It takes no memory.
    pub fn new() -> RefusedWatch
        ensures { result ≡ replicate 16 0 }
    {
        RefusedWatch { counts: [0; ZONES] }
    }
}

#[cfg(test)]
impl RefusedWatch {
    /// A watcher whose count of the last zone is as high as it gets.
    pub(crate) fn full_of_last() -> RefusedWatch {
        let mut counts = [0; ZONES];
        counts[ZONES - 1] = u64::MAX;
        RefusedWatch { counts }
    }
}

impl Watcher for RefusedWatch {
    ghost use Rattle.zone_watch.specs.RefusedCounts.{refused_rule};

    ghost watched = { λ counts. record { rule = refused_rule; counts = counts } };

    fn see(&mut self, notice: &Notice) -> Stay {
        raise(&mut self.counts, &notice.decision);
        Stay::Keep
    }

    fn report(&self, alloc: Global) -> Result<Text, NoMemory> {
        let mut text = Vec::new(alloc);
        push_all_refused(&mut text, &self.counts)?;
        Ok(Text::from_vec(text))
    }
}
