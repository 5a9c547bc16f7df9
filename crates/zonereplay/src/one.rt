ghost use Rattle.std.specs.Prelude.{◌≡◌, ◌+◌, ◌<◌, ◌^◌, ℕ, IfOk, IfSome, ◌≤◌};
ghost use Rattle.req_zone.specs.Amount.{greatest_burst};
ghost use Rattle.zonereplay.specs.Words.{OneJob};
ghost use Rattle.req_zone.specs.declared.state.ReqState.{ReqState};
ghost use Rattle.req_zone.specs.Object.{IsOpened};
ghost use Rattle.req_zone.specs.Lays.{Lays};
ghost use Rattle.zonereplay.specs.Jobs.{asked};
ghost use Rattle.zonereplay.specs.OneText.{delayed_excess, reply_to, after_key, zone_of};
ghost use Rattle.zonereplay.specs.Checking.{HasAnswered};
ghost use Rattle.zonereplay.specs.OneKeys.{TellsKeys};
ghost use Rattle.replay_log.specs.Limits.{IsKeyLine};

use crate::job::Job;
use crate::text::push_line;
use replay_log::{KeyLine, LogFault, next_key};
use req_zone::{OpenFault, ReqCall, ReqReply, ReqSpec, ReqZone};
use std::alloc::Global;
use zone_object::apply_uncounted;
use zone_outside::{NoMemory, Text};

/// The binary logarithm of a page's size.
const PAGE_SHIFT: u32 = 12;

/// The most bytes of a key that a zone takes.
const MOST_KEY: u64 = 65_535;

/// The request zone `one` of a job, without entries.
fn open_zone(alloc: Global, job: Job) -> Result<ReqZone, NoMemory>
    ensures { IfOk result (λ zone. Lays zone (zone_of (asked job)) × IsOpened (zone_of (asked job))) }
{
    let spec = ReqSpec {
        name: Text::of(alloc, b"one")?,
        bytes: job.bytes,
        page_shift: PAGE_SHIFT,
        rate: job.rate,
    };
    match ReqZone::open(alloc, &spec) {
        Ok(zone) => Ok(zone),
        Err(OpenFault::NoMemory) => Err(NoMemory),
        Err(OpenFault::TooSmall) => unreachable!(),
    }
}

/// What the zone answers to the check of a key, as the last limit. None, and no check, where the key has more bytes
/// than a zone takes.
fn check(zone: &mut ReqZone, burst: u64, line: KeyLine) -> Option<ReqReply>
    requires known { ((job : OneJob) × (job.burst ≡ burst) × (job.burst ≤ greatest_burst)) }
    requires limits { IsKeyLine line }
    requires answered { ((start s : ReqState) × (calls : ℕ) × HasAnswered zone.old start calls s × (calls + 1 < 2 ^ 32)) }
    ensures bound { IfSome result (λ reply. delayed_excess reply < 2 ^ 52) }
    ensures reply { (job : OneJob) (start s : ReqState) (calls : ℕ) → job.burst ≡ burst → HasAnswered zone.old start calls s → calls + 1 < 2 ^ 32 → result ≡ reply_to job s line }
    ensures answered { (job : OneJob) (start s : ReqState) (calls : ℕ) → job.burst ≡ burst → HasAnswered zone.old start calls s → calls + 1 < 2 ^ 32 → HasAnswered zone.new start (calls + 1) (after_key job s line) }
{
    if line.key.len() > MOST_KEY {
        return None;
    }
    let call = ReqCall::Check {
        key: line.key,
        now: line.moment,
        burst,
        last: true,
    };
    Some(apply_uncounted(zone, 0, &call))
}

/// The text of `one` for a log of keys, which are read and checked one after another in a fresh zone; or the log's first
/// fault.
pub(crate) fn text_of(alloc: Global, job: Job, log: &[u8]) -> Result<Text, LogFault>
    ensures { TellsKeys (asked job) log.now result }
{
    let Ok(mut zone) = open_zone(alloc, job) else {
        return Err(LogFault::NoMemory);
    };
    let mut text = Vec::with_capacity(alloc, log.len())?;
    let mut rest = log;
    let mut number = 1u32;
    while !rest.is_empty() {
        let (line, tail) = next_key(alloc, number, rest)?;
        let reply = check(&mut zone, job.burst, line);
        push_line(&mut text, u64::from(number), job.rate, reply)?;
        rest = tail;
        number += 1;
    }
    Ok(Text::from_vec(text))
}
