ghost use Rattle.std.specs.Prelude.{◌≡◌, replicate};

use crate::counting::{one_more, push_count};
use crate::stay::Stay;
use crate::watcher::Watcher;
use request_script::{Decision, Notice, Outcome};
use std::alloc::Global;
use std::marker::Model;
use zone_outside::{NoMemory, Text};

/// The watcher that counts all decisions by their outcome. It never leaves.
///
/// Contracts see its seven counts, in the order of its report.
#[derive(Debug, Drop)]
pub struct StatusWatch {
    pass: u64,
    limited: u64,
    gateway: u64,
    busy: u64,
    next: u64,
    ended: u64,
    idle: u64,
}

impl Model for StatusWatch {
    ghost use Rattle.std.specs.Prelude.{List, ℕ, [], ◌∷◌};

    ghost Value = { List ℕ };

    ghost view = { λ w. w.pass ∷ w.limited ∷ w.gateway ∷ w.busy ∷ w.next ∷ w.ended ∷ w.idle ∷ [] };
}

impl StatusWatch {
    /// A watcher that has seen no notice. It takes no memory.
    pub fn new() -> StatusWatch
        ensures { result ≡ replicate 7 0 }
    {
        StatusWatch {
            pass: 0,
            limited: 0,
            gateway: 0,
            busy: 0,
            next: 0,
            ended: 0,
            idle: 0,
        }
    }
}

#[cfg(test)]
impl StatusWatch {
    /// A watcher whose count of refused opens is as high as it gets.
    pub(crate) fn full_of_limited() -> StatusWatch {
        let mut watch = StatusWatch::new();
        watch.limited = u64::MAX;
        watch
    }
}

impl Watcher for StatusWatch {
    ghost use Rattle.zone_watch.specs.StatusCounts.{status_rule};

    ghost watched = { λ counts. record { rule = status_rule; counts = counts } };

    fn see(&mut self, notice: &Notice) -> Stay {
        match notice.decision {
            Decision::Started {
                outcome: Outcome::Pass,
                ..
            } => self.pass = one_more(self.pass),
            Decision::Started {
                outcome: Outcome::Limited { status: _ },
                ..
            } => self.limited = one_more(self.limited),
            Decision::Started {
                outcome: Outcome::Gateway,
                ..
            } => self.gateway = one_more(self.gateway),
            Decision::FailGateway => self.gateway = one_more(self.gateway),
            Decision::Busy => self.busy = one_more(self.busy),
            Decision::NextPeer { peer: _ } => self.next = one_more(self.next),
            Decision::Ended => self.ended = one_more(self.ended),
            Decision::IdleFail => self.idle = one_more(self.idle),
            Decision::IdleDone => self.idle = one_more(self.idle),
        }
        Stay::Keep
    }

    fn report(&self, alloc: Global) -> Result<Text, NoMemory> {
        let mut text = Vec::new(alloc);
        text.extend_from_slice(b"status")?;
        push_count(&mut text, b" pass=", self.pass)?;
        push_count(&mut text, b" limited=", self.limited)?;
        push_count(&mut text, b" gateway=", self.gateway)?;
        push_count(&mut text, b" busy=", self.busy)?;
        push_count(&mut text, b" next=", self.next)?;
        push_count(&mut text, b" ended=", self.ended)?;
        push_count(&mut text, b" idle=", self.idle)?;
        text.extend_from_slice(b"\n")?;
        Ok(Text::from_vec(text))
    }
}
