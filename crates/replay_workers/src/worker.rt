ghost use Rattle.std.specs.Prelude.{ℕ, ◌≡◌, List};

use crate::ask::ask_zone;
use crate::gate::Gate;
use crate::passes::{Shared, ZonePass};
use replay_share::{Answers, zone_of};
use request_script::{ZoneCall, ZoneReply};
use std::marker::Model;
use std::sync::Wait;

/// A worker that calls the zones through its passes. Contracts see where it stands and its passes.
#[derive(Drop)]
pub(crate) struct Worker<'a, R, G> {
    pub(crate) rt: &'a R,
    pub(crate) gate: &'a G,
    pub(crate) zones: &'a [Shared],
    pub(crate) rooms: &'a [u32],
    pub(crate) number: u32,
    pub(crate) calls: u32,
    pub(crate) passes: Vec<ZonePass>,
}

impl<'a, R, G> Model for Worker<'a, R, G> {
    ghost use Rattle.replay_workers.specs.Passes.{Stand};

    ghost Value = { Stand };

    ghost view = { λ w. record { place = record { zones = w.zones.now; rooms = w.rooms.now; who = w.number }; passes = w.passes.items } };
}

impl<'a, R: Wait, G: Gate> Answers for Worker<'a, R, G> {
    ghost use Rattle.replay_workers.specs.Passes.{IsAnswering};

    ghost serves = { IsAnswering };

    fn ask(&mut self, call: ZoneCall) -> ZoneReply {
        let zone = zone_of(&call) as usize;
        self.calls = self.calls.saturating_add(1);
        self.gate.before(self.rt, self.number, self.calls);
        let reply = ask_zone(self.rt, &self.zones[zone], &mut self.passes[zone], call);
        self.gate.after(self.rt, self.number, self.calls);
        reply
    }
}

impl<'a, R, G> Worker<'a, R, G> {
    /// Its passes.
    pub(crate) fn into_passes(self) -> Vec<ZonePass>
        ensures { result.items ≡ self.entry.passes }
    {
        let Worker {
            rt: _,
            gate: _,
            zones: _,
            rooms: _,
            number: _,
            calls: _,
            passes,
        } = self;
        passes
    }
}
