ghost use Rattle.std.specs.Prelude.{◌≡◌, ◌<◌, ◌^◌, [], ◌∷◌, ◌++◌, length, sum};
ghost use Rattle.zone_object.specs.History.{own, entry, HasRun};

use std::marker::Model;
use zone_object::{Entry, Journal, ZoneObject};

/// What the zone's turn carries from caller to caller: the object with its journal, and the rooms of all passes.
#[derive(Drop)]
pub struct Turn<S: ZoneObject> {
    journal: Journal<S>,
    rooms: Vec<u32>,
}

impl<S: ZoneObject> Model for Turn<S> {
    ghost use Rattle.std.specs.Prelude.{◌≡◌, ◌<◌, ◌^◌, sum};
    ghost use Rattle.zone_object.specs.declared.object.Entry.{Entry};
    ghost use Rattle.shared_zone.specs.Rule.{Carried};

    ghost Value = { Carried S (Entry S S.State S.Call S.Reply) };

    ghost view = { λ t. record { object = t.journal.object; rooms = t.rooms.items; log = t.journal.log } };

    ghost invariant = { λ t. (sum t.rooms.items ≡ t.journal.room) × (sum t.rooms.items < 2 ^ 32) };
}

impl<S: ZoneObject> Turn<S> {
    /// The turn of a zone with these rooms.
    pub fn new(journal: Journal<S>, rooms: Vec<u32>) -> Self
        requires rooms { sum rooms.items ≡ journal.room }
        requires short { sum rooms.items < 2 ^ 32 }
        ensures { result ≡ record { object = journal.object; rooms = rooms.items; log = journal.log } }
    {
        Turn { journal, rooms }
    }

    /// Makes a call for the pass of this number, and writes it down.
    pub fn call(&mut self, who: u32, call: S::Call) -> S::Reply
        requires room { length self.old.log < sum self.old.rooms }
        requires permitted { S.permits (own self.old.log who) call }
        ensures rooms { self.new.rooms ≡ self.old.rooms }
        ensures log { self.new.log ≡ self.old.log ++ entry who call result ∷ [] }
        ensures run { (s : S.State) → HasRun S.is_quiet S.lays S.reply_of S.state_after S.permits s self.old.object self.old.log → HasRun S.is_quiet S.lays S.reply_of S.state_after S.permits s self.new.object self.new.log }
    {
        self.journal.call(who, call)
    }

    /// The object and its log.
    pub fn into_parts(self) -> (S, Vec<Entry<S>>)
        ensures object { result.0 ≡ self.object }
        ensures log { result.1.items ≡ self.log }
    {
        let Turn { journal, rooms: _ } = self;
        journal.into_parts()
    }
}
