ghost use Rattle.std.specs.Prelude.{◌≡◌, ℕ, ◌<◌, [], ◌∷◌, ◌++◌, length, IfOk};
ghost use Rattle.zone_object.specs.History.{own, entry, HasRun};

use crate::calls::apply_uncounted;
use crate::object::{Entry, ZoneObject};
use std::alloc::Global;
use std::marker::Model;
use zone_outside::NoMemory;

/// An object with the journal of all its calls, and memory for a number of calls.
///
/// Contracts see the object, the room (how many calls the memory suffices for in all) and the log, oldest entry first.
/// The object has always run that log from some quiet state.
#[derive(Drop)]
pub struct Journal<S: ZoneObject> {
    object: S,
    room: u32,
    entries: Vec<Entry<S>>,
}

impl<S: ZoneObject> Model for Journal<S> {
    ghost use Rattle.std.specs.Prelude.{◌≤◌, vec_capacity};
    ghost use Rattle.zone_object.specs.declared.object.Entry.{Entry};
    ghost use Rattle.zone_object.specs.History.{Recorded, HasRun};

    ghost Value = { Recorded S (Entry S S.State S.Call S.Reply) };

    ghost view = { λ j. record { object = j.object; room = j.room; log = j.entries.items } };

    ghost invariant = { λ j. (j.room ≤ vec_capacity j.entries) × ((s : S.State) × HasRun S.is_quiet S.lays S.reply_of S.state_after S.permits s j.object j.entries.items) };
}

impl<S: ZoneObject> Journal<S> {
    /// The object as it is, with an empty log. It fails only where there is no memory for so many entries, and then
    /// the object has been dropped.
    pub fn new(alloc: Global, object: S, room: u32) -> Result<Self, NoMemory>
        requires { (s : S.State) × S.is_quiet s × S.lays object s }
        ensures parts { IfOk result (λ j. j ≡ record { object = object; room = room; log = [] }) }
        ensures run { (s : S.State) → S.is_quiet s → S.lays object s → IfOk result (λ j. HasRun S.is_quiet S.lays S.reply_of S.state_after S.permits s j.object j.log) }
    {
        let mut entries = Vec::new(alloc);
        entries.reserve(room as usize)?;
        Ok(Journal {
            object,
            room,
            entries,
        })
    }

    /// Makes a call for the caller of this number, and writes it down.
    pub fn call(&mut self, who: u32, call: S::Call) -> S::Reply
        requires room { length self.old.log < self.old.room }
        requires permitted { S.permits (own self.old.log who) call }
        ensures room { self.new.room ≡ self.old.room }
        ensures log { self.new.log ≡ self.old.log ++ entry who call result ∷ [] }
        ensures run { (s : S.State) → HasRun S.is_quiet S.lays S.reply_of S.state_after S.permits s self.old.object self.old.log → HasRun S.is_quiet S.lays S.reply_of S.state_after S.permits s self.new.object self.new.log }
    {
        let reply = apply_uncounted(&mut self.object, who, &call);
        self.entries.push_reserved(Entry {
            caller: who,
            call,
            reply,
        });
        reply
    }

    /// The object.
    pub fn object(&self) -> &S
        ensures { result.now ≡ self.now.object }
    {
        &self.object
    }

    /// The log, oldest entry first.
    pub fn entries(&self) -> &[Entry<S>]
        ensures { result.now ≡ self.now.log }
    {
        &self.entries
    }

    /// The object and the log.
    pub fn into_parts(self) -> (S, Vec<Entry<S>>)
        ensures object { result.0 ≡ self.object }
        ensures log { result.1.items ≡ self.log }
        ensures run { (s : S.State) × HasRun S.is_quiet S.lays S.reply_of S.state_after S.permits s result.0 result.1.items }
    {
        let Journal {
            object,
            room: _,
            entries,
        } = self;
        (object, entries)
    }
}
