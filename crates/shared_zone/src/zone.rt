ghost use Rattle.std.specs.Prelude.{◌≡◌, ℕ, ◌<◌, ◌≤◌, ◌^◌, true, List, [], ◌∷◌, ◌++◌, length, sum, Some, All, IfOk, vec_len};
ghost use Rattle.crossbeam_queue.specs.Passes.{view, IsSamePass, IsPassOf, ruled_capacity};
ghost use Rattle.zone_object.specs.declared.object.Entry.{Entry};
ghost use Rattle.zone_object.specs.History.{own, HasRun};
ghost use Rattle.shared_zone.specs.Callers.{Keeps, HasRunOf};
ghost use Rattle.shared_zone.specs.Rule.{HasRunLog, Within, blank, giver, Opens, Takes};

use crate::pass::{Note, Pass};
use crate::rule::{Ending, Giving, Making, Meeting, Noting, Opening, Queue, Seat, Taking};
use crate::turn::Turn;
use std::alloc::Global;
use std::marker::Model;
use std::sync::Wait;
use std::thread;
use zone_object::{Entry, Journal, ZoneObject};
use zone_outside::NoMemory;

/// A zone that threads share: one object in one turn, and the log of all calls. Contracts see which zone it is.
///
/// A pass makes calls, each in the zone's turn, which it takes and gives back. What a pass has seen is the beginning of
/// one legal and well-formed history, in which its own calls stand once and in its order. Whenever the turn is free, its
/// object lays out the state after that history. Between passes that never met there is no order that a caller can know.
/// While another pass has the turn, a thread yields its processor each time before it looks again, so that the thread
/// with the turn can run. That a waiting call returns is not promised.
#[derive(Drop)]
pub struct SharedZone<S: ZoneObject> {
    queue: Queue<S>,
}

impl<S: ZoneObject> Model for SharedZone<S> {
    ghost use Rattle.std.specs.Prelude.{◌≡◌};
    ghost use Rattle.crossbeam_queue.specs.Passes.{ruled_capacity};
    ghost use Rattle.shared_zone.specs.Callers.{ZoneId};

    ghost Value = { ZoneId };

    ghost view = { λ z. record { table = z.queue.table.shared.table_id } };

    ghost invariant = { λ z. ruled_capacity z.queue ≡ 1 };
}

// Puts the turn into the queue for the first time.
fn put<S: ZoneObject, R: Wait>(rt: &R, queue: &Queue<S>, seat: &mut Seat<S>, turn: Turn<S>)
    requires seat { IsPassOf queue.now seat.old }
    requires one { ruled_capacity queue.now ≡ 1 }
    requires first { view seat.old ≡ blank }
    requires new { turn.log ≡ [] }
    requires run { (s : S.State) × HasRun S.is_quiet S.lays S.reply_of S.state_after S.permits s turn.object turn.log }
    ensures seat { IsSamePass seat.old seat.new }
    ensures put { Opens (HasRunLog S.is_quiet S.lays S.reply_of S.state_after S.permits) turn (view seat.new) }
{
    match queue.push_as::<Opening, R>(rt, seat, turn) {
        Ok(()) => {}
        Err(_turn) => unreachable!(),
    }
}

// Takes the turn. A thread that finds it out yields its processor to other threads before it looks again.
fn take<S: ZoneObject, R: Wait>(rt: &R, queue: &Queue<S>, seat: &mut Seat<S>) -> Turn<S>
    requires seat { IsPassOf queue.now seat.old }
    requires live { (view seat.old).live ≡ true }
    requires start { (s : S.State) × ((view seat.old).start ≡ Some s) }
    ensures seat { IsSamePass seat.old seat.new }
    ensures took { Takes (HasRunLog S.is_quiet S.lays S.reply_of S.state_after S.permits) (view seat.old) result (view seat.new) }
{
    for _ in rt.forever() {
        if let Some(turn) = queue.try_pop_as::<Taking>(seat) {
            return turn;
        }
        thread::yield_now();
    }
    unreachable!()
}

// Gives the turn back, with one entry more.
fn give<S: ZoneObject, R: Wait>(rt: &R, queue: &Queue<S>, seat: &mut Seat<S>, turn: Turn<S>)
    requires seat { IsPassOf queue.now seat.old }
    requires one { ruled_capacity queue.now ≡ 1 }
    requires holding { (view seat.old).holding ≡ true }
    requires run { (s : S.State) × ((view seat.old).start ≡ Some s) × HasRun S.is_quiet S.lays S.reply_of S.state_after S.permits s turn.object turn.log }
    requires rooms { (view seat.old).rooms ≡ turn.rooms }
    requires entry { (e : Entry S S.State S.Call S.Reply) × (turn.log ≡ (view seat.old).seen ++ e ∷ []) × (e.caller ≡ (view seat.old).number) }
    requires within { Within turn.rooms turn.log }
    ensures seat { IsSamePass seat.old seat.new }
    ensures gave { view seat.new ≡ giver (view seat.old) turn.log }
{
    match queue.push_as::<Giving, R>(rt, seat, turn) {
        Ok(()) => {}
        Err(_turn) => unreachable!(),
    }
}

// Takes the turn for good, and takes in the other passes.
fn gather<S: ZoneObject, R: Wait>(
    rt: &R,
    queue: &Queue<S>,
    first: Pass<S>,
    mut others: Vec<Pass<S>>,
) -> Turn<S>
    requires first { first.zone.id.table ≡ queue.now.table.shared.table_id }
    requires others { All (λ pass. pass.zone ≡ first.zone) others.items }
    ensures run { HasRunOf S.is_quiet S.lays S.reply_of S.state_after S.permits first.zone result.object result.log }
    ensures rooms { result.rooms ≡ first.zone.rooms }
    ensures within { Within result.rooms result.log }
    ensures first { Keeps result.log first }
    ensures others { All (Keeps result.log) others.items }
{
    let Pass {
        mut seat,
        number: _,
    } = first;
    let turn = take(rt, queue, &mut seat);
    while let Some(pass) = others.pop() {
        let Pass {
            seat: other,
            number: _,
        } = pass;
        queue.absorb::<Ending>(&mut seat, other);
    }
    queue.learn_as::<Ending>(&mut seat);
    turn
}

// How many calls all passes have room for.
fn total(rooms: &[u32]) -> u32
    requires { sum rooms.now < 2 ^ 32 }
    ensures { result ≡ sum rooms.now }
{
    rooms.iter().sum()
}

impl<S: ZoneObject> SharedZone<S> {
    ghost use Rattle.std.specs.Prelude.{ℕ, ◌<◌, ◌≤◌, ◌^◌, vec_len, IfOk};
    ghost use Rattle.zone_object.specs.History.{entry};
    ghost use Rattle.shared_zone.specs.Callers.{Zone, Caller, StartsWith, longer, made, HasRoom, IsSameCaller, Begins, IsHistoryOf};

    /// Opens a zone with the object as it is, which lays out a quiet state, and with a pass for each of the rooms, of which
    /// there are 1 to 16: pass number k has room for `rooms[k]` calls. The memory for all their entries is taken here, and
    /// no other call takes any. It fails only where there is no memory, and then the object has been dropped. Nobody waits
    /// here, since nobody else has the zone yet.
    pub fn open<R: Wait>(
        rt: &R,
        alloc: Global,
        object: S,
        rooms: &[u32],
    ) -> Result<(SharedZone<S>, Vec<Pass<S>>), NoMemory>
        requires start { (s : S.State) × S.is_quiet s × S.lays object s }
        requires some { 0 < length rooms.now }
        requires few { length rooms.now ≤ 16 }
        requires short { sum rooms.now < 2 ^ 32 }
        ensures count { IfOk result (λ r. vec_len r.1 ≡ length rooms.now) }
        ensures begins { IfOk result (λ r. Begins S.is_quiet S.lays object r.0 rooms.now r.1.items) }
    {
        let kept = rooms.to_vec(alloc)?;
        let mut passes = Vec::new(alloc);
        passes.reserve(rooms.len())?;
        let (queue, mut seat) = Queue::<S>::ruled(alloc, 1)?;
        let journal = Journal::new(alloc, object, total(rooms))?;
        put(rt, &queue, &mut seat, Turn::new(journal, kept));
        for number in 0..rooms.len() as u32 {
            let pass = Pass {
                seat: queue.another::<Making>(&mut seat),
                number,
            };
            passes.push_reserved(pass);
        }
        Ok((SharedZone { queue }, passes))
    }

    /// Makes a call in the zone's turn, for which it may wait. The pass is one of this zone's, has room for another call,
    /// and its own calls so far permit this one. The history that it has then seen is legal and well formed, begins with
    /// all that it had seen, and ends with this call and its reply. Of the pass's own calls it has the earlier ones and
    /// this one.
    pub fn call<R: Wait>(&self, rt: &R, pass: &mut Pass<S>, call: S::Call) -> S::Reply
        requires zone { pass.old.zone.id ≡ self.now }
        requires room { HasRoom pass.old }
        requires permitted { S.permits (made pass.old) call }
        ensures pass { IsSameCaller pass.old pass.new }
        ensures history { IsHistoryOf S.is_quiet S.reply_of S.state_after S.permits pass.old.zone pass.new.seen }
        ensures extends { (between : List (Entry S S.State S.Call S.Reply)) × (pass.new.seen ≡ (pass.old.seen ++ between) ++ entry pass.old.number call result ∷ []) }
        ensures own_is { made pass.new ≡ made pass.old ++ entry pass.old.number call result ∷ [] }
    {
        let mut turn = take(rt, &self.queue, &mut pass.seat);
        let reply = turn.call(pass.number, call);
        give(rt, &self.queue, &mut pass.seat, turn);
        reply
    }

    /// A copy of what the pass has seen, for another pass of this zone to meet. It changes nothing that the pass has seen.
    pub fn note(&self, pass: &mut Pass<S>) -> Note<S>
        requires zone { pass.old.zone.id ≡ self.now }
        ensures pass { pass.new ≡ pass.old }
        ensures note { result ≡ record { zone = pass.old.zone; seen = pass.old.seen } }
    {
        Note {
            seat: self.queue.another::<Noting>(&mut pass.seat),
        }
    }

    /// The pass has then seen the longer of what it had seen and what the note's pass had seen; the other begins it. Its
    /// own calls are as before.
    pub fn meet(&self, pass: &mut Pass<S>, note: Note<S>)
        requires zone { pass.old.zone.id ≡ self.now }
        requires note { note.zone.id ≡ self.now }
        ensures pass { IsSameCaller pass.old pass.new }
        ensures seen { pass.new.seen ≡ longer pass.old.seen note.seen }
        ensures begins { StartsWith pass.new.seen pass.old.seen × StartsWith pass.new.seen note.seen }
        ensures own_is { made pass.new ≡ made pass.old }
    {
        let Note { seat } = note;
        self.queue.absorb::<Meeting>(&mut pass.seat, seat);
        self.queue.learn_as::<Meeting>(&mut pass.seat);
    }

    /// Ends the zone, in its turn, for which it may wait: the object, and the whole history, oldest entry first, which the
    /// object has run from the zone's start. The passes are of this zone, at least one. The history begins with what each
    /// of them has seen, has of each one's number just its calls, and has no caller without a room.
    pub fn close<R: Wait>(self, rt: &R, passes: Vec<Pass<S>>) -> (S, Vec<Entry<S>>)
        requires some { 0 < vec_len passes }
        requires zone { (zone : Zone S.State) × (zone.id ≡ self) × All (λ pass. pass.zone ≡ zone) passes.items }
        ensures run { All (λ pass. HasRunOf S.is_quiet S.lays S.reply_of S.state_after S.permits pass.zone result.0 result.1.items) passes.items }
        ensures passes { All (Keeps result.1.items) passes.items }
        ensures others { All (λ pass. (who : ℕ) → length pass.zone.rooms ≤ who → own result.1.items who ≡ []) passes.items }
    {
        let mut passes = passes;
        let Some(first) = passes.pop() else {
            unreachable!()
        };
        let SharedZone { queue } = self;
        gather(rt, &queue, first, passes).into_parts()
    }
}
