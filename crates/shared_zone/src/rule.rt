use crate::turn::Turn;
use crossbeam_queue::protocol::{Join, Lesson, Outcome, Protocol, Split};
use crossbeam_queue::{Pass as Place, RuledArrayQueue};
use std::collections::LinkedList;
use std::marker::PhantomData;
use zone_object::{Entry, ZoneObject};

/// What a place at the queue knows of its zone: a pass, a note, the opener, or one that was taken in. No value of it is
/// made: it stands in proofs alone.
pub struct View<S: ZoneObject> {
    /// The state at which the zone's history began, where a zone is known.
    pub start: Option<S::State>,
    /// How many calls each pass has room for.
    pub rooms: LinkedList<u32>,
    /// The number of the pass.
    pub number: u32,
    /// The number of the next pass, which the opener alone knows.
    pub next: Option<u32>,
    /// This is a pass that has not ended.
    pub live: bool,
    /// It has the turn.
    pub holding: bool,
    /// The history that it has seen.
    pub seen: LinkedList<Entry<S>>,
    /// What it had seen before it met a note.
    pub before: LinkedList<Entry<S>>,
    /// What the note had seen.
    pub met: LinkedList<Entry<S>>,
    /// The passes that it has taken in: their numbers and what they had seen.
    pub ended: LinkedList<(u32, LinkedList<Entry<S>>)>,
}

/// The rule of the queue: it has the turn, or just one pass has it, and all that is seen is the beginning of one history.
pub struct InOneTurn<S> {
    object: PhantomData<S>,
}

impl<S: ZoneObject> Protocol<Turn<S>, View<S>> for InOneTurn<S> {
    ghost use Rattle.shared_zone.specs.Rule.{HasRunLog, InTurn, blank};

    ghost holds = { InTurn (HasRunLog S.is_quiet S.lays S.reply_of S.state_after S.permits) };

    ghost first = { blank };
}

/// The first push, by which the zone begins.
pub struct Opening;

impl<S: ZoneObject> Outcome<Turn<S>, View<S>> for Opening {
    ghost use Rattle.shared_zone.specs.Rule.{HasRunLog, Opens};

    ghost then = { λ v x w. Opens (HasRunLog S.is_quiet S.lays S.reply_of S.state_after S.permits) x w };
}

impl<S: ZoneObject> Lesson<Turn<S>, View<S>> for Opening {
    ghost use Rattle.std.specs.Prelude.{◌≡◌, []};

    ghost fact = { λ v items. items ≡ [] };
}

/// A pop that takes the turn.
pub struct Taking;

impl<S: ZoneObject> Outcome<Turn<S>, View<S>> for Taking {
    ghost use Rattle.shared_zone.specs.Rule.{HasRunLog, Takes};

    ghost then = { Takes (HasRunLog S.is_quiet S.lays S.reply_of S.state_after S.permits) };
}

/// A push that gives the turn back, which never finds the queue full.
pub struct Giving;

impl<S: ZoneObject> Outcome<Turn<S>, View<S>> for Giving {
    ghost use Rattle.std.specs.Prelude.{◌≡◌};
    ghost use Rattle.shared_zone.specs.Rule.{giver};

    ghost then = { λ v x w. w ≡ giver v x.log };
}

impl<S: ZoneObject> Lesson<Turn<S>, View<S>> for Giving {
    ghost use Rattle.std.specs.Prelude.{◌≡◌, []};

    ghost fact = { λ v items. items ≡ [] };
}

/// The opener makes the next pass.
pub struct Making;

impl<S: ZoneObject> Split<View<S>> for Making {
    ghost use Rattle.shared_zone.specs.Rule.{maker, made_by};

    ghost left = { maker };

    ghost right = { made_by };
}

/// A pass is copied into a note.
pub struct Noting;

impl<S: ZoneObject> Split<View<S>> for Noting {
    ghost use Rattle.shared_zone.specs.Rule.{noted};

    ghost left = { λ v. v };

    ghost right = { noted };
}

/// A pass takes in a note, and looks at the queue's length.
pub struct Meeting;

impl<S: ZoneObject> Join<View<S>> for Meeting {
    ghost use Rattle.shared_zone.specs.Rule.{meeter, spent};

    ghost both = { meeter };

    ghost spent = { spent };
}

impl<S: ZoneObject> Lesson<Turn<S>, View<S>> for Meeting {
    ghost use Rattle.shared_zone.specs.Rule.{Meets};

    ghost fact = { λ v items. Meets v };
}

/// The pass that closes the zone takes in another, and looks at the queue's length.
pub struct Ending;

impl<S: ZoneObject> Join<View<S>> for Ending {
    ghost use Rattle.shared_zone.specs.Rule.{ender, spent};

    ghost both = { ender };

    ghost spent = { spent };
}

impl<S: ZoneObject> Lesson<Turn<S>, View<S>> for Ending {
    ghost use Rattle.shared_zone.specs.Rule.{Closes};

    ghost fact = { λ v items. Closes v };
}

/// The queue of capacity 1 that carries a zone's turn.
pub type Queue<S> = RuledArrayQueue<Turn<S>, View<S>, InOneTurn<S>>;

/// A place at that queue.
pub type Seat<S> = Place<Turn<S>, View<S>>;
