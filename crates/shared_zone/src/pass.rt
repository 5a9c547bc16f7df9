use crate::rule::Seat;
use std::marker::Model;
use zone_object::ZoneObject;

/// One caller of a shared zone. Contracts see its zone, its number, and the history that it has seen.
#[derive(Drop)]
pub struct Pass<S: ZoneObject> {
    pub(crate) seat: Seat<S>,
    pub(crate) number: u32,
}

impl<S: ZoneObject> Model for Pass<S> {
    ghost use Rattle.std.specs.Prelude.{◌≡◌, true, false, [], Some};
    ghost use Rattle.crossbeam_queue.specs.Passes.{view as known};
    ghost use Rattle.zone_object.specs.declared.object.Entry.{Entry};
    ghost use Rattle.shared_zone.specs.Callers.{Caller};

    ghost Value = { Caller S.State (Entry S S.State S.Call S.Reply) };

    ghost view = { λ p. record { zone = record { id = record { table = p.seat.table_id }; start = (known p.seat).start; rooms = (known p.seat).rooms }; number = p.number; seen = (known p.seat).seen } };

    ghost invariant = { λ p. (p.seat.me.1 ≡ []) × ((start : S.State) × ((known p.seat).start ≡ Some start)) × ((known p.seat).number ≡ p.number) × ((known p.seat).live ≡ true) × ((known p.seat).holding ≡ false) };
}

/// A copy of what a pass had seen, to be handed to another pass. Contracts see its zone and that history.
#[derive(Drop)]
pub struct Note<S: ZoneObject> {
    pub(crate) seat: Seat<S>,
}

impl<S: ZoneObject> Model for Note<S> {
    ghost use Rattle.std.specs.Prelude.{◌≡◌, false, [], Some};
    ghost use Rattle.crossbeam_queue.specs.Passes.{view as known};
    ghost use Rattle.zone_object.specs.declared.object.Entry.{Entry};
    ghost use Rattle.shared_zone.specs.Callers.{Sight};

    ghost Value = { Sight S.State (Entry S S.State S.Call S.Reply) };

    ghost view = { λ n. record { zone = record { id = record { table = n.seat.table_id }; start = (known n.seat).start; rooms = (known n.seat).rooms }; seen = (known n.seat).seen } };

    ghost invariant = { λ n. (n.seat.me.1 ≡ []) × ((start : S.State) × ((known n.seat).start ≡ Some start)) × ((known n.seat).holding ≡ false) };
}
