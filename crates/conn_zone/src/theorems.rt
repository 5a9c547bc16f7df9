ghost use Rattle.std.specs.Prelude.{List};
ghost use Rattle.zone_object.specs.History.{IsHistory, IsReady, run};
ghost use Rattle.conn_zone.specs.declared.state.ConnState.{ConnState};
ghost use Rattle.conn_zone.specs.Object.{Made, IsOpened, answer_of, zone_after, Permits, Ready};
ghost use Rattle.conn_zone.specs.Holding.{Holds};
ghost use Rattle.conn_zone.specs.Laws.{AtLimitLaw, AtLimitKeepsLaw, NoRoomLaw, NoRoomKeepsLaw, OpenCountsLaw, OpenedLaw, CloseCountsLaw, ClosedLaw, EvictsNothingLaw, LastCloseLaw, OtherCloseLaw, WholeLaw, CountedEntryLaw, OpenLaw, AnswerLaw, StartLaw};
ghost use Rattle.conn_zone.specs.Rows.{OpenRow, OneAtOnceRow, FullRow};

/// What holds of every call of a connection zone, as theorems over the definitions. Nothing runs.
pub fn laws()
    ensures at_limit { AtLimitLaw }
    ensures at_limit_keeps { AtLimitKeepsLaw }
    ensures no_room { NoRoomLaw }
    ensures no_room_keeps { NoRoomKeepsLaw }
    ensures open_counts { OpenCountsLaw }
    ensures opened { OpenedLaw }
    ensures close_counts { CloseCountsLaw }
    ensures closed { ClosedLaw }
    ensures evicts_nothing { EvictsNothingLaw }
    ensures last_close { LastCloseLaw }
    ensures other_close { OtherCloseLaw }
    ensures whole { WholeLaw }
    ensures counted_entry { CountedEntryLaw }
    ensures opens { OpenLaw }
    ensures answers { AnswerLaw }
    ensures start { StartLaw }
{}

/// What holds of every history of an object that is a connection zone: each call is ready at its place, and afterwards
/// the zone is whole, with the connections that were given and not yet given back. Nothing runs.
pub fn history_laws<X>()
    ensures ready { (start : ConnState) (log : List (Made X)) → IsHistory IsOpened answer_of zone_after Permits start log → IsReady zone_after Ready start log }
    ensures holds { (start : ConnState) (log : List (Made X)) → IsHistory IsOpened answer_of zone_after Permits start log → Holds start log (run zone_after start log) }
{}

/// Worked rows, which the definitions compute. Nothing runs.
pub fn worked_rows()
    ensures opened { OpenRow }
    ensures one_at_once { OneAtOnceRow }
    ensures full { FullRow }
{}
