ghost use Rattle.std.specs.Prelude.{List};
ghost use Rattle.zone_object.specs.History.{IsHistory, IsReady, run};
ghost use Rattle.peer_zone.specs.declared.state.PeerState.{PeerState};
ghost use Rattle.peer_zone.specs.Object.{Made, answer_of, zone_after, Permits, Ready};
ghost use Rattle.peer_zone.specs.Opening.{IsOpened};
ghost use Rattle.peer_zone.specs.Holding.{Holds};
ghost use Rattle.peer_zone.specs.Laws.{NoPeerLaw, NoChangeLaw, ChosenLaw, NearestLaw, LeastLaw, SumLaw, RefusedLaw, OpenedLaw, BlocksLaw, AnswerLaw, StartLaw};
ghost use Rattle.peer_zone.specs.Rows.{CycleRow, TenCyclesRow, ReturnRow, SeventyRow, TriedRow, BackupRow, CheckedRow, DownRow, SingleRow, LeastRow, TiesRow, FullRow, SmallRow};

/// What holds of every choice and of every opening, as theorems over the definitions. Nothing runs.
pub fn laws()
    ensures no_peer { NoPeerLaw }
    ensures no_change { NoChangeLaw }
    ensures chosen { ChosenLaw }
    ensures nearest { NearestLaw }
    ensures least { LeastLaw }
    ensures sum { SumLaw }
    ensures refused { RefusedLaw }
    ensures opened { OpenedLaw }
    ensures blocks { BlocksLaw }
    ensures answers { AnswerLaw }
    ensures start { StartLaw }
{}

/// What holds of every history of an upstream's zone, for any type of its object: each call is ready at its place, and
/// afterwards the zone is what it was opened as but for its servers' numbers, with the requests that each server was
/// given and that have not freed it. Nothing runs.
pub fn history_laws<X>()
    ensures ready { (start : PeerState) (log : List (Made X)) → IsHistory IsOpened answer_of zone_after Permits start log → IsReady zone_after Ready start log }
    ensures holds { (start : PeerState) (log : List (Made X)) → IsHistory IsOpened answer_of zone_after Permits start log → Holds start log (run zone_after start log) }
{}

/// Worked rows, which the definitions compute. Nothing runs.
pub fn worked_rows()
    ensures cycle { CycleRow }
    ensures ten_cycles { TenCyclesRow }
    ensures comes_back { ReturnRow }
    ensures seventy { SeventyRow }
    ensures tried { TriedRow }
    ensures backup { BackupRow }
    ensures checked { CheckedRow }
    ensures down { DownRow }
    ensures single { SingleRow }
    ensures least { LeastRow }
    ensures ties { TiesRow }
    ensures full { FullRow }
    ensures small { SmallRow }
{}
