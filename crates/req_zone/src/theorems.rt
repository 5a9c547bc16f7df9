ghost use Rattle.std.specs.Prelude.{List};
ghost use Rattle.zone_object.specs.declared.object.Entry.{Entry};
ghost use Rattle.zone_object.specs.History.{run, IsHistory, IsReady};
ghost use Rattle.req_zone.specs.declared.calls.ReqCall.{ReqCall};
ghost use Rattle.req_zone.specs.declared.calls.ReqReply.{ReqReply};
ghost use Rattle.req_zone.specs.declared.state.ReqState.{ReqState};
ghost use Rattle.req_zone.specs.Object.{IsOpened, answer_of, zone_after, Permits, Ready};
ghost use Rattle.req_zone.specs.Holding.{Holds};
ghost use Rattle.req_zone.specs.Laws.{BusyLaw, BusyKeepsLaw, PassLaw, AgainLaw, FirstRoomLaw, SecondRoomLaw, NoRoomLaw, NoRoomLeavesLaw, FirstStepLaw, StaleStepLaw, ForcedStepLaw, NoneExpiresLaw, HeldStaysLaw, HeldEntryLaw, WholeLaw, SpaceLaw, OldestWholeLaw, AskedWholeLaw, AdmittedWholeLaw, CallWholeLaw, OpenLaw, AnswerLaw, StartLaw};
ghost use Rattle.req_zone.specs.Rows.{OpenRow, HoldRow, BusyRow, SlowRow, BackRow, StaleRow, HeldRow, EvictRow, FullRow, LargeRow};

/// What each check is answered and makes of the zone, in every state, as theorems over the definitions. Nothing runs.
pub fn check_laws()
    ensures busy { BusyLaw }
    ensures busy_keeps { BusyKeepsLaw }
    ensures pass { PassLaw }
    ensures again { AgainLaw }
    ensures first_room { FirstRoomLaw }
    ensures second_room { SecondRoomLaw }
    ensures no_room { NoRoomLaw }
    ensures no_room_leaves { NoRoomLeavesLaw }
{}

/// How the oldest entries leave, in every state, and that an entry that is held stays. Nothing runs.
pub fn expiry_laws()
    ensures first_step { FirstStepLaw }
    ensures stale_step { StaleStepLaw }
    ensures forced_step { ForcedStepLaw }
    ensures none_expires { NoneExpiresLaw }
    ensures held_stays { HeldStaysLaw }
{}

/// What holds of whole zones, of zones that were just opened, and of ready calls. Nothing runs.
pub fn zone_laws()
    ensures opens { OpenLaw }
    ensures start { StartLaw }
    ensures whole { WholeLaw }
    ensures space { SpaceLaw }
    ensures held_entry { HeldEntryLaw }
    ensures oldest_whole { OldestWholeLaw }
    ensures asked_whole { AskedWholeLaw }
    ensures admitted_whole { AdmittedWholeLaw }
    ensures call_whole { CallWholeLaw }
    ensures answers { AnswerLaw }
{}

/// What holds of every history of an object that is a request zone: each call is ready at its place, and the zone is
/// whole afterwards. Nothing runs.
pub fn history_laws<X>()
    ensures ready { (start : ReqState) (log : List (Entry X ReqState ReqCall ReqReply)) → IsHistory IsOpened answer_of zone_after Permits start log → IsReady zone_after Ready start log }
    ensures holds { (start : ReqState) (log : List (Entry X ReqState ReqCall ReqReply)) → IsHistory IsOpened answer_of zone_after Permits start log → Holds start log (run zone_after start log) }
{}

/// Worked rows, which the definitions compute. Nothing runs.
pub fn worked_rows()
    ensures opened { OpenRow }
    ensures hold { HoldRow }
    ensures busy { BusyRow }
    ensures slow { SlowRow }
    ensures back { BackRow }
    ensures stale { StaleRow }
    ensures held { HeldRow }
    ensures evict { EvictRow }
    ensures full { FullRow }
    ensures large { LargeRow }
{}
