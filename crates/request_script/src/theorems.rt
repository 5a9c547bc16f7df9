//! Laws of a share's calls, and worked rows of the definitions.
ghost use Rattle.request_script.specs.Laws.{EndsLaw, ExchangeLaw, KindsLaw, LineLaw, PermitsLaw, RoomLeftLaw, RoomsLaw};
ghost use Rattle.request_script.specs.Rows.{BusyRow, ConnRow, DelayedRow, DryRow, FreeRow, IdleRow, PassedRow, PeerRow, RefusedRow};

/// What holds of the calls of a share, whatever the zones answer, as theorems. Each call is permitted by what the share
/// asked of its zone before and was answered, goes to a zone of its kind, and has room where the zone has room for 3
/// calls for each line. A line is decided after at most 32 calls. Nothing runs.
pub fn laws()
    ensures permits { PermitsLaw }
    ensures kinds { KindsLaw }
    ensures ends { EndsLaw }
    ensures rooms { RoomsLaw }
    ensures room_left { RoomLeftLaw }
{}

/// How a share goes on, by a reply and by a line that is decided. Nothing runs.
pub fn steps()
    ensures exchange { ExchangeLaw }
    ensures line { LineLaw }
{}

/// Worked rows, which the definitions compute. Nothing runs.
pub fn worked_rows()
    ensures idle { IdleRow }
    ensures busy { BusyRow }
    ensures free { FreeRow }
    ensures passed { PassedRow }
    ensures delayed { DelayedRow }
    ensures refused { RefusedRow }
    ensures dry { DryRow }
    ensures conns { ConnRow }
    ensures peers { PeerRow }
{}
