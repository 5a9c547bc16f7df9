ghost use Rattle.std.specs.Prelude.{ℕ, ◌∷◌, [], ◌++◌, List};
ghost use Rattle.zone_config.specs.declared.data.ZoneSpec.{ZoneSpec};
ghost use Rattle.request_script.specs.Turn.{Exchange};
ghost use Rattle.request_script.specs.Replies.{IsInRange};
ghost use Rattle.replay_share.specs.Calls.{CanAsk};

use request_script::{ZoneCall, ZoneReply};

/// What answers the calls of a share: the zones of a configuration, as one caller sees them.
pub trait Answers {
    /// What began as the first and is now the second answers for these zones, each with room for so many calls of the caller,
    /// and was asked this by the caller. It tells the order of the calls to each zone; that of calls to different zones is
    /// kept nowhere.
    ghost serves: { Self → Self → List ZoneSpec → ℕ → List Exchange → Type 0 };

    /// Makes a call. It takes no memory.
    fn ask(&mut self, call: ZoneCall) -> ZoneReply
        requires { (start : Self) × (zones : List ZoneSpec) × (room : ℕ) × (asked : List Exchange) × serves start self.old zones room asked × CanAsk zones room asked call }
        ensures served { (start : Self) (zones : List ZoneSpec) (room : ℕ) (asked : List Exchange) → serves start self.old zones room asked → CanAsk zones room asked call → serves start self.new zones room (asked ++ record { call = call; reply = result } ∷ []) }
        ensures range { IsInRange result };
}
