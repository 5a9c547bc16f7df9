ghost use Rattle.std.specs.Prelude.{◌≡◌, ℕ, List};
ghost use Rattle.zone_object.specs.declared.object.Entry.{Entry};
ghost use Rattle.zone_object.specs.History.{IsHistory, IsReady, IsAnswered};
ghost use Rattle.zone_object.specs.Fair.{FairLaw, HeldLaw};

use crate::object::ZoneObject;
use crate::view::ZoneView;

/// What holds of every history of an object, as theorems. Nothing runs.
pub fn laws<S: ZoneObject>()
    ensures ready { (start : S.State) (log : List (Entry S S.State S.Call S.Reply)) → IsHistory S.is_quiet S.reply_of S.state_after S.permits start log → IsReady S.state_after S.ready start log }
    ensures answered { (start : S.State) (log : List (Entry S S.State S.Call S.Reply)) → IsHistory S.is_quiet S.reply_of S.state_after S.permits start log → IsAnswered S.state_after S.can_answer start log }
    ensures one_start { (object : S) (s t : S.State) → S.lays object s → S.lays object t → S.is_quiet s → S.is_quiet t → s ≡ t }
    ensures fair { FairLaw S.permits }
    ensures held { HeldLaw S.permits }
{}

/// The words of an object lay out each state that the object lays out. Nothing runs.
pub fn image_law<V: ZoneView>()
    ensures { (object : V) (s : V.State) → V.lays object s → V.image_lays (V.image object) s }
{}
