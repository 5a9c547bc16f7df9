ghost use Rattle.std.specs.Prelude.{◌≡◌, ℕ, ◌+◌, ◌≤◌, List};
ghost use Rattle.zone_object.specs.declared.object.Entry.{Entry};
ghost use Rattle.zone_object.specs.History.{IsHistory, IsReady};

use std::sync::ledger::Ledger;
use zone_region::Steps;

/// One call of a zone's history: who made it, and what was answered.
#[derive(Drop)]
pub struct Entry<S: ZoneObject> {
    /// The caller's number.
    pub caller: u32,
    /// What the object was asked.
    pub call: S::Call,
    /// What it answered.
    pub reply: S::Reply,
}

/// A zone's object: it lays out a state in its words, and each call answers by that state and changes it.
///
/// Contracts see the object through ghost members. A history is a list of entries, oldest first, that begins at a
/// quiet state; it is legal where each reply is the object's at its place, and well formed where it has fewer than
/// 2^32 entries and each call was permitted by its caller's own entries before it. The law `each_is_ready` says that
/// in such a history each call finds a state in which it is ready, so that `apply` never needs a refusal of its own.
pub trait ZoneObject: Drop {
    /// What the calls see and change. No value of it is made: contracts alone speak of it.
    type State;

    /// What the object can be asked.
    type Call: Drop;

    /// What it answers.
    type Reply: Copy;

    /// The object lays out this state.
    ghost lays: { Self → Self.State → Type 0 };

    /// A history may begin at this state: nothing in it is held for a caller.
    ghost is_quiet: { Self.State → Type 0 };

    /// What a call is answered in this state.
    ghost reply_of: { Self.State → Self.Call → Self.Reply };

    /// The state after a call.
    ghost state_after: { Self.State → Self.Call → Self.State };

    /// A caller that made these calls, and was answered so, may make this one.
    ghost permits: { List (Entry Self Self.State Self.Call Self.Reply) → Self.Call → Type 0 };

    /// The state has all that the call needs.
    ghost ready: { Self.State → Self.Call → Type 0 };

    /// The call can be given this reply in this state: its form, and the bounds of its numbers.
    ghost can_answer: { Self.State → Self.Call → Self.Reply → Type 0 };

    /// The most steps that a call counts in this state.
    ghost cost: { Self.State → Self.Call → ℕ };

    /// Makes a call for the caller of this number, in a state in which the call is ready. It takes no memory.
    fn apply<L: Ledger>(&mut self, who: u32, call: &Self::Call, steps: &mut Steps<L>) -> Self::Reply
        requires { (s : Self.State) × lays self.old s × ready s call.now }
        ensures reply { (s : Self.State) → lays self.old s → ready s call.now → result ≡ reply_of s call.now }
        ensures laid { (s : Self.State) → lays self.old s → ready s call.now → lays self.new (state_after s call.now) }
        ensures cost { (s : Self.State) → lays self.old s → ready s call.now → steps.new ≤ steps.old + cost s call.now };

    /// In a legal and well-formed history each call is ready at its place.
    ghost each_is_ready: { (start : Self.State) (log : List (Entry Self Self.State Self.Call Self.Reply)) → IsHistory is_quiet reply_of state_after permits start log → IsReady state_after ready start log };

    /// What a ready call is answered is a reply that it can be given.
    ghost each_can_answer: { (s : Self.State) (call : Self.Call) → ready s call → can_answer s call (reply_of s call) };

    /// Two quiet states that one object lays out are equal: a history that begins with the object begins at one state.
    ghost one_start: { (object : Self) (s t : Self.State) → lays object s → lays object t → is_quiet s → is_quiet t → s ≡ t };
}
