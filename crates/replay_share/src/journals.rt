ghost use Rattle.std.specs.Prelude.{◌≡◌};
ghost use Rattle.request_script.specs.Permitted.{zone_of};

use crate::answers::Answers;
use crate::journal::ZoneJournal;
use request_script::{ZoneCall, ZoneReply};
use std::marker::Model;

/// The number of the zone that a call goes to.
pub fn zone_of(call: &ZoneCall) -> u32
    ensures { result ≡ zone_of call.now }
{
    match call {
        ZoneCall::Req { zone, call: _ } => *zone,
        ZoneCall::Conn { zone, call: _ } => *zone,
        ZoneCall::Peer { zone, call: _ } => *zone,
    }
}

/// The zones of a configuration with the journals of their calls, for a replay on one thread.
///
/// Contracts see the journals, by the zones' numbers.
#[derive(Drop)]
pub struct Journals {
    pub(crate) journals: Vec<ZoneJournal>,
}

impl Model for Journals {
    ghost use Rattle.std.specs.Prelude.{List};
    ghost use Rattle.replay_share.specs.declared.journal.ZoneJournal.{ZoneJournal};

    ghost Value = { List ZoneJournal };

    ghost view = { λ j. j.journals.items };
}

impl Journals {
    /// The zones with their journals, by number.
    pub fn as_slice(&self) -> &[ZoneJournal]
        ensures { result.now ≡ self.now }
    {
        &self.journals
    }
}

impl Answers for Journals {
    ghost use Rattle.replay_share.specs.Journals.{Serves};

    ghost serves = { λ start. Serves };

    fn ask(&mut self, call: ZoneCall) -> ZoneReply {
        let zone = zone_of(&call) as usize;
        self.journals[zone].ask(call)
    }
}
