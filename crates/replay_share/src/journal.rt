ghost use Rattle.std.specs.Prelude.{ℕ, ◌≡◌, ◌<◌, ◌∷◌, [], ◌++◌, List, length};
ghost use Rattle.zone_object.specs.History.{own, entry, HasRun};
ghost use Rattle.req_zone.specs.declared.state.ReqState.{ReqState};
ghost use Rattle.req_zone.specs.Object as req;
ghost use Rattle.req_zone.specs.Lays as req_words;
ghost use Rattle.conn_zone.specs.declared.state.ConnState.{ConnState};
ghost use Rattle.conn_zone.specs.Object as conn;
ghost use Rattle.conn_zone.specs.Layout as conn_words;
ghost use Rattle.peer_zone.specs.declared.state.PeerState.{PeerState};
ghost use Rattle.peer_zone.specs.Object as peer;
ghost use Rattle.peer_zone.specs.Opening as opening;
ghost use Rattle.peer_zone.specs.Lays as peer_words;
ghost use Rattle.zone_config.specs.declared.data.ZoneSpec.{ZoneSpec};
ghost use Rattle.request_script.specs.Turn.{Exchange};
ghost use Rattle.request_script.specs.Replies.{HasSmallExcess, HasSmallIndex, IsInRange};
ghost use Rattle.replay_share.specs.Calls.{IsReplyTo};
ghost use Rattle.replay_share.specs.Journals.{CanTake, TakesAs};

use conn_zone::{ConnCall, ConnReply, ConnZone};
use peer_zone::{PeerCall, PeerReply, PeerZone};
use req_zone::{ReqCall, ReqReply, ReqZone};
use request_script::{ZoneCall, ZoneReply};
use zone_object::Journal;

/// A zone with the journal of its calls.
#[derive(Drop)]
pub enum ZoneJournal {
    /// A request zone.
    Req { journal: Journal<ReqZone> },
    /// A connection zone.
    Conn { journal: Journal<ConnZone> },
    /// An upstream's zone.
    Peer { journal: Journal<PeerZone> },
}

/// Asks a request zone.
fn ask_req(journal: &mut Journal<ReqZone>, call: ReqCall) -> ReqReply
    requires room { length journal.old.log < journal.old.room }
    requires ran { (s : ReqState) × HasRun req.IsOpened req_words.Lays req.answer_of req.zone_after req.Permits s journal.old.object journal.old.log }
    requires permitted { req.Permits (own journal.old.log 0) call }
    ensures room { journal.new.room ≡ journal.old.room }
    ensures log { journal.new.log ≡ journal.old.log ++ entry 0 call result ∷ [] }
    ensures run { (s : ReqState) → HasRun req.IsOpened req_words.Lays req.answer_of req.zone_after req.Permits s journal.old.object journal.old.log → HasRun req.IsOpened req_words.Lays req.answer_of req.zone_after req.Permits s journal.new.object journal.new.log }
    ensures range { HasSmallExcess result }
{
    journal.call(0, call)
}

/// Asks a connection zone.
fn ask_conn(journal: &mut Journal<ConnZone>, call: ConnCall) -> ConnReply
    requires room { length journal.old.log < journal.old.room }
    requires ran { (s : ConnState) × HasRun conn.IsOpened conn_words.Lays conn.answer_of conn.zone_after conn.Permits s journal.old.object journal.old.log }
    requires permitted { conn.Permits (own journal.old.log 0) call }
    ensures room { journal.new.room ≡ journal.old.room }
    ensures log { journal.new.log ≡ journal.old.log ++ entry 0 call result ∷ [] }
    ensures run { (s : ConnState) → HasRun conn.IsOpened conn_words.Lays conn.answer_of conn.zone_after conn.Permits s journal.old.object journal.old.log → HasRun conn.IsOpened conn_words.Lays conn.answer_of conn.zone_after conn.Permits s journal.new.object journal.new.log }
{
    journal.call(0, call)
}

/// Asks an upstream's zone.
fn ask_peer(journal: &mut Journal<PeerZone>, call: PeerCall) -> PeerReply
    requires room { length journal.old.log < journal.old.room }
    requires ran { (s : PeerState) × HasRun opening.IsOpened peer_words.Lays peer.answer_of peer.zone_after peer.Permits s journal.old.object journal.old.log }
    requires permitted { peer.Permits (own journal.old.log 0) call }
    ensures room { journal.new.room ≡ journal.old.room }
    ensures log { journal.new.log ≡ journal.old.log ++ entry 0 call result ∷ [] }
    ensures run { (s : PeerState) → HasRun opening.IsOpened peer_words.Lays peer.answer_of peer.zone_after peer.Permits s journal.old.object journal.old.log → HasRun opening.IsOpened peer_words.Lays peer.answer_of peer.zone_after peer.Permits s journal.new.object journal.new.log }
    ensures range { HasSmallIndex result }
{
    journal.call(0, call)
}

impl ZoneJournal {
    /// Asks the zone, for caller 0.
    pub(crate) fn ask(&mut self, call: ZoneCall) -> ZoneReply
        requires { (spec : ZoneSpec) × (room : ℕ) × (asked : List Exchange) × CanTake self.old spec room asked call }
        ensures taken { (spec : ZoneSpec) (room : ℕ) (asked : List Exchange) → CanTake self.old spec room asked call → TakesAs self.new spec room (asked ++ record { call = call; reply = result } ∷ []) call }
        ensures range { IsInRange result }
        ensures kind { IsReplyTo call result }
    {
        match self {
            ZoneJournal::Req { journal } => match call {
                ZoneCall::Req { zone: _, call } => ZoneReply::Req {
                    reply: ask_req(journal, call),
                },
                _ => unreachable!(),
            },
            ZoneJournal::Conn { journal } => match call {
                ZoneCall::Conn { zone: _, call } => ZoneReply::Conn {
                    reply: ask_conn(journal, call),
                },
                _ => unreachable!(),
            },
            ZoneJournal::Peer { journal } => match call {
                ZoneCall::Peer { zone: _, call } => ZoneReply::Peer {
                    reply: ask_peer(journal, call),
                },
                _ => unreachable!(),
            },
        }
    }
}
