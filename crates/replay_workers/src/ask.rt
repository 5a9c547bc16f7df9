ghost use Rattle.std.specs.Prelude.{ℕ, ◌≡◌, ◌∷◌, [], ◌++◌, List};
ghost use Rattle.zone_object.specs.History.{entry};
ghost use Rattle.shared_zone.specs.Callers.{made, HasRoom, IsSameCaller};
ghost use Rattle.req_zone.specs.Object as req;
ghost use Rattle.conn_zone.specs.Object as conn;
ghost use Rattle.peer_zone.specs.Object as peer;
ghost use Rattle.zone_config.specs.declared.data.ZoneSpec.{ZoneSpec};
ghost use Rattle.request_script.specs.Turn.{Exchange};
ghost use Rattle.request_script.specs.Replies.{HasSmallExcess, HasSmallIndex, IsInRange};
ghost use Rattle.replay_share.specs.Calls.{IsReplyTo};
ghost use Rattle.replay_workers.specs.Passes.{Place, MayCall, HasCalled};

use crate::passes::{Shared, ZonePass};
use conn_zone::{ConnCall, ConnReply, ConnZone};
use peer_zone::{PeerCall, PeerReply, PeerZone};
use req_zone::{ReqCall, ReqReply, ReqZone};
use request_script::{ZoneCall, ZoneReply};
use shared_zone::{Pass, SharedZone};
use std::sync::Wait;

/// Asks a request zone.
fn ask_req<R: Wait>(
    rt: &R,
    zone: &SharedZone<ReqZone>,
    pass: &mut Pass<ReqZone>,
    call: ReqCall,
) -> ReqReply
    requires zone { pass.old.zone.id ≡ zone.now }
    requires room { HasRoom pass.old }
    requires permitted { req.Permits (made pass.old) call }
    ensures pass { IsSameCaller pass.old pass.new }
    ensures own_is { made pass.new ≡ made pass.old ++ entry pass.old.number call result ∷ [] }
    ensures range { HasSmallExcess result }
{
    zone.call(rt, pass, call)
}

/// Asks a connection zone.
fn ask_conn<R: Wait>(
    rt: &R,
    zone: &SharedZone<ConnZone>,
    pass: &mut Pass<ConnZone>,
    call: ConnCall,
) -> ConnReply
    requires zone { pass.old.zone.id ≡ zone.now }
    requires room { HasRoom pass.old }
    requires permitted { conn.Permits (made pass.old) call }
    ensures pass { IsSameCaller pass.old pass.new }
    ensures own_is { made pass.new ≡ made pass.old ++ entry pass.old.number call result ∷ [] }
{
    zone.call(rt, pass, call)
}

/// Asks an upstream's zone.
fn ask_peer<R: Wait>(
    rt: &R,
    zone: &SharedZone<PeerZone>,
    pass: &mut Pass<PeerZone>,
    call: PeerCall,
) -> PeerReply
    requires zone { pass.old.zone.id ≡ zone.now }
    requires room { HasRoom pass.old }
    requires permitted { peer.Permits (made pass.old) call }
    ensures pass { IsSameCaller pass.old pass.new }
    ensures own_is { made pass.new ≡ made pass.old ++ entry pass.old.number call result ∷ [] }
    ensures range { HasSmallIndex result }
{
    zone.call(rt, pass, call)
}

/// Asks a zone in its turn, for which it may wait.
pub(crate) fn ask_zone<R: Wait>(
    rt: &R,
    shared: &Shared,
    pass: &mut ZonePass,
    call: ZoneCall,
) -> ZoneReply
    requires { (at : Place) × (spec : ZoneSpec) × (room : ℕ) × (asked : List Exchange) × MayCall at shared.now pass.old spec room asked call }
    ensures called { (at : Place) (spec : ZoneSpec) (room : ℕ) (asked : List Exchange) → MayCall at shared.now pass.old spec room asked call → HasCalled at pass.new spec (asked ++ record { call = call; reply = result } ∷ []) call }
    ensures range { IsInRange result }
    ensures kind { IsReplyTo call result }
{
    match pass {
        ZonePass::Req { pass } => match shared {
            Shared::Req { zone } => match call {
                ZoneCall::Req { zone: _, call } => ZoneReply::Req {
                    reply: ask_req(rt, zone, pass, call),
                },
                _ => unreachable!(),
            },
            _ => unreachable!(),
        },
        ZonePass::Conn { pass } => match shared {
            Shared::Conn { zone } => match call {
                ZoneCall::Conn { zone: _, call } => ZoneReply::Conn {
                    reply: ask_conn(rt, zone, pass, call),
                },
                _ => unreachable!(),
            },
            _ => unreachable!(),
        },
        ZonePass::Peer { pass } => match shared {
            Shared::Peer { zone } => match call {
                ZoneCall::Peer { zone: _, call } => ZoneReply::Peer {
                    reply: ask_peer(rt, zone, pass, call),
                },
                _ => unreachable!(),
            },
            _ => unreachable!(),
        },
    }
}
