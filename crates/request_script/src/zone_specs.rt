ghost use Rattle.std.specs.Prelude.{◌≡◌, map, IfOk};
ghost use Rattle.request_script.specs.ZoneSpecs.{conn_spec, method_of, peer_spec, req_spec, server_of};

use conn_zone::ConnSpec;
use peer_zone::{Method, PeerSpec, Server};
use req_zone::ReqSpec;
use sqlite_items::Items;
use std::alloc::Global;
use zone_config::{ConnData, MethodData, PeerData, ReqData, ServerData};
use zone_outside::{NoMemory, Text};

/// What a request zone is opened with, of what a configuration says of it: equal fields. It fails only where there is
/// no memory for the name.
pub fn req_spec(alloc: Global, given: &ReqData) -> Result<ReqSpec, NoMemory>
    ensures { IfOk result (λ spec. spec ≡ req_spec given.now) }
{
    Ok(ReqSpec {
        name: Text::of(alloc, given.name.bytes())?,
        bytes: given.bytes,
        page_shift: given.page_shift,
        rate: given.rate,
    })
}

/// What a connection zone is opened with, of what a configuration says of it: equal fields. It fails only where there
/// is no memory for the name.
pub fn conn_spec(alloc: Global, given: &ConnData) -> Result<ConnSpec, NoMemory>
    ensures { IfOk result (λ spec. spec ≡ conn_spec given.now) }
{
    Ok(ConnSpec {
        name: Text::of(alloc, given.name.bytes())?,
        bytes: given.bytes,
        page_shift: given.page_shift,
    })
}

/// How an upstream chooses.
fn method_of(given: MethodData) -> Method
    ensures { result ≡ method_of given }
{
    match given {
        MethodData::Round => Method::Round,
        MethodData::Least => Method::Least,
    }
}

/// A server of an upstream.
fn server_of(alloc: Global, given: &ServerData) -> Result<Server, NoMemory>
    ensures { IfOk result (λ server. server ≡ server_of given.now) }
{
    Ok(Server {
        address: Text::of(alloc, given.address.bytes())?,
        weight: given.weight,
        max_conns: given.max_conns,
        max_fails: given.max_fails,
        fail_timeout: given.fail_timeout,
        down: given.down,
    })
}

/// The servers of a list.
fn servers_of(alloc: Global, given: &[ServerData]) -> Result<Items<Server>, NoMemory>
    ensures { IfOk result (λ servers. servers ≡ map server_of given.now) }
{
    let mut servers = Items::new(alloc);
    for server in given {
        servers.push(server_of(alloc, server)?)?;
    }
    Ok(servers)
}

/// What an upstream's zone is opened with, of what a configuration says of it: equal fields. It fails only where there
/// is no memory for the texts and the lists.
pub fn peer_spec(alloc: Global, given: &PeerData) -> Result<PeerSpec, NoMemory>
    ensures { IfOk result (λ spec. spec ≡ peer_spec given.now) }
{
    Ok(PeerSpec {
        name: Text::of(alloc, given.name.bytes())?,
        bytes: given.bytes,
        page_shift: given.page_shift,
        method: method_of(given.method),
        primary: servers_of(alloc, given.primary.as_slice())?,
        backup: servers_of(alloc, given.backup.as_slice())?,
    })
}
