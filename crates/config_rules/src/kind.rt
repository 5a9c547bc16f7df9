ghost use Rattle.std.specs.Prelude.{◌≡◌};
ghost use Rattle.config_rules.specs.Kinds.{elsewhere, in_http, in_location, in_upstream, inner_context, is_limit_name, is_method, is_other_name, kind_of, limiting};

/// A block whose directives are read, as nginx's documentation calls it, or the text itself.
#[derive(Clone, Copy, Debug)]
pub enum Context {
    /// The text itself, outside any block.
    Top,
    /// `http`
    Http,
    /// `server`
    Server,
    /// `location`
    Location,
    /// `upstream`
    Upstream,
}

/// What a directive is, by its name and its context.
#[derive(Clone, Copy, Debug)]
pub enum Kind {
    /// None that is read in any context: it is passed over.
    Unnamed,
    /// One that is read in another context.
    Misplaced,
    /// `http`
    Http,
    /// `server` in `http`
    Server,
    /// `upstream`
    Upstream,
    /// `location`
    Location,
    /// `limit_req_zone`
    ReqZone,
    /// `limit_conn_zone`
    ConnZone,
    /// `limit_req`
    LimitReq,
    /// `limit_conn`
    LimitConn,
    /// `limit_req_status` or `limit_conn_status`
    Status,
    /// `limit_req_dry_run` or `limit_conn_dry_run`
    DryRun,
    /// `proxy_pass`
    ProxyPass,
    /// `zone` in an upstream
    PeerZone,
    /// `server` in an upstream
    Peer,
    /// `least_conn`
    LeastConn,
    /// `ip_hash`, `hash`, `random` or `sticky`
    OtherMethod,
}

/// Whether a name is that of a method, but for `least_conn`.
fn is_method(name: &[u8]) -> bool
    ensures { result ≡ is_method name.now }
{
    name == b"ip_hash".as_slice()
        || name == b"hash".as_slice()
        || name == b"random".as_slice()
        || name == b"sticky".as_slice()
}

/// Whether a name is that of a limit's directive.
fn is_limit_name(name: &[u8]) -> bool
    ensures { result ≡ is_limit_name name.now }
{
    name == b"limit_req_zone".as_slice()
        || name == b"limit_conn_zone".as_slice()
        || name == b"limit_req".as_slice()
        || name == b"limit_conn".as_slice()
        || name == b"limit_req_status".as_slice()
        || name == b"limit_conn_status".as_slice()
        || name == b"limit_req_dry_run".as_slice()
        || name == b"limit_conn_dry_run".as_slice()
}

/// Whether a name is that of another directive that is read in some context.
fn is_other_name(name: &[u8]) -> bool
    ensures { result ≡ is_other_name name.now }
{
    name == b"http".as_slice()
        || name == b"server".as_slice()
        || name == b"upstream".as_slice()
        || name == b"location".as_slice()
        || name == b"proxy_pass".as_slice()
        || name == b"zone".as_slice()
        || name == b"least_conn".as_slice()
}

/// What a name is that its context doesn't have.
fn elsewhere(name: &[u8]) -> Kind
    ensures { result ≡ elsewhere name.now }
{
    if is_limit_name(name) || is_other_name(name) || is_method(name) {
        Kind::Misplaced
    } else {
        Kind::Unnamed
    }
}

/// What a name is in `http`, `server` and `location` alike.
fn limiting(name: &[u8]) -> Kind
    ensures { result ≡ limiting name.now }
{
    if name == b"limit_req".as_slice() {
        Kind::LimitReq
    } else if name == b"limit_conn".as_slice() {
        Kind::LimitConn
    } else if name == b"limit_req_status".as_slice() || name == b"limit_conn_status".as_slice() {
        Kind::Status
    } else if name == b"limit_req_dry_run".as_slice() || name == b"limit_conn_dry_run".as_slice() {
        Kind::DryRun
    } else {
        elsewhere(name)
    }
}

/// What a name is in `http`.
fn in_http(name: &[u8]) -> Kind
    ensures { result ≡ in_http name.now }
{
    if name == b"server".as_slice() {
        Kind::Server
    } else if name == b"upstream".as_slice() {
        Kind::Upstream
    } else if name == b"limit_req_zone".as_slice() {
        Kind::ReqZone
    } else if name == b"limit_conn_zone".as_slice() {
        Kind::ConnZone
    } else {
        limiting(name)
    }
}

/// What a name is in a location.
fn in_location(name: &[u8]) -> Kind
    ensures { result ≡ in_location name.now }
{
    if name == b"location".as_slice() {
        Kind::Location
    } else if name == b"proxy_pass".as_slice() {
        Kind::ProxyPass
    } else {
        limiting(name)
    }
}

/// What a name is in an upstream.
fn in_upstream(name: &[u8]) -> Kind
    ensures { result ≡ in_upstream name.now }
{
    if name == b"server".as_slice() {
        Kind::Peer
    } else if name == b"zone".as_slice() {
        Kind::PeerZone
    } else if name == b"least_conn".as_slice() {
        Kind::LeastConn
    } else if is_method(name) {
        Kind::OtherMethod
    } else {
        elsewhere(name)
    }
}

/// What a name is in a context.
pub(crate) fn kind_of(context: Context, name: &[u8]) -> Kind
    ensures { result ≡ kind_of context name.now }
{
    match context {
        Context::Top => if name == b"http".as_slice() {
            Kind::Http
        } else {
            elsewhere(name)
        },
        Context::Http => in_http(name),
        Context::Server => if name == b"location".as_slice() {
            Kind::Location
        } else {
            limiting(name)
        },
        Context::Location => in_location(name),
        Context::Upstream => in_upstream(name),
    }
}

/// The context of the block of a directive, if its block is read.
pub(crate) fn inner_context(kind: Kind) -> Option<Context>
    ensures { result ≡ inner_context kind }
{
    match kind {
        Kind::Http => Some(Context::Http),
        Kind::Server => Some(Context::Server),
        Kind::Location => Some(Context::Location),
        Kind::Upstream => Some(Context::Upstream),
        _ => None,
    }
}
