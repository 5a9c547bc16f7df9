ghost use Rattle.std.specs.Prelude.{◌≡◌, ◌||◌, IfSome, codes, if◌then◌else◌};
ghost use Rattle.zone_key.specs.Expr.{is_same};
ghost use Rattle.config_rules.specs.Words.{has_called};
ghost use Rattle.std.specs.Option.{option_map};
ghost use Rattle.config_rules.specs.InOrder.{context_within, inherited, kind_at, kind_in, scope_within, top};
ghost use Rattle.config_rules.specs.Views.{place_now, scope_now, sources_now};

use crate::kind::{Context, Kind, inner_context, kind_of};
use crate::words::{has_block, inner_of, name_of};
use directive_text::Directive;

/// For each setting that is inherited, the innermost block that has a directive of it, or none.
#[derive(Clone, Copy)]
pub struct Origins<'a> {
    /// The block of `limit_req`.
    pub req: &'a [Directive],
    /// The block of `limit_conn`.
    pub conn: &'a [Directive],
    /// The block of `limit_req_status`.
    pub req_status: &'a [Directive],
    /// The block of `limit_conn_status`.
    pub conn_status: &'a [Directive],
    /// The block of `limit_req_dry_run`.
    pub req_dry: &'a [Directive],
    /// The block of `limit_conn_dry_run`.
    pub conn_dry: &'a [Directive],
}

/// A block that is read.
#[derive(Clone, Copy)]
pub struct Space<'a> {
    /// What stands in it.
    pub context: Context,
    /// Its directives.
    pub block: &'a [Directive],
    /// The sources of its settings.
    pub sources: Origins<'a>,
}

/// A directive in the block that holds it, behind those before it.
#[derive(Clone, Copy)]
pub struct Spot<'a> {
    /// The block.
    pub scope: Space<'a>,
    /// The directives before it in the block.
    pub before: &'a [Directive],
    /// The directive.
    pub directive: &'a Directive,
}

/// Of which settings that are inherited a block has a directive.
#[derive(Clone, Copy)]
struct OwnSettings {
    req: bool,
    conn: bool,
    req_status: bool,
    conn_status: bool,
    req_dry: bool,
    conn_dry: bool,
}

/// What is known behind one more directive, which has this name.
fn with_name(own: OwnSettings, name: &[u8]) -> OwnSettings
    ensures req { result.req ≡ (own.req || is_same name.now (codes "limit_req")) }
    ensures conn { result.conn ≡ (own.conn || is_same name.now (codes "limit_conn")) }
    ensures req_status { result.req_status ≡ (own.req_status || is_same name.now (codes "limit_req_status")) }
    ensures conn_status { result.conn_status ≡ (own.conn_status || is_same name.now (codes "limit_conn_status")) }
    ensures req_dry { result.req_dry ≡ (own.req_dry || is_same name.now (codes "limit_req_dry_run")) }
    ensures conn_dry { result.conn_dry ≡ (own.conn_dry || is_same name.now (codes "limit_conn_dry_run")) }
{
    OwnSettings {
        req: own.req || name == b"limit_req".as_slice(),
        conn: own.conn || name == b"limit_conn".as_slice(),
        req_status: own.req_status || name == b"limit_req_status".as_slice(),
        conn_status: own.conn_status || name == b"limit_conn_status".as_slice(),
        req_dry: own.req_dry || name == b"limit_req_dry_run".as_slice(),
        conn_dry: own.conn_dry || name == b"limit_conn_dry_run".as_slice(),
    }
}

/// Of which settings a block has a directive.
fn own_settings(block: &[Directive]) -> OwnSettings
    ensures req { result.req ≡ has_called (codes "limit_req") block.now }
    ensures conn { result.conn ≡ has_called (codes "limit_conn") block.now }
    ensures req_status { result.req_status ≡ has_called (codes "limit_req_status") block.now }
    ensures conn_status { result.conn_status ≡ has_called (codes "limit_conn_status") block.now }
    ensures req_dry { result.req_dry ≡ has_called (codes "limit_req_dry_run") block.now }
    ensures conn_dry { result.conn_dry ≡ has_called (codes "limit_conn_dry_run") block.now }
{
    let mut own = OwnSettings {
        req: false,
        conn: false,
        req_status: false,
        conn_status: false,
        req_dry: false,
        conn_dry: false,
    };
    for directive in block {
        own = with_name(own, name_of(directive));
    }
    own
}

/// The block itself where it has a directive of a setting, else the one around.
fn taken<'a>(is_own: bool, own: &'a [Directive], around: &'a [Directive]) -> &'a [Directive]
    ensures { result.now ≡ (if is_own then own.now else around.now) }
{
    if is_own { own } else { around }
}

/// The sources of a block, from those of the block around it.
pub fn inherited<'a>(own: &'a [Directive], around: &Origins<'a>) -> Origins<'a>
    ensures { sources_now result ≡ inherited own.now (sources_now around.now) }
{
    let settings = own_settings(own);
    Origins {
        req: taken(settings.req, own, around.req),
        conn: taken(settings.conn, own, around.conn),
        req_status: taken(settings.req_status, own, around.req_status),
        conn_status: taken(settings.conn_status, own, around.conn_status),
        req_dry: taken(settings.req_dry, own, around.req_dry),
        conn_dry: taken(settings.conn_dry, own, around.conn_dry),
    }
}

/// The text itself.
pub fn top(directives: &[Directive]) -> Space<'_>
    ensures { scope_now result ≡ top directives.now }
{
    Space {
        context: Context::Top,
        block: directives,
        sources: Origins {
            req: &[],
            conn: &[],
            req_status: &[],
            conn_status: &[],
            req_dry: &[],
            conn_dry: &[],
        },
    }
}

/// What a directive is in a block.
pub fn kind_in(scope: &Space<'_>, directive: &Directive) -> Kind
    ensures { result ≡ kind_in (scope_now scope.now) directive.now }
{
    kind_of(scope.context, name_of(directive))
}

/// What a directive is at its place.
pub fn kind_at(place: &Spot<'_>) -> Kind
    ensures { result ≡ kind_at (place_now place.now) }
{
    kind_in(&place.scope, place.directive)
}

/// The context of a directive's block, where it has one that is read.
fn context_within(kind: Kind, block: bool) -> Option<Context>
    ensures { result ≡ context_within kind block }
{
    if block { inner_context(kind) } else { None }
}

/// A directive's own block, where it is read.
pub fn scope_within<'a>(scope: &Space<'a>, directive: &'a Directive) -> Option<Space<'a>>
    ensures { option_map scope_now result ≡ scope_within (scope_now scope.now) directive.now }
{
    match context_within(kind_in(scope, directive), has_block(directive)) {
        Some(context) => {
            let block = inner_of(directive);
            let sources = inherited(block, &scope.sources);
            Some(Space {
                context,
                block,
                sources,
            })
        }
        None => None,
    }
}
