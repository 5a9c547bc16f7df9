ghost use Rattle.std.specs.Prelude.{◌≡◌, ◌<◌, ◌≤◌, length, IfOk, IfSome};
ghost use Rattle.std.specs.List.{prefix_len};
ghost use Rattle.zone_key.specs.Expr.{braced, dollar, is_name_byte, named, parts_of, variable, variable_part};
ghost use Rattle.zone_key.specs.Fronts.{CutsFront, CutsVariable, front_part, is_plain_byte};
ghost use Rattle.zone_key.specs.Reading.{ReadsExpr};
ghost use Rattle.zone_key.specs.declared.expr.ExprFault.TheVariants.{NoMemory};

use sqlite_items::Items;
use std::alloc::{AllocError, AllocFailed, Global};
use thiserror::Error;
use zone_outside::Text;

/// The most parts that a key expression has.
pub const MAX_PARTS: usize = 8;

/// A part of a key expression.
#[derive(Debug, Drop)]
pub enum Part {
    /// Text that stands for itself: one byte or more, none of them `$`.
    Plain { text: Text },
    /// A variable by its name, but for the two below.
    Named { name: Text },
    /// `$remote_addr`: the client's address in dotted decimal.
    Address,
    /// `$binary_remote_addr`: the four octets of the client's address.
    Binary,
}

/// A key expression, as the zone directives of `ngx_http_limit_req_module` and
/// `ngx_http_limit_conn_module` have it: plain text and variables.
#[derive(Debug, Drop)]
pub struct Expr {
    /// Its parts in their order: 1 to 8, and no plain text right behind plain text.
    pub parts: Items<Part>,
}

/// Why a text gives no key expression.
#[derive(Clone, Copy, Debug, PartialEq, Eq, Error)]
pub enum ExprFault {
    /// It spells none: a `$` has no name behind it, or the text is empty, or there are more than 8 parts.
    #[error("the text is no key expression")]
    BadKey,
    /// There was no memory for its parts.
    #[error("no memory")]
    NoMemory,
}

impl From<zone_outside::NoMemory> for ExprFault {
    ghost from_gives = { λ _ e. e ≡ NoMemory };

    fn from(_error: zone_outside::NoMemory) -> ExprFault {
        ExprFault::NoMemory
    }
}

impl From<AllocError> for ExprFault {
    ghost from_gives = { λ _ e. e ≡ NoMemory };

    fn from(_error: AllocError) -> ExprFault {
        ExprFault::NoMemory
    }
}

/// What stands at the front of an expression's text.
#[derive(Clone, Copy)]
enum Front<'a> {
    /// Plain text, up to a `$`.
    Plain(&'a [u8]),
    /// A variable of this name.
    Variable(&'a [u8]),
}

/// Whether a byte may stand in a variable's name: a letter, a digit or `_`.
fn is_name_byte(byte: u8) -> bool
    ensures { result ≡ is_name_byte byte }
{
    byte.is_ascii_alphanumeric() || byte == b'_'
}

/// How many bytes at the front of a text may stand in a name.
fn name_len(text: &[u8]) -> usize
    ensures value { result ≡ prefix_len is_name_byte text.now }
    ensures within { result ≤ length text.now }
{
    text.iter().take_while(|byte| is_name_byte(**byte)).count()
}

/// How many bytes at the front of a text are none of them `$`.
fn plain_len(text: &[u8]) -> usize
    ensures value { result ≡ prefix_len is_plain_byte text.now }
    ensures within { result ≤ length text.now }
{
    text.iter().take_while(|byte| **byte != b'$').count()
}

/// The name of the variable that begins behind a `${`, and the text behind the variable.
fn braced_name(text: &[u8]) -> Option<(&[u8], &[u8])>
    ensures cuts { CutsVariable result (variable_part (braced text.now)) }
    ensures shorter { IfSome result (λ cut. length cut.1.now < length text.now) }
{
    let len = name_len(text);
    if len == 0 {
        return None;
    }
    let (name, behind) = text.split_at(len);
    if behind.is_empty() || behind[0] != b'}' {
        return None;
    }
    Some((name, &behind[1..]))
}

/// The name that a text begins with, and the text behind it.
fn bare_name(text: &[u8]) -> Option<(&[u8], &[u8])>
    ensures cuts { CutsVariable result (variable_part (named text.now)) }
    ensures shorter { IfSome result (λ cut. length cut.1.now < length text.now) }
{
    let len = name_len(text);
    if len == 0 {
        return None;
    }
    Some(text.split_at(len))
}

/// The name of the variable that begins behind a `$`, and the text behind the variable.
fn variable_name(text: &[u8]) -> Option<(&[u8], &[u8])>
    ensures cuts { CutsVariable result (dollar text.now) }
    ensures shorter { IfSome result (λ cut. length cut.1.now < length text.now) }
{
    match text {
        [b'{', braced @ ..] => braced_name(braced),
        _ => bare_name(text),
    }
}

/// What stands at the front of a text that isn't empty, and the text behind it.
fn cut_front(text: &[u8]) -> Option<(Front<'_>, &[u8])>
    requires { 0 < length text.now }
    ensures cuts { CutsFront result (parts_of text.now) }
    ensures shorter { IfSome result (λ cut. length cut.1.now < length text.now) }
{
    if text[0] == b'$' {
        let (name, behind) = variable_name(&text[1..])?;
        return Some((Front::Variable(name), behind));
    }
    let (plain, behind) = text.split_at(plain_len(text));
    Some((Front::Plain(plain), behind))
}

/// The variable of a name.
fn variable(alloc: Global, name: &[u8]) -> Result<Part, zone_outside::NoMemory>
    ensures { IfOk result (λ part. part ≡ variable name.now) }
{
    if name == b"remote_addr".as_slice() {
        return Ok(Part::Address);
    }
    if name == b"binary_remote_addr".as_slice() {
        return Ok(Part::Binary);
    }
    let name = Text::of(alloc, name)?;
    Ok(Part::Named { name })
}

/// The part that stands at the front.
fn part_of(alloc: Global, front: Front<'_>) -> Result<Part, zone_outside::NoMemory>
    ensures { IfOk result (λ part. part ≡ front_part front.entry) }
{
    match front {
        Front::Plain(bytes) => {
            let text = Text::of(alloc, bytes)?;
            Ok(Part::Plain { text })
        }
        Front::Variable(name) => variable(alloc, name),
    }
}

/// Reads a key expression: text with variables `$name` and `${name}`, as nginx's complex values have them
/// (`ngx_http_script_compile` in `src/http/ngx_http_script.c`). A bare name goes on as long as it may.
///
/// `ExprFault::BadKey` comes exactly where a `$` isn't followed by a name or by `{`, a name and `}`, where
/// the text is empty, and where there are more than 8 parts. `ExprFault::NoMemory` comes where there is no
/// memory for the parts.
pub fn read_expr(alloc: Global, text: &Text) -> Result<Expr, ExprFault>
    ensures { ReadsExpr result text.now }
{
    let mut parts = Items::new(alloc);
    let mut rest = text.bytes();
    while !rest.is_empty() {
        let Some((front, behind)) = cut_front(rest) else {
            return Err(ExprFault::BadKey);
        };
        if parts.len() == MAX_PARTS {
            return Err(ExprFault::BadKey);
        }
        let part = part_of(alloc, front)?;
        parts.push(part)?;
        rest = behind;
    }
    if parts.is_empty() {
        return Err(ExprFault::BadKey);
    }
    Ok(Expr { parts })
}
