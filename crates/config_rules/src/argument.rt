ghost use Rattle.std.specs.Prelude.{◌≡◌, IfOk};
ghost use Rattle.config_rules.specs.Arguments.{first_argument, later_argument, limit_argument, meanings, number, peer_argument};
ghost use Rattle.config_rules.specs.declared.kind.Kind.TheVariants as kind;

use crate::kind::Kind;
use crate::words::{declared_in, value_of};
use std::alloc::Global;
use zone_outside::{NoMemory, Text};

/// What an argument is.
#[derive(Drop)]
pub enum Argument {
    /// The key of a zone.
    Key { text: Text },
    /// A zone that is declared, in one word.
    Zone { name: Text, size: Text },
    /// The name of a zone that is declared.
    Name { name: Text },
    /// The size of a zone that is declared.
    Size { size: Text },
    /// The name of a zone that is used.
    Use { name: Text },
    /// A rate.
    Rate { text: Text },
    /// A number from `low` to `most`.
    Number { text: Text, low: u64, most: u64 },
    /// `on` or `off`.
    Switch { text: Text },
    /// A time.
    Time { text: Text },
    /// The address of a server.
    Address { text: Text },
    /// Any other word that the directive has.
    Known,
    /// A word that the directive doesn't have.
    Unknown,
}

/// A number from `low` to `most`.
fn number(alloc: Global, low: u64, most: u64, value: &[u8]) -> Result<Argument, NoMemory>
    ensures { IfOk result (λ argument. argument ≡ number low most value.now) }
{
    let text = Text::of(alloc, value)?;
    Ok(Argument::Number { text, low, most })
}

/// An argument of `limit_req`.
fn limit_argument(alloc: Global, word: &[u8]) -> Result<Argument, NoMemory>
    ensures { IfOk result (λ argument. argument ≡ limit_argument word.now) }
{
    if let Some(value) = value_of(b"zone=", word) {
        let name = Text::of(alloc, value)?;
        return Ok(Argument::Use { name });
    }
    if let Some(value) = value_of(b"burst=", word) {
        return number(alloc, 0, 1_000_000, value);
    }
    if let Some(value) = value_of(b"delay=", word) {
        return number(alloc, 0, 1_000_000, value);
    }
    if word == b"nodelay".as_slice() {
        return Ok(Argument::Known);
    }
    Ok(Argument::Unknown)
}

/// An argument of a server of an upstream, behind its address.
fn peer_argument(alloc: Global, word: &[u8]) -> Result<Argument, NoMemory>
    ensures { IfOk result (λ argument. argument ≡ peer_argument word.now) }
{
    if let Some(value) = value_of(b"weight=", word) {
        return number(alloc, 1, 65_535, value);
    }
    if let Some(value) = value_of(b"max_conns=", word) {
        return number(alloc, 0, 1_000_000_000, value);
    }
    if let Some(value) = value_of(b"max_fails=", word) {
        return number(alloc, 0, 1_000_000_000, value);
    }
    if let Some(value) = value_of(b"fail_timeout=", word) {
        let text = Text::of(alloc, value)?;
        return Ok(Argument::Time { text });
    }
    if word == b"backup".as_slice() || word == b"down".as_slice() {
        return Ok(Argument::Known);
    }
    Ok(Argument::Unknown)
}

/// An argument of a zone's directive behind its key, but for a rate.
fn zone_argument(alloc: Global, word: &[u8]) -> Result<Argument, NoMemory>
    ensures { IfOk result (λ argument. argument ≡ later_argument kind.ConnZone word.now) }
{
    match declared_in(word) {
        Some(declared) => {
            let name = Text::of(alloc, declared.name)?;
            let size = Text::of(alloc, declared.size)?;
            Ok(Argument::Zone { name, size })
        }
        None => Ok(Argument::Unknown),
    }
}

/// An argument of a request zone's directive behind its key.
fn req_zone_argument(alloc: Global, word: &[u8]) -> Result<Argument, NoMemory>
    ensures { IfOk result (λ argument. argument ≡ later_argument kind.ReqZone word.now) }
{
    if declared_in(word).is_some() {
        return zone_argument(alloc, word);
    }
    if let Some(value) = value_of(b"rate=", word) {
        let text = Text::of(alloc, value)?;
        return Ok(Argument::Rate { text });
    }
    Ok(Argument::Unknown)
}

/// An argument behind the first.
fn later_argument(alloc: Global, kind: Kind, word: &[u8]) -> Result<Argument, NoMemory>
    ensures { IfOk result (λ argument. argument ≡ later_argument kind word.now) }
{
    match kind {
        Kind::ReqZone => req_zone_argument(alloc, word),
        Kind::ConnZone => zone_argument(alloc, word),
        Kind::LimitReq => limit_argument(alloc, word),
        Kind::LimitConn => number(alloc, 1, 65_535, word),
        Kind::PeerZone => {
            let size = Text::of(alloc, word)?;
            Ok(Argument::Size { size })
        }
        Kind::Peer => peer_argument(alloc, word),
        _ => Ok(Argument::Known),
    }
}

/// The first argument.
fn first_argument(alloc: Global, kind: Kind, word: &[u8]) -> Result<Argument, NoMemory>
    ensures { IfOk result (λ argument. argument ≡ first_argument kind word.now) }
{
    match kind {
        Kind::ReqZone | Kind::ConnZone => {
            let text = Text::of(alloc, word)?;
            Ok(Argument::Key { text })
        }
        Kind::LimitReq => limit_argument(alloc, word),
        Kind::LimitConn => {
            let name = Text::of(alloc, word)?;
            Ok(Argument::Use { name })
        }
        Kind::Status => number(alloc, 400, 599, word),
        Kind::DryRun => {
            let text = Text::of(alloc, word)?;
            Ok(Argument::Switch { text })
        }
        Kind::PeerZone => {
            let name = Text::of(alloc, word)?;
            Ok(Argument::Name { name })
        }
        Kind::Peer => {
            let text = Text::of(alloc, word)?;
            Ok(Argument::Address { text })
        }
        _ => Ok(Argument::Known),
    }
}

/// The arguments of a directive of this kind.
pub(crate) fn meanings(alloc: Global, kind: Kind, words: &[Text]) -> Result<Vec<Argument>, NoMemory>
    ensures { IfOk result (λ arguments. arguments.items ≡ meanings kind words.now) }
{
    let mut arguments = Vec::new(alloc);
    if let [first, later @ ..] = words {
        arguments.push(first_argument(alloc, kind, first.bytes())?)?;
        for word in later {
            arguments.push(later_argument(alloc, kind, word.bytes())?)?;
        }
    }
    Ok(arguments)
}
