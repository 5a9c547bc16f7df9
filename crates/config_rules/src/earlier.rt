ghost use Rattle.std.specs.Prelude.{◌≡◌, ◌+◌, ◌≤◌, ◌++◌, OnOk, is_some};
ghost use Rattle.std.specs.List.{filter_map, find};
ghost use Rattle.std.specs.Option.{option_copied, option_to_list};
ghost use Rattle.config_rules.specs.Arguments.{declared_name, declared_size};
ghost use Rattle.config_rules.specs.Rules.{and_then_one, bytes_or_none, first_said, is_server, name_if_location, name_if_upstream, noted_behind, nothing};

use crate::argument::Argument;
use crate::kind::Kind;
use crate::names::{CaselessNames, NameSet};
use crate::numbers::zone_size;
use crate::rules::location_name;
use crate::words::{arguments_of, first_of, has_block};
use directive_text::Directive;
use sqlite_items::Items;
use std::alloc::Global;
use zone_outside::{NoMemory, Text};

/// The names of the zones of a text, by kind.
#[derive(Drop)]
pub struct ZoneNames {
    /// Those that `limit_req_zone` declares.
    pub req: NameSet,
    /// Those that `limit_conn_zone` declares.
    pub conn: NameSet,
}

/// What stands before a directive in its text.
#[derive(Drop)]
pub struct Earlier {
    /// The names of the zones.
    pub zone_names: Items<Text>,
    /// The bytes of the zones together.
    pub zone_bytes: u64,
    /// The names of the locations.
    pub location_names: Items<Text>,
    /// The names of the upstreams.
    pub upstream_names: CaselessNames,
    /// Whether there is a `server` block in `http`.
    pub has_server: bool,
}

/// The name of a zone that an argument declares.
pub(crate) fn declared_name(argument: &Argument) -> Option<&Text>
    ensures { option_copied result ≡ declared_name argument.now }
{
    match argument {
        Argument::Zone { name, .. } | Argument::Name { name } => Some(name),
        _ => None,
    }
}

/// The size of a zone that an argument declares.
fn declared_size(argument: &Argument) -> Option<&Text>
    ensures { option_copied result ≡ declared_size argument.now }
{
    match argument {
        Argument::Zone { size, .. } | Argument::Size { size } => Some(size),
        _ => None,
    }
}

/// The first argument that declares a zone's name.
fn with_name(arguments: &[Argument]) -> Option<&Argument>
    ensures { option_copied result ≡ find (λ a. is_some (declared_name a)) arguments.now }
{
    arguments
        .iter()
        .find(|argument| declared_name(argument).is_some())
}

/// The first name of a zone that arguments declare.
fn first_name(arguments: &[Argument]) -> Option<&Text>
    ensures { option_copied result ≡ first_said declared_name arguments.now }
{
    match with_name(arguments) {
        Some(argument) => declared_name(argument),
        None => None,
    }
}

/// The first argument that declares a zone's size.
fn with_size(arguments: &[Argument]) -> Option<&Argument>
    ensures { option_copied result ≡ find (λ a. is_some (declared_size a)) arguments.now }
{
    arguments
        .iter()
        .find(|argument| declared_size(argument).is_some())
}

/// The first size of a zone that arguments declare.
fn first_size(arguments: &[Argument]) -> Option<&Text>
    ensures { option_copied result ≡ first_said declared_size arguments.now }
{
    match with_size(arguments) {
        Some(argument) => declared_size(argument),
        None => None,
    }
}

/// The bytes of the zone that arguments declare.
fn bytes_declared(arguments: &[Argument]) -> u64
    ensures { result ≡ bytes_or_none (first_said declared_size arguments.now) }
{
    match first_size(arguments) {
        Some(size) => match zone_size(size.bytes()) {
            Some(bytes) => bytes,
            None => 0,
        },
        None => 0,
    }
}

/// Adds the name of the zone that arguments declare, if they declare one.
fn add_first(alloc: Global, names: &mut Items<Text>, arguments: &[Argument]) -> Result<(), NoMemory>
    ensures { OnOk result (names.new ≡ and_then_one names.old (first_said declared_name arguments.now)) }
{
    match first_name(arguments) {
        Some(name) => {
            names.push(Text::of(alloc, name.bytes())?)?;
            Ok(())
        }
        None => Ok(()),
    }
}

/// Adds the name of a location.
fn add_location(
    alloc: Global,
    names: &mut Items<Text>,
    kind: Kind,
    directive: &Directive,
) -> Result<(), NoMemory>
    ensures { OnOk result (names.new ≡ and_then_one names.old (name_if_location kind directive.now)) }
{
    match kind {
        Kind::Location => {
            names.push(location_name(alloc, arguments_of(directive))?)?;
            Ok(())
        }
        _ => Ok(()),
    }
}

/// Adds the name of an upstream.
fn add_upstream(
    alloc: Global,
    names: &mut CaselessNames,
    kind: Kind,
    directive: &Directive,
) -> Result<(), NoMemory>
    ensures { OnOk result (names.new ≡ and_then_one names.old (name_if_upstream kind directive.now)) }
{
    match kind {
        Kind::Upstream => names.add(alloc, first_of(arguments_of(directive))),
        _ => Ok(()),
    }
}

/// Whether a directive is a `server` block of `http`.
fn is_server(kind: Kind, directive: &Directive) -> bool
    ensures { result ≡ is_server kind directive.now }
{
    match kind {
        Kind::Server => has_block(directive),
        _ => false,
    }
}

/// Adds the name of the zone that an argument declares, if it declares one.
fn add_name(alloc: Global, names: &mut NameSet, argument: &Argument) -> Result<(), NoMemory>
    ensures { OnOk result (names.new ≡ names.old ++ option_to_list (declared_name argument.now)) }
{
    match declared_name(argument) {
        Some(name) => names.add(alloc, name.bytes()),
        None => Ok(()),
    }
}

/// Adds the names of all zones that arguments declare.
pub(crate) fn add_declared(
    alloc: Global,
    names: &mut NameSet,
    arguments: &[Argument],
) -> Result<(), NoMemory>
    ensures { OnOk result (names.new ≡ names.old ++ filter_map declared_name arguments.now) }
{
    for argument in arguments {
        add_name(alloc, names, argument)?;
    }
    Ok(())
}

impl Earlier {
    /// Nothing stands before.
    pub(crate) fn new(alloc: Global) -> Earlier
        ensures { result ≡ nothing }
    {
        Earlier {
            zone_names: Items::new(alloc),
            zone_bytes: 0,
            location_names: Items::new(alloc),
            upstream_names: CaselessNames::new(alloc),
            has_server: false,
        }
    }

    /// Notes a directive that breaks no rule.
    pub(crate) fn note(
        &mut self,
        alloc: Global,
        kind: Kind,
        arguments: &[Argument],
        directive: &Directive,
    ) -> Result<(), NoMemory>
        requires { self.old.zone_bytes + bytes_or_none (first_said declared_size arguments.now) ≤ 268435456 }
        ensures noted { OnOk result (self.new ≡ noted_behind self.old kind arguments.now directive.now) }
        ensures bytes { OnOk result (self.new.zone_bytes ≤ 268435456) }
    {
        self.zone_bytes += bytes_declared(arguments);
        add_first(alloc, &mut self.zone_names, arguments)?;
        add_location(alloc, &mut self.location_names, kind, directive)?;
        add_upstream(alloc, &mut self.upstream_names, kind, directive)?;
        self.has_server = self.has_server || is_server(kind, directive);
        Ok(())
    }
}
