ghost use Rattle.std.specs.Prelude.{◌≡◌, ◌≤◌, ◌++◌, None, IfOk, OnOk, MatchResult};
ghost use Rattle.config_rules.specs.InOrder.{kind_at, places_of};
ghost use Rattle.config_rules.specs.Rules.{arguments_at, fault_at, fault_of, first_fault, names_if_conn, names_if_req, noted, nothing, zones_named};
ghost use Rattle.config_rules.specs.Answers.{FaultIs, ReadsFault};
ghost use Rattle.config_rules.specs.Views.{place_now};

use crate::argument::meanings;
use crate::earlier::{Earlier, ZoneNames, add_declared};
use crate::fault::ConfigFault;
use crate::kind::Kind;
use crate::names::NameSet;
use crate::place::{Spot, kind_at};
use crate::rules::rule_of;
use crate::walk::Walk;
use crate::words::arguments_of;
use directive_text::Directive;
use std::alloc::Global;
use zone_outside::NoMemory;

/// Adds the names of the zones that a directive declares.
fn add_names(alloc: Global, names: &mut ZoneNames, place: &Spot<'_>) -> Result<(), NoMemory>
    ensures req { OnOk result (names.new.req ≡ names.old.req ++ names_if_req (kind_at (place_now place.now)) (arguments_at (place_now place.now))) }
    ensures conn { OnOk result (names.new.conn ≡ names.old.conn ++ names_if_conn (kind_at (place_now place.now)) (arguments_at (place_now place.now))) }
{
    let kind = kind_at(place);
    match kind {
        Kind::ReqZone => {
            let arguments = meanings(alloc, kind, arguments_of(place.directive))?;
            add_declared(alloc, &mut names.req, &arguments)
        }
        Kind::ConnZone => {
            let arguments = meanings(alloc, kind, arguments_of(place.directive))?;
            add_declared(alloc, &mut names.conn, &arguments)
        }
        _ => Ok(()),
    }
}

/// The names of the zones of a text.
fn zones_named(alloc: Global, directives: &[Directive]) -> Result<ZoneNames, NoMemory>
    ensures { IfOk result (λ names. names ≡ zones_named (places_of directives.now)) }
{
    let mut names = ZoneNames {
        req: NameSet::new(alloc),
        conn: NameSet::new(alloc),
    };
    let mut walk = Walk::new(alloc, directives)?;
    'places: while let Some(place) = walk.next()? {
        add_names(alloc, &mut names, &place)?;
    }
    Ok(names)
}

/// Checks a directive in its place, and notes it where it breaks no rule.
fn check_place(
    alloc: Global,
    text: &ZoneNames,
    earlier: &mut Earlier,
    place: &Spot<'_>,
) -> Result<(), ConfigFault>
    requires { earlier.old.zone_bytes ≤ 268435456 }
    ensures fault { MatchResult result
        (λ _. fault_at text.now earlier.old (place_now place.now) ≡ None)
        (λ fault. FaultIs fault (fault_at text.now earlier.old (place_now place.now))) }
    ensures noted { OnOk result (earlier.new ≡ noted earlier.old (place_now place.now)) }
    ensures bytes { OnOk result (earlier.new.zone_bytes ≤ 268435456) }
{
    let kind = kind_at(place);
    let arguments = meanings(alloc, kind, arguments_of(place.directive))?;
    match rule_of(alloc, text, earlier, kind, &arguments, place)? {
        Some(rule) => Err(ConfigFault::At {
            line: place.directive.line,
            rule,
        }),
        None => {
            earlier.note(alloc, kind, &arguments, place.directive)?;
            Ok(())
        }
    }
}

/// Checks each directive, in the order of the text, and that there is a server.
fn check(alloc: Global, directives: &[Directive], text: &ZoneNames) -> Result<(), ConfigFault>
    ensures { MatchResult result
        (λ _. first_fault text.now nothing (places_of directives.now) ≡ None)
        (λ fault. FaultIs fault (first_fault text.now nothing (places_of directives.now))) }
{
    let mut earlier = Earlier::new(alloc);
    let mut walk = Walk::new(alloc, directives)?;
    'places: while let Some(place) = walk.next()? {
        check_place(alloc, text, &mut earlier, &place)?;
    }
    if earlier.has_server {
        Ok(())
    } else {
        Err(ConfigFault::At { line: 1, rule: 1 })
    }
}

/// Checks that directives break no rule.
///
/// `ConfigFault::At` comes exactly where one does: with the line of the first directive that breaks one, and
/// the least rule that it breaks. `ConfigFault::NoMemory` comes where there is no memory for what the rules
/// look at.
pub fn check_directives(alloc: Global, directives: &[Directive]) -> Result<(), ConfigFault>
    ensures { MatchResult result (λ _. fault_of directives.now ≡ None)
        (λ fault. ReadsFault directives.now fault) }
{
    let text = zones_named(alloc, directives)?;
    check(alloc, directives, &text)
}
