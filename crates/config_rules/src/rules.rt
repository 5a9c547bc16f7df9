ghost use Rattle.std.specs.Prelude.{◌≡◌, IfOk, List, count_by};
ghost use Rattle.std.specs.List.{list_any};
ghost use Rattle.zone_key.specs.Expr.{is_same};
ghost use Rattle.config_rules.specs.declared.argument.Argument.{Argument};
ghost use Rattle.config_rules.specs.declared.earlier.Earlier.{Earlier};
ghost use Rattle.config_rules.specs.declared.earlier.ZoneNames.{ZoneNames};
ghost use Rattle.config_rules.specs.declared.kind.Kind.{Kind};
ghost use Rattle.config_rules.specs.Words.{is_called};
ghost use Rattle.config_rules.specs.InOrder.{Place};
ghost use Rattle.config_rules.specs.Rules.{argument_rules, declares_one_of, first_broken, form_rules, has_bad_rate, has_bad_size, has_repeats, has_size, has_taken_name, is_again, is_backup, is_backup_word, is_bad_key, is_delay, is_formed, is_in_list_of, is_large, is_name, is_once, is_other_method, is_out_of_range, is_parameter, is_primary, is_repeated, is_server_block, is_small, is_switch, is_too_many, is_twice, is_unknown, is_use_of, lacks_primary, limits_again, limits_by, location_name, misplaced, names_no_zone, order_rules, parameters, rules, second_server, uses_one_of};
ghost use Rattle.config_rules.specs.Views.{place_now};

use crate::argument::Argument;
use crate::earlier::{Earlier, ZoneNames};
use crate::kind::Kind;
use crate::names::NameSet;
use crate::numbers::{is_large_size, is_number_in, is_size, is_small_size, rate_of, time_of};
use crate::place::Spot;
use crate::words::{
    arguments_of, behind_first, first_of, has_block, has_called, inner_of, is_called, name_of,
    parameter_name, value_of,
};
use directive_text::Directive;
use std::alloc::Global;
use zone_key::{ExprFault, read_expr};
use zone_outside::{NoMemory, Text};

/// The most zones of a configuration.
pub const MAX_ZONES: usize = 16;

/// The most servers of a list of an upstream.
pub const MAX_SERVERS: usize = 64;

/// The most locations of a configuration.
pub const MAX_LOCATIONS: usize = 64;

/// The most limits of one kind in a block.
pub const MAX_LIMITS: usize = 8;

/// Whether a directive is called `server` and has a block.
fn is_server_block(directive: &Directive) -> bool
    ensures { result ≡ is_server_block directive.now }
{
    is_called(b"server", directive) && has_block(directive)
}

/// Whether a block has a `server` block.
fn has_server_block(block: &[Directive]) -> bool
    ensures { result ≡ list_any is_server_block block.now }
{
    block.iter().any(is_server_block)
}

/// Rule 2: a second `server` block in `http`.
fn second_server(kind: Kind, directive: &Directive, before: &[Directive]) -> bool
    ensures { result ≡ second_server kind directive.now before.now }
{
    match kind {
        Kind::Server => has_block(directive) && has_server_block(before),
        _ => false,
    }
}

/// Rule 3: a directive in a block that doesn't have it.
fn is_misplaced(kind: Kind) -> bool
    ensures { result ≡ misplaced kind }
{
    matches!(kind, Kind::Misplaced)
}

/// Rule 18: a method that isn't built.
fn is_other_method(kind: Kind) -> bool
    ensures { result ≡ is_other_method kind }
{
    matches!(kind, Kind::OtherMethod)
}

/// Rule 4: a wrong number of arguments, or a block missing or not wanted, make a directive ill-formed.
fn is_formed(kind: Kind, count: usize, block: bool) -> bool
    ensures { result ≡ is_formed kind count block }
{
    match kind {
        Kind::Http | Kind::Server => count == 0 && block,
        Kind::Upstream => count == 1 && block,
        Kind::Location => (count == 1 || count == 2) && block,
        Kind::ReqZone => count == 3 && !block,
        Kind::ConnZone | Kind::LimitConn | Kind::PeerZone => count == 2 && !block,
        Kind::LimitReq | Kind::Peer => 1 <= count && !block,
        Kind::Status | Kind::DryRun | Kind::ProxyPass => count == 1 && !block,
        Kind::LeastConn => count == 0 && !block,
        Kind::Unnamed | Kind::Misplaced | Kind::OtherMethod => true,
    }
}

/// Rule 5: an argument that the directive doesn't have.
fn is_unknown(argument: &Argument) -> bool
    ensures { result ≡ is_unknown argument.now }
{
    matches!(argument, Argument::Unknown)
}

/// Rule 6: a size that is none.
fn has_bad_size(argument: &Argument) -> bool
    ensures { result ≡ has_bad_size argument.now }
{
    match argument {
        Argument::Zone { size, .. } | Argument::Size { size } => !is_size(size.bytes()),
        _ => false,
    }
}

/// Rule 7: a size below the least.
fn has_small_size(argument: &Argument) -> bool
    ensures { result ≡ has_size is_small argument.now }
{
    match argument {
        Argument::Zone { size, .. } | Argument::Size { size } => is_small_size(size.bytes()),
        _ => false,
    }
}

/// Rule 8: a size above the greatest, by itself or behind those before.
fn has_large_size(earlier: u64, argument: &Argument) -> bool
    ensures { result ≡ has_size (is_large earlier) argument.now }
{
    match argument {
        Argument::Zone { size, .. } | Argument::Size { size } => is_large_size(
            earlier,
            size.bytes(),
        ),
        _ => false,
    }
}

/// Rule 9: a rate that is none.
fn has_bad_rate(argument: &Argument) -> bool
    ensures { result ≡ has_bad_rate argument.now }
{
    match argument {
        Argument::Rate { text } => rate_of(text.bytes()).is_none(),
        _ => false,
    }
}

/// Whether a word has 1 to 255 bytes.
fn is_name(word: &[u8]) -> bool
    ensures { result ≡ is_name word.now }
{
    1 <= word.len() && word.len() <= 255
}

/// Whether a word is `on` or `off`.
fn is_switch(word: &[u8]) -> bool
    ensures { result ≡ is_switch word.now }
{
    word == b"on".as_slice() || word == b"off".as_slice()
}

/// Rule 10: another number, switch, name or address out of its range or form.
fn is_out_of_range(argument: &Argument) -> bool
    ensures { result ≡ is_out_of_range argument.now }
{
    match argument {
        Argument::Zone { name, .. } | Argument::Name { name } | Argument::Use { name } => !is_name(
            name.bytes(),
        ),
        Argument::Number { text, low, most } => !is_number_in(*low, *most, text.bytes()),
        Argument::Switch { text } => !is_switch(text.bytes()),
        Argument::Time { text } => time_of(text.bytes()).is_none(),
        Argument::Address { text } => !is_name(text.bytes()),
        _ => false,
    }
}

/// Whether a name is one of these.
fn is_one_of(names: &[Text], name: &Text) -> bool
    ensures { result ≡ list_any (is_same name.now) names.now }
{
    names.iter().any(|other| name.bytes() == other.bytes())
}

/// Whether an argument uses one of the zones of these names.
fn uses_one_of(names: &NameSet, argument: &Argument) -> bool
    ensures { result ≡ uses_one_of names.now argument.now }
{
    match argument {
        Argument::Use { name } => names.has(name.bytes()),
        _ => false,
    }
}

/// Whether one of the arguments uses one of the zones of these names.
fn use_one_of(names: &NameSet, arguments: &[Argument]) -> bool
    ensures { result ≡ list_any (uses_one_of names.now) arguments.now }
{
    arguments
        .iter()
        .any(|argument| uses_one_of(names, argument))
}

/// Rule 11: a limit names no zone of its kind in the text.
fn names_no_zone(text: &ZoneNames, kind: Kind, arguments: &[Argument]) -> bool
    ensures { result ≡ names_no_zone text.now kind arguments.now }
{
    match kind {
        Kind::LimitReq => !use_one_of(&text.req, arguments),
        Kind::LimitConn => !use_one_of(&text.conn, arguments),
        _ => false,
    }
}

/// Rule 12: a zone's name that an earlier zone has.
fn declares_one_of(names: &[Text], argument: &Argument) -> bool
    ensures { result ≡ declares_one_of names.now argument.now }
{
    match argument {
        Argument::Zone { name, .. } | Argument::Name { name } => is_one_of(names, name),
        _ => false,
    }
}

/// Whether a directive of this kind may stand in a block once.
fn is_once(kind: Kind) -> bool
    ensures { result ≡ is_once kind }
{
    match kind {
        Kind::Http | Kind::Status | Kind::DryRun | Kind::ProxyPass | Kind::PeerZone => true,
        _ => false,
    }
}

/// A directive twice in one block.
fn is_again(kind: Kind, directive: &Directive, before: &[Directive]) -> bool
    ensures { result ≡ is_again kind directive.now before.now }
{
    is_once(kind) && has_called(name_of(directive), before)
}

/// Whether a word of `limit_req` names this zone.
fn is_use_of(zone: &Text, word: &Text) -> bool
    ensures { result ≡ is_use_of zone.now word.now }
{
    match value_of(b"zone=", word.bytes()) {
        Some(name) => zone.bytes() == name,
        None => false,
    }
}

/// Whether one of the words of `limit_req` names this zone.
fn has_use_of(zone: &Text, words: &[Text]) -> bool
    ensures { result ≡ list_any (is_use_of zone.now) words.now }
{
    words.iter().any(|word| is_use_of(zone, word))
}

/// Whether a directive that limits requests, or connections, names this zone.
fn limits_by(kind: Kind, zone: &Text, directive: &Directive) -> bool
    ensures { result ≡ limits_by kind zone.now directive.now }
{
    match kind {
        Kind::LimitReq => {
            is_called(b"limit_req", directive) && has_use_of(zone, arguments_of(directive))
        }
        Kind::LimitConn => {
            is_called(b"limit_conn", directive) && zone.bytes() == first_of(arguments_of(directive))
        }
        _ => false,
    }
}

/// Whether one of the directives before names this zone.
fn is_limited_by(kind: Kind, zone: &Text, before: &[Directive]) -> bool
    ensures { result ≡ list_any (limits_by kind zone.now) before.now }
{
    before
        .iter()
        .any(|directive| limits_by(kind, zone, directive))
}

/// The same zone twice in one block.
fn limits_again(kind: Kind, before: &[Directive], argument: &Argument) -> bool
    ensures { result ≡ limits_again kind before.now argument.now }
{
    match argument {
        Argument::Use { name } => is_limited_by(kind, name, before),
        _ => false,
    }
}

/// The arguments that may stand in a directive once.
fn parameters(kind: Kind, words: &[Text]) -> &[Text]
    ensures { result.now ≡ parameters kind words.now }
{
    match kind {
        Kind::ReqZone | Kind::ConnZone | Kind::Peer => behind_first(words),
        Kind::LimitReq => words,
        _ => &[],
    }
}

/// Whether a parameter is `delay` or `nodelay`.
fn is_delay(name: &[u8]) -> bool
    ensures { result ≡ is_delay name.now }
{
    name == b"delay".as_slice() || name == b"nodelay".as_slice()
}

/// Whether one of the words gives this parameter.
fn has_parameter(name: &[u8], words: &[Text]) -> bool
    ensures { result ≡ list_any (is_parameter name.now) words.now }
{
    words
        .iter()
        .any(|word| name == parameter_name(word.bytes()))
}

/// A parameter that is given again, but for `nodelay` and `delay`.
fn is_repeated(word: &Text, words: &[Text]) -> bool
    ensures { result ≡ is_repeated word.now words.now }
{
    let name = parameter_name(word.bytes());
    !is_delay(name) && has_parameter(name, words)
}

/// Whether a parameter is given twice, but for `nodelay` and `delay`.
fn has_repeats(words: &[Text]) -> bool
    ensures { result ≡ has_repeats words.now }
{
    let mut rest = words;
    'words: while let [word, later @ ..] = rest {
        if is_repeated(word, later) {
            return true;
        }
        rest = later;
    }
    false
}

/// Whether one of the arguments names a zone again.
fn limit_again(kind: Kind, before: &[Directive], arguments: &[Argument]) -> bool
    ensures { result ≡ list_any (limits_again kind before.now) arguments.now }
{
    arguments
        .iter()
        .any(|argument| limits_again(kind, before, argument))
}

/// Rule 13: a directive, a zone of a limit or a parameter twice.
fn is_twice(kind: Kind, arguments: &[Argument], place: &Spot<'_>) -> bool
    ensures { result ≡ is_twice kind arguments.now (place_now place.now) }
{
    is_again(kind, place.directive, place.before)
        || has_repeats(parameters(kind, arguments_of(place.directive)))
        || limit_again(kind, place.before, arguments)
}

/// Whether one of the words is `backup`.
fn has_backup(words: &[Text]) -> bool
    ensures { result ≡ list_any is_backup_word words.now }
{
    words
        .iter()
        .any(|word| word.bytes() == b"backup".as_slice())
}

/// Whether a server belongs to the backup list.
pub fn is_backup(directive: &Directive) -> bool
    ensures { result ≡ is_backup directive.now }
{
    has_backup(behind_first(arguments_of(directive)))
}

/// Whether a directive is a server of this list.
fn is_in_list_of(backup: bool, directive: &Directive) -> bool
    ensures { result ≡ is_in_list_of backup directive.now }
{
    is_called(b"server", directive)
        && if is_backup(directive) {
            backup
        } else {
            !backup
        }
}

/// How many directives before are called so.
fn count_called(name: &[u8], before: &[Directive]) -> usize
    ensures { result ≡ count_by (is_called name.now) before.now }
{
    before
        .iter()
        .filter(|directive| is_called(name, directive))
        .count()
}

/// How many directives before are servers of this list.
fn count_servers(backup: bool, before: &[Directive]) -> usize
    ensures { result ≡ count_by (is_in_list_of backup) before.now }
{
    before
        .iter()
        .filter(|directive| is_in_list_of(backup, directive))
        .count()
}

/// Rule 14: a zone, a server, a location or a limit more than there may be.
fn is_too_many(earlier: &Earlier, kind: Kind, directive: &Directive, before: &[Directive]) -> bool
    ensures { result ≡ is_too_many earlier.now kind directive.now before.now }
{
    match kind {
        Kind::ReqZone | Kind::ConnZone | Kind::PeerZone => MAX_ZONES <= earlier.zone_names.len(),
        Kind::Peer => MAX_SERVERS <= count_servers(is_backup(directive), before),
        Kind::Location => MAX_LOCATIONS <= earlier.location_names.len(),
        Kind::LimitReq => MAX_LIMITS <= count_called(b"limit_req", before),
        Kind::LimitConn => MAX_LIMITS <= count_called(b"limit_conn", before),
        _ => false,
    }
}

/// A location's name: its words, with a space between two.
pub fn location_name(alloc: Global, words: &[Text]) -> Result<Text, NoMemory>
    ensures { IfOk result (λ name. name ≡ location_name words.now) }
{
    let mut name = Vec::new(alloc);
    if let [first, later @ ..] = words {
        name.extend_from_slice(first.bytes())?;
        for word in later {
            name.push(b' ')?;
            name.extend_from_slice(word.bytes())?;
        }
    }
    Ok(Text::from_vec(name))
}

/// Rule 15: the name of an earlier location or upstream.
fn has_taken_name(
    alloc: Global,
    earlier: &Earlier,
    kind: Kind,
    directive: &Directive,
) -> Result<bool, NoMemory>
    ensures { IfOk result (λ taken. taken ≡ has_taken_name earlier.now kind directive.now) }
{
    match kind {
        Kind::Location => {
            let name = location_name(alloc, arguments_of(directive))?;
            Ok(is_one_of(earlier.location_names.as_slice(), &name))
        }
        Kind::Upstream => {
            earlier
                .upstream_names
                .has(alloc, first_of(arguments_of(directive)))
        }
        _ => Ok(false),
    }
}

/// Rule 16: a key expression that is none.
fn is_bad_key(alloc: Global, argument: &Argument) -> Result<bool, NoMemory>
    ensures { IfOk result (λ bad. bad ≡ is_bad_key argument.now) }
{
    match argument {
        Argument::Key { text } => match read_expr(alloc, text) {
            Ok(_expr) => Ok(false),
            Err(ExprFault::BadKey) => Ok(true),
            Err(ExprFault::NoMemory) => Err(NoMemory),
        },
        _ => Ok(false),
    }
}

/// Whether an argument is a key expression that is none.
fn has_bad_key(alloc: Global, arguments: &[Argument]) -> Result<bool, NoMemory>
    ensures { IfOk result (λ bad. bad ≡ list_any is_bad_key arguments.now) }
{
    for argument in arguments {
        if is_bad_key(alloc, argument)? {
            return Ok(true);
        }
    }
    Ok(false)
}

/// Whether a directive is a server of the primary list.
pub fn is_primary(directive: &Directive) -> bool
    ensures { result ≡ is_primary directive.now }
{
    is_called(b"server", directive) && !is_backup(directive)
}

/// Whether a block has a server of the primary list.
fn has_primary(block: &[Directive]) -> bool
    ensures { result ≡ list_any is_primary block.now }
{
    block.iter().any(is_primary)
}

/// Rule 17: an upstream without a primary server.
fn lacks_primary(kind: Kind, directive: &Directive) -> bool
    ensures { result ≡ lacks_primary kind directive.now }
{
    match kind {
        Kind::Upstream => !has_primary(inner_of(directive)),
        _ => false,
    }
}

/// The first rule of the directive as a whole that it breaks.
fn form_rule(kind: Kind, place: &Spot<'_>) -> Option<u32>
    ensures { (text : ZoneNames) (earlier : Earlier) (arguments : List Argument)
        → result ≡ first_broken form_rules (record { text = text; earlier = earlier; kind = kind; arguments = arguments; place = place_now place.now }) }
{
    if second_server(kind, place.directive, place.before) {
        Some(2)
    } else if is_misplaced(kind) {
        Some(3)
    } else if is_formed(
        kind,
        arguments_of(place.directive).len(),
        has_block(place.directive),
    ) {
        None
    } else {
        Some(4)
    }
}

/// Whether one of the arguments is one that the directive doesn't have.
fn any_unknown(arguments: &[Argument]) -> bool
    ensures { result ≡ list_any is_unknown arguments.now }
{
    arguments.iter().any(is_unknown)
}

/// Whether one of the arguments is a size that is none.
fn any_bad_size(arguments: &[Argument]) -> bool
    ensures { result ≡ list_any has_bad_size arguments.now }
{
    arguments.iter().any(has_bad_size)
}

/// Whether one of the arguments is a size below the least.
fn any_small_size(arguments: &[Argument]) -> bool
    ensures { result ≡ list_any (has_size is_small) arguments.now }
{
    arguments.iter().any(has_small_size)
}

/// Whether one of the arguments is a size above the greatest.
fn any_large_size(earlier: u64, arguments: &[Argument]) -> bool
    ensures { result ≡ list_any (has_size (is_large earlier)) arguments.now }
{
    arguments
        .iter()
        .any(|argument| has_large_size(earlier, argument))
}

/// Whether one of the arguments is a rate that is none.
fn any_bad_rate(arguments: &[Argument]) -> bool
    ensures { result ≡ list_any has_bad_rate arguments.now }
{
    arguments.iter().any(has_bad_rate)
}

/// Whether one of the arguments is out of its range or form.
fn any_out_of_range(arguments: &[Argument]) -> bool
    ensures { result ≡ list_any is_out_of_range arguments.now }
{
    arguments.iter().any(is_out_of_range)
}

/// The first rule that an argument by itself breaks.
fn argument_rule(earlier: &Earlier, arguments: &[Argument]) -> Option<u32>
    ensures { (text : ZoneNames) (kind : Kind) (place : Place)
        → result ≡ first_broken argument_rules (record { text = text; earlier = earlier.now; kind = kind; arguments = arguments.now; place = place }) }
{
    if any_unknown(arguments) {
        Some(5)
    } else if any_bad_size(arguments) {
        Some(6)
    } else if any_small_size(arguments) {
        Some(7)
    } else if any_large_size(earlier.zone_bytes, arguments) {
        Some(8)
    } else if any_bad_rate(arguments) {
        Some(9)
    } else if any_out_of_range(arguments) {
        Some(10)
    } else {
        None
    }
}

/// Whether one of the arguments declares one of the zones of these names.
fn declare_one_of(names: &[Text], arguments: &[Argument]) -> bool
    ensures { result ≡ list_any (declares_one_of names.now) arguments.now }
{
    arguments
        .iter()
        .any(|argument| declares_one_of(names, argument))
}

/// The first rule of a directive among others that it breaks.
fn order_rule(
    alloc: Global,
    text: &ZoneNames,
    earlier: &Earlier,
    kind: Kind,
    arguments: &[Argument],
    place: &Spot<'_>,
) -> Result<Option<u32>, NoMemory>
    ensures { IfOk result (λ rule. rule
        ≡ first_broken order_rules (record { text = text.now; earlier = earlier.now; kind = kind; arguments = arguments.now; place = place_now place.now })) }
{
    if names_no_zone(text, kind, arguments) {
        return Ok(Some(11));
    }
    if declare_one_of(earlier.zone_names.as_slice(), arguments) {
        return Ok(Some(12));
    }
    if is_twice(kind, arguments, place) {
        return Ok(Some(13));
    }
    if is_too_many(earlier, kind, place.directive, place.before) {
        return Ok(Some(14));
    }
    if has_taken_name(alloc, earlier, kind, place.directive)? {
        return Ok(Some(15));
    }
    if has_bad_key(alloc, arguments)? {
        return Ok(Some(16));
    }
    if lacks_primary(kind, place.directive) {
        return Ok(Some(17));
    }
    if is_other_method(kind) {
        return Ok(Some(18));
    }
    Ok(None)
}

/// The first rule that a directive in its place breaks.
pub(crate) fn rule_of(
    alloc: Global,
    text: &ZoneNames,
    earlier: &Earlier,
    kind: Kind,
    arguments: &[Argument],
    place: &Spot<'_>,
) -> Result<Option<u32>, NoMemory>
    ensures { IfOk result (λ rule. rule
        ≡ first_broken rules (record { text = text.now; earlier = earlier.now; kind = kind; arguments = arguments.now; place = place_now place.now })) }
{
    match form_rule(kind, place) {
        Some(rule) => Ok(Some(rule)),
        None => match argument_rule(earlier, arguments) {
            Some(rule) => Ok(Some(rule)),
            None => order_rule(alloc, text, earlier, kind, arguments, place),
        },
    }
}
