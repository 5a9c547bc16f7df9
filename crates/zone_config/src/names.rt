ghost use Rattle.std.specs.Prelude.{◌≡◌, IfOk};
ghost use Rattle.zone_config.specs.Configuration.{peers_named};
ghost use Rattle.zone_config.specs.Names.{FindsZones};

use crate::data::Upstream;
use std::alloc::Global;
use std::collections::BTreeMap;
use std::marker::Model;
use zone_outside::NoMemory;

/// The upstreams of a configuration, whose zones are looked up by name without regard to the case of ASCII letters.
///
/// Beside the upstreams stand their zones by their names in lower case, so that a look-up takes time with the logarithm of
/// their number. Contracts see the upstreams alone.
#[derive(Drop)]
pub(crate) struct NamedUpstreams<'a> {
    upstreams: &'a [Upstream],
    zones: BTreeMap<Vec<u8>, Option<u32>>,
}

impl<'a> Model for NamedUpstreams<'a> {
    ghost use Rattle.std.specs.Prelude.{List};
    ghost use Rattle.zone_config.specs.declared.data.Upstream.{Upstream};
    ghost use Rattle.zone_config.specs.Names.{FindsZones};

    ghost Value = { List Upstream };

    ghost view = { λ u. u.upstreams.now };

    ghost invariant = { λ u. FindsZones u.zones u.upstreams.now };
}

/// The zones of upstreams by their names in lower case; of several of one name, that of the first.
fn zones_by_name(
    alloc: Global,
    upstreams: &[Upstream],
) -> Result<BTreeMap<Vec<u8>, Option<u32>>, NoMemory>
    ensures { IfOk result (λ zones. FindsZones zones upstreams.now) }
{
    let mut zones = BTreeMap::new(alloc);
    let mut at = upstreams.len();
    'upstreams: while at > 0 {
        at -= 1;
        let upstream = &upstreams[at];
        let name = upstream.name.bytes().to_ascii_lowercase(alloc)?;
        zones.insert(name, upstream.zone)?;
    }
    Ok(zones)
}

impl<'a> NamedUpstreams<'a> {
    /// These upstreams.
    pub(crate) fn of(
        alloc: Global,
        upstreams: &'a [Upstream],
    ) -> Result<NamedUpstreams<'a>, NoMemory>
        ensures { IfOk result (λ named. named ≡ upstreams.now) }
    {
        Ok(NamedUpstreams {
            upstreams,
            zones: zones_by_name(alloc, upstreams)?,
        })
    }

    /// The zone of the upstream of a name, if there is one and it has a zone.
    pub(crate) fn zone_of(&self, alloc: Global, name: &[u8]) -> Result<Option<u32>, NoMemory>
        ensures { IfOk result (λ zone. zone ≡ peers_named self.now name.now) }
    {
        let name = name.to_ascii_lowercase(alloc)?;
        match self.zones.get(&name) {
            Some(zone) => Ok(*zone),
            None => Ok(None),
        }
    }
}
