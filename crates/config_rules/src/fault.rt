ghost use Rattle.std.specs.Prelude.{◌≡◌};
ghost use Rattle.config_rules.specs.declared.fault.ConfigFault.TheVariants.{NoMemory};

use std::alloc::{AllocError, AllocFailed};
use thiserror::Error;

/// Why directives give no configuration.
#[derive(Clone, Copy, Debug, PartialEq, Eq, Error)]
pub enum ConfigFault {
    /// A directive breaks a rule: its line, counted from 1, and the rule's number.
    ///
    /// | Rule | Fault |
    /// |---|---|
    /// | 1 | no `server` block in an `http` block; its line is 1, and it counts as later than every directive |
    /// | 2 | a second `server` block in `http` |
    /// | 3 | a directive in a block that doesn't have it |
    /// | 4 | a wrong number of arguments, or a block missing or not wanted |
    /// | 5 | an argument that the directive doesn't have |
    /// | 6 | a size that isn't digits with at most one of `k`, `K`, `m`, `M` |
    /// | 7 | a size below 32,768 bytes |
    /// | 8 | a size above 67,108,864 bytes, or sizes above 268,435,456 bytes together |
    /// | 9 | a rate that isn't `Nr/s` or `Nr/m` with N from 1 to 1,000,000 |
    /// | 10 | another number, switch, name or address out of its range or form |
    /// | 11 | `limit_req` or `limit_conn` names no zone of its kind in the text |
    /// | 12 | a zone's name that an earlier zone has |
    /// | 13 | a directive, a zone of a limit or a parameter twice |
    /// | 14 | the 17th zone, 65th server of a list, 65th location, 9th limit of a kind in a block |
    /// | 15 | a location's or an upstream's name that an earlier one has |
    /// | 16 | a key expression that is none |
    /// | 17 | an upstream without a primary server |
    /// | 18 | `ip_hash`, `hash`, `random` or `sticky` |
    #[error("line {line}: rule {rule}")]
    At { line: u64, rule: u32 },
    /// There was no memory for the configuration.
    #[error("no memory for the configuration")]
    NoMemory,
}

impl From<zone_outside::NoMemory> for ConfigFault {
    ghost from_gives = { λ _ fault. fault ≡ NoMemory };

    fn from(_error: zone_outside::NoMemory) -> ConfigFault {
        ConfigFault::NoMemory
    }
}

impl From<AllocError> for ConfigFault {
    ghost from_gives = { λ _ fault. fault ≡ NoMemory };

    fn from(_error: AllocError) -> ConfigFault {
        ConfigFault::NoMemory
    }
}
