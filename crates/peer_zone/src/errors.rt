use thiserror::Error;
use zone_outside::NoMemory;

/// Why an upstream's zone can't be opened.
#[derive(Debug, Drop, Error)]
pub enum OpenFault {
    /// The zone has fewer bytes than 8 pages.
    #[error("the zone is smaller than 8 pages")]
    TooSmall,
    /// The zone has no block for the record of this server, and it is the first such one.
    #[error("the zone has no block for server {server}")]
    Small {
        /// The server's number, from 0 on, primary servers first.
        server: u32,
    },
    /// There was no memory for the zone.
    #[error("no memory for the zone")]
    NoMemory,
}

impl From<NoMemory> for OpenFault {
    ghost use Rattle.std.specs.Prelude.{◌≡◌};
    ghost use Rattle.peer_zone.specs.declared.errors.OpenFault.TheVariants.{NoMemory};

    ghost from_gives = { λ _ fault. fault ≡ NoMemory };

    fn from(_error: NoMemory) -> OpenFault {
        OpenFault::NoMemory
    }
}
