ghost use Rattle.std.specs.Prelude.{◌≡◌};
ghost use Rattle.conn_zone.specs.declared.errors.OpenFault.TheVariants.{NoMemory};

use std::alloc::AllocError;
use thiserror::Error;

/// Why a zone can't be opened.
#[derive(Debug, Drop, Error)]
pub enum OpenFault {
    /// The zone has fewer bytes than 8 pages.
    #[error("the zone is smaller than 8 pages")]
    TooSmall,
    /// There was no memory for the zone.
    #[error("no memory for the zone")]
    NoMemory,
}

impl From<AllocError> for OpenFault {
    ghost from_gives = { λ _ e. e ≡ NoMemory };

    fn from(_error: AllocError) -> OpenFault {
        OpenFault::NoMemory
    }
}

impl From<zone_outside::NoMemory> for OpenFault {
    ghost from_gives = { λ _ e. e ≡ NoMemory };

    fn from(_error: zone_outside::NoMemory) -> OpenFault {
        OpenFault::NoMemory
    }
}
