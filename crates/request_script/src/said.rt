use crate::decision::{Excess, ReqStatus};
use req_zone::Allowed;

/// A hold on an entry of a request zone, which an earlier limit of a request has.
#[derive(Clone, Copy, Debug)]
pub struct Hold {
    /// The number of the zone.
    pub zone: u32,
    /// The offset of the entry's block.
    pub at: u64,
    /// The excess that the limit lets go on without a delay.
    pub allowed: Allowed,
}

/// A delay of a request, by the limit of a zone.
#[derive(Clone, Copy, Debug)]
pub struct Delay {
    /// How long it is, in ms.
    pub ms: u64,
    /// The number of the zone.
    pub zone: u32,
    /// The excess that it is for, in thousandths of a request.
    pub excess: u64,
}

/// What the limits of requests say of a request.
#[derive(Clone, Copy, Debug)]
pub struct ReqSaid {
    /// The status.
    pub status: ReqStatus,
    /// The delay in ms.
    pub delay: u64,
    /// The zone that delays or refuses it.
    pub by: Option<u32>,
    /// For which excess.
    pub excess: Excess,
}
