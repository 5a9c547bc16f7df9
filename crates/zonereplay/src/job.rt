ghost use Rattle.std.specs.Prelude.{◌≤◌, ◌<◌};
ghost use Rattle.req_zone.specs.Amount.{IsRate, greatest_burst};

/// The numbers of `one`.
#[derive(Clone, Copy, Debug, PartialEq, Eq)]
pub(crate) struct Job {
    /// Thousandths of a request per second, from 16 to 1,000,000,000.
    pub(crate) rate: u64,
    /// Thousandths of a request, at most 1,000,000,000.
    pub(crate) burst: u64,
    /// The bytes of the zone, from 32,768 to 67,108,864.
    pub(crate) bytes: u64,
    ghost rate_in_limits: { IsRate rate },
    ghost burst_in_limits: { burst ≤ greatest_burst },
    ghost bytes_at_least: { 32768 ≤ bytes },
    ghost bytes_at_most: { bytes ≤ 67108864 },
}

/// How `replay` goes on.
#[derive(Clone, Copy, Debug, PartialEq, Eq)]
pub(crate) struct ReplayJob {
    /// The workers, from 1 to 16.
    pub(crate) workers: u32,
    /// Whether the words of each zone are told.
    pub(crate) words: bool,
    ghost some: { 0 < workers },
    ghost few: { workers ≤ 16 },
}
