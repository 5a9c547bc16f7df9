ghost use Rattle.std.specs.Prelude.{◌≡◌, ◌<◌, ◌≤◌, ◌^◌, ◌≤ℤ◌, pos, neg_ℤ};
ghost use Rattle.peer_zone.specs.Records.{is_available, is_full, is_failing, is_tried as is_tried_in};
ghost use Rattle.peer_zone.specs.Choice.{raised, taken, taken_alone, freed, blamed, trusted, let_go, failure_cost, is_less_busy, is_as_busy};
ghost use Rattle.peer_zone.specs.Numbers.{numbers_of, as_record};

/// The numbers of a server's record, as its words have them. A moment is in seconds.
#[derive(Clone, Copy, Debug)]
pub(crate) struct PeerNumbers {
    /// The weight.
    pub(crate) weight: u64,
    /// The effective weight.
    pub(crate) effective: u64,
    /// How near the server is to its turn.
    pub(crate) current: i64,
    /// The requests that it has now.
    pub(crate) conns: u64,
    /// The most requests at once, or 0 for any number.
    pub(crate) max_conns: u64,
    /// The failures that count against it.
    pub(crate) fails: u64,
    /// The failures after which it is left alone, or 0 for never.
    pub(crate) max_fails: u64,
    /// For how many seconds it is left alone.
    pub(crate) fail_timeout: u64,
    /// The moment of its last failure, or of a choice after its timeout.
    pub(crate) checked: u64,
    /// The moment of its last failure.
    pub(crate) accessed: u64,
    /// Whether it is never chosen.
    pub(crate) down: bool,
}

/// Whether a request has tried the server of this index.
fn is_tried(tried: u64, index: u32) -> bool
    requires { index < 64 }
    ensures { result ≡ is_tried_in tried index }
{
    (tried >> index) % 2 == 1
}

impl PeerNumbers {
    /// Whether the server has as many connections as it may.
    fn is_full(&self) -> bool
        ensures { result ≡ is_full (as_record self.now) }
    {
        self.max_conns > 0 && self.conns >= self.max_conns
    }

    /// Whether the server has failed as often as it may, and its timeout is not over.
    fn is_failing(&self, now: u64) -> bool
        ensures { result ≡ is_failing now (as_record self.now) }
    {
        self.max_fails > 0
            && self.fails >= self.max_fails
            && now.saturating_sub(self.checked) <= self.fail_timeout
    }

    /// Whether the server can take a request that has tried these servers.
    pub(crate) fn is_available(&self, single: bool, tried: u64, now: u64, index: u32) -> bool
        requires { index < 64 }
        ensures { result ≡ is_available single tried now index (as_record self.now) }
    {
        if self.down || self.is_full() {
            return false;
        }
        single || (!is_tried(tried, index) && !self.is_failing(now))
    }

    /// Whether the server has fewer connections to its weight than another.
    pub(crate) fn is_less_busy(&self, other: &PeerNumbers) -> bool
        requires conns { self.now.conns < 2 ^ 32 }
        requires weight { self.now.weight < 2 ^ 16 }
        requires other_conns { other.now.conns < 2 ^ 32 }
        requires other_weight { other.now.weight < 2 ^ 16 }
        ensures { result ≡ is_less_busy (as_record self.now) (as_record other.now) }
    {
        self.conns * other.weight < other.conns * self.weight
    }

    /// Whether the server has as many connections to its weight as another.
    pub(crate) fn is_as_busy(&self, other: &PeerNumbers) -> bool
        requires conns { self.now.conns < 2 ^ 32 }
        requires weight { self.now.weight < 2 ^ 16 }
        requires other_conns { other.now.conns < 2 ^ 32 }
        requires other_weight { other.now.weight < 2 ^ 16 }
        ensures { result ≡ is_as_busy (as_record self.now) (as_record other.now) }
    {
        self.conns * other.weight == other.conns * self.weight
    }

    /// The numbers after a round: nearer to its turn by the effective weight, which then grows by 1 where it is below
    /// the weight.
    pub(crate) fn raised(self) -> PeerNumbers
        requires high { self.current ≤ℤ pos (2 ^ 55) }
        requires effective { self.effective ≤ self.weight }
        requires weight { self.weight < 2 ^ 16 }
        ensures { result ≡ numbers_of (raised (as_record self)) }
    {
        let current = self.current + self.effective as i64;
        if self.effective < self.weight {
            PeerNumbers {
                current,
                effective: self.effective + 1,
                ..self
            }
        } else {
            PeerNumbers { current, ..self }
        }
    }

    /// The numbers once the server is chosen: it falls back by the round's total, and its timeout begins again where it
    /// was over.
    pub(crate) fn taken(self, total: u64, now: u64) -> PeerNumbers
        requires low { neg_ℤ (pos (2 ^ 56)) ≤ℤ self.current }
        requires total { total ≤ 2 ^ 22 }
        requires conns { self.conns < 2 ^ 32 }
        ensures { result ≡ numbers_of (taken total now (as_record self)) }
    {
        let checked = if now.saturating_sub(self.checked) > self.fail_timeout {
            now
        } else {
            self.checked
        };
        PeerNumbers {
            current: self.current - total as i64,
            checked,
            conns: self.conns + 1,
            ..self
        }
    }

    /// The numbers once an upstream's single server is chosen.
    pub(crate) fn taken_alone(self) -> PeerNumbers
        requires { self.conns < 2 ^ 32 }
        ensures { result ≡ numbers_of (taken_alone (as_record self)) }
    {
        PeerNumbers {
            conns: self.conns + 1,
            ..self
        }
    }

    /// What a failure takes from the effective weight.
    fn failure_cost(&self) -> u64
        ensures { result ≡ failure_cost (as_record self.now) }
    {
        if self.max_fails > 0 {
            self.weight / self.max_fails
        } else {
            0
        }
    }

    /// The numbers once the server failed.
    fn blamed(self, now: u64) -> PeerNumbers
        requires { self.fails < 2 ^ 32 }
        ensures { result ≡ numbers_of (blamed now (as_record self)) }
    {
        PeerNumbers {
            fails: self.fails + 1,
            accessed: now,
            checked: now,
            effective: self.effective.saturating_sub(self.failure_cost()),
            ..self
        }
    }

    /// The numbers once the server did well: where it was chosen again after its timeout, its failures are forgotten.
    fn trusted(self) -> PeerNumbers
        ensures { result ≡ numbers_of (trusted (as_record self)) }
    {
        if self.accessed < self.checked {
            PeerNumbers { fails: 0, ..self }
        } else {
            self
        }
    }

    /// The numbers with one connection less.
    fn let_go(self) -> PeerNumbers
        requires { 0 < self.conns }
        ensures { result ≡ numbers_of (let_go (as_record self)) }
    {
        PeerNumbers {
            conns: self.conns - 1,
            ..self
        }
    }

    /// The numbers once a request is done with the server, a single one or one of more.
    pub(crate) fn freed(self, single: bool, failed: bool, now: u64) -> PeerNumbers
        requires conns { 0 < self.conns }
        requires fails { self.fails < 2 ^ 32 }
        ensures { result ≡ numbers_of (freed single failed now (as_record self)) }
    {
        if single {
            self.let_go()
        } else if failed {
            self.blamed(now).let_go()
        } else {
            self.trusted().let_go()
        }
    }
}
