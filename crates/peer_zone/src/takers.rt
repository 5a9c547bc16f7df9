ghost use Rattle.std.specs.Prelude.{◌≡◌, ◌<◌};
ghost use Rattle.std.specs.Option.{ForSome};
ghost use Rattle.peer_zone.specs.Numbers.{as_record, part_of, IsLight};

use crate::numbers::PeerNumbers;

/// The least busy server of a list.
#[derive(Clone, Copy, Debug)]
pub(crate) struct Least {
    /// Its index in the list.
    pub(crate) index: u32,
    /// Its numbers.
    pub(crate) peer: PeerNumbers,
}

/// The server of a list that is the nearest to its turn.
#[derive(Clone, Copy, Debug)]
pub(crate) struct Nearest {
    /// Its index in the list.
    pub(crate) index: u32,
    /// Its current after the round.
    pub(crate) current: i64,
}

/// Which servers take part in a choice: those that are available to a request, or of them those that are as busy as the
/// least busy one.
#[derive(Clone, Copy, Debug)]
pub(crate) struct Takers {
    /// Whether the upstream has a single server.
    pub(crate) single: bool,
    /// The servers that the request has tried, by their bits.
    pub(crate) tried: u64,
    /// The moment of the choice.
    pub(crate) moment: u64,
    /// The least busy server, where only those count that are as busy, from it on.
    pub(crate) least: Option<Least>,
}

impl Takers {
    /// Whether the server of this index takes part.
    pub(crate) fn include(&self, index: u32, peer: &PeerNumbers) -> bool
        requires index { index < 64 }
        requires light { IsLight peer.now }
        requires least { ForSome self.now.least (λ least. IsLight least.peer) }
        ensures { result ≡ part_of self.now index (as_record peer.now) }
    {
        if !peer.is_available(self.single, self.tried, self.moment, index) {
            return false;
        }
        match &self.least {
            None => true,
            Some(least) => least.index <= index && peer.is_as_busy(&least.peer),
        }
    }
}
