use crate::active::{Opened, Taken};
use crate::decision::ConnStatus;
use crate::said::{Delay, Hold, ReqSaid};
use sqlite_items::Items;
use zone_config::{ConnLimit, ReqLimit};
use zone_key::Vars;

/// An open of a request.
#[derive(Debug, Drop)]
pub(crate) struct Opening {
    /// The number of its location, or none at the server itself.
    pub(crate) location: Option<u32>,
    /// Its moment in ms.
    pub(crate) moment: u64,
    /// What it gives to the variables of key expressions.
    pub(crate) vars: Vars,
}

/// What a server is chosen for.
#[derive(Clone, Copy, Debug)]
pub(crate) enum Purpose {
    /// For an open, of which the limits of connections said this.
    Begin { conns: ConnStatus },
    /// For a request whose server failed.
    Next,
}

/// A choice of a server.
#[derive(Clone, Copy, Debug)]
pub(crate) struct Choice {
    /// The number of the upstream's zone.
    pub(crate) zone: u32,
    /// The tries that the request then has.
    pub(crate) tries: u64,
    /// The moment of the line in ms.
    pub(crate) moment: u64,
    /// The list that is asked.
    pub(crate) list: u32,
    /// The servers of the list that were tried.
    pub(crate) tried: u64,
    /// What it is for.
    pub(crate) purpose: Purpose,
}

/// What follows when connections are closed.
#[derive(Clone, Copy, Debug)]
pub(crate) enum Behind {
    /// The limit of this zone has refused an open, or would refuse it in a dry run.
    Refused { zone: u32 },
    /// No server was found, and the connection has no active request.
    NoServer { purpose: Purpose },
    /// The request has failed, and the connection has no active request.
    Failed,
    /// The request has ended, and the connection has no active request.
    Ended,
}

/// Which call of a line was asked last.
#[derive(Debug, Drop)]
pub(crate) enum Asked {
    /// A check of a limit of requests; `behind` is the place of the limit behind it.
    Check { limit: ReqLimit, behind: usize },
    /// A hold is let go, and then those that are left, the last one first.
    Release,
    /// A hold is accounted, and then those that are left, the last one first.
    Account { hold: Hold, greatest: Delay },
    /// An open of a connection by a limit; `behind` is the place of the limit behind it.
    Open { limit: ConnLimit, behind: usize },
    /// A connection is closed, and then those that are left, the last one first.
    Close { behind: Behind },
    /// A server is chosen.
    Choose { choice: Choice },
    /// A server is given back as failed at this moment in ms.
    Fail { taken: Taken, now: u64 },
    /// A server is given back as good, at the end of its request.
    Done,
}

/// What a connection has when its line is decided.
#[derive(Clone, Copy, Debug)]
pub(crate) enum Left {
    /// No active request.
    Nothing,
    /// An active request that has the connections of the line, and this server.
    Request { peer: Option<Taken> },
}

/// How far a line is: which call it asked last, and what is known for what follows.
///
/// It is a large value: it stays in its place from line to line, and a step changes what it alters.
#[derive(Debug, Drop)]
pub(crate) struct Progress {
    /// The open that is under way, or that was the last one.
    pub(crate) opening: Opening,
    /// What the limits of requests said of it.
    pub(crate) said: ReqSaid,
    /// The holds of its request.
    pub(crate) holds: Items<Hold>,
    /// The connections that are counted for the request of the line.
    pub(crate) opened: Items<Opened>,
    /// The call.
    pub(crate) asked: Asked,
    /// What is left behind the decision, where the line is decided.
    pub(crate) left: Left,
}
