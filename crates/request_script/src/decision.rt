/// How a request goes on from its open.
#[derive(Clone, Copy, Debug)]
pub enum Outcome {
    /// It goes on.
    Pass,
    /// A limit refuses it, with this status.
    Limited {
        /// The status of the answer, from 400 to 599.
        status: u32,
    },
    /// No server can take it: 502.
    Gateway,
}

/// What the limits of requests say of a request (`$limit_req_status` of `ngx_http_limit_req_module`).
#[derive(Clone, Copy, Debug)]
pub enum ReqStatus {
    /// None was asked.
    Unset,
    /// It goes on at once.
    Passed,
    /// It is delayed.
    Delayed,
    /// It is refused.
    Rejected,
    /// It would be delayed, in a dry run.
    DelayedDry,
    /// It would be refused, in a dry run.
    RejectedDry,
}

/// What the limits of connections say of a request (`$limit_conn_status` of `ngx_http_limit_conn_module`).
#[derive(Clone, Copy, Debug)]
pub enum ConnStatus {
    /// None was asked.
    Unset,
    /// It goes on.
    Passed,
    /// The limit of this zone refuses it.
    Rejected {
        /// The number of the limit's zone.
        zone: u32,
    },
    /// The limit of this zone would refuse it, in a dry run.
    RejectedDry {
        /// The number of the limit's zone.
        zone: u32,
    },
}

/// For which excess a request is delayed or refused.
#[derive(Clone, Copy, Debug)]
pub enum Excess {
    /// It is neither.
    Unset,
    /// This excess, in thousandths of a request.
    Amount {
        /// The excess.
        value: u64,
    },
    /// The zone had no block for a new key.
    Full,
}

/// A server of an upstream.
#[derive(Clone, Copy, Debug)]
pub struct PeerAt {
    /// The number of the upstream's zone.
    pub zone: u32,
    /// The list, 0 or 1 for the backup servers.
    pub list: u32,
    /// The server's index in the list.
    pub index: u32,
}

/// What is decided of a line.
#[derive(Clone, Copy, Debug)]
pub enum Decision {
    /// A request was opened.
    Started {
        /// How it goes on.
        outcome: Outcome,
        /// What the limits of requests say.
        req: ReqStatus,
        /// The delay in ms, 0 where there is none; also the one of a dry run.
        delay: u64,
        /// The zone of the limit of requests that delays or refuses it.
        by: Option<u32>,
        /// For which excess.
        excess: Excess,
        /// What the limits of connections say.
        conn: ConnStatus,
        /// The server that takes it.
        peer: Option<PeerAt>,
    },
    /// The connection has an active request already.
    Busy,
    /// Another server takes the request.
    NextPeer {
        /// The server.
        peer: PeerAt,
    },
    /// No other server can take it: 502.
    FailGateway,
    /// The request has ended.
    Ended,
    /// A server's failure on a connection without an active request.
    IdleFail,
    /// An end on a connection without an active request.
    IdleDone,
}

/// A line's number and what is decided of it.
#[derive(Clone, Copy, Debug)]
pub struct Notice {
    /// The line's number, from 1.
    pub line: u32,
    /// What is decided.
    pub decision: Decision,
}
