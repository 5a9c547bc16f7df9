use sqlite_items::Items;

/// A connection that a connection zone counts for a request.
#[derive(Clone, Copy, Debug)]
pub struct Opened {
    /// The number of the zone.
    pub zone: u32,
    /// The offset of the entry's block, by which its close names it.
    pub at: u64,
}

/// The server that a request has.
#[derive(Clone, Copy, Debug)]
pub struct Taken {
    /// The number of the upstream's zone.
    pub zone: u32,
    /// The list that the request is in, 0 or 1 for the backup servers.
    pub list: u32,
    /// The server's index in the list.
    pub index: u32,
    /// The servers of the list that the request has tried, this one included: bit i stands for server i.
    pub tried: u64,
    /// How many tries are left, this one included.
    pub tries: u64,
}

/// An active request of a connection.
#[derive(Debug, Drop)]
pub struct Active {
    /// What connection zones count for it, in the order of their opens.
    pub opened: Items<Opened>,
    /// The server that it has.
    pub peer: Option<Taken>,
}
