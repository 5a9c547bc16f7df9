use zone_key::Vars;

/// What happens to a connection.
#[derive(Debug, Drop)]
pub enum Event {
    /// A request begins.
    Start {
        /// The number of its location, or none at the server itself.
        level: Option<u32>,
        /// What it gives to the variables of key expressions.
        vars: Vars,
    },
    /// The server that takes the request has failed.
    Fail,
    /// The request ends.
    Done,
}

/// A line of a log of requests.
#[derive(Debug, Drop)]
pub struct Line {
    /// Its number, from 1.
    pub number: u32,
    /// When it happens, in ms, below 2^42.
    pub moment: u64,
    /// The connection that it happens to.
    pub conn: u32,
    /// What happens.
    pub event: Event,
}
