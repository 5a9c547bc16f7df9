use slab_model::PlainSlab;
use std::collections::LinkedList;
use zone_key::Key;
use zone_outside::Text;

/// An entry of the table of a connection zone (`ngx_http_limit_conn_node_t`), as contracts see it.
pub struct ConnEntry {
    /// The key.
    pub key: Key,
    /// The offset of the block of its node.
    pub block: u64,
    /// How many connections the key has.
    pub count: u64,
}

/// The state of a connection zone, which its calls see and change. No value of it is made: contracts alone speak of it.
pub struct ConnState {
    /// The zone's name.
    pub name: Text,
    /// The entries, newest first.
    pub table: LinkedList<ConnEntry>,
    /// The pool that the blocks come from.
    pub slab: PlainSlab,
    /// The offset of the block of the zone's context, which is granted first.
    pub context: u64,
    /// The offset of the block of the zone's name, which is granted next.
    pub name_block: u64,
}
