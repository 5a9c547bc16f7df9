use slab_model::PlainSlab;
use std::collections::LinkedList;
use zone_key::Key;
use zone_outside::Text;

/// An entry of the table of a request zone, as contracts see it.
pub struct ReqEntry {
    /// The key.
    pub key: Key,
    /// The offset of the block of its node.
    pub block: u64,
    /// The excess in thousandths of a request.
    pub excess: u64,
    /// The moment in ms that the entry keeps.
    pub last: u64,
    /// How many requests hold the entry.
    pub count: u64,
}

/// The state of a request zone, which its calls see and change. No value of it is made: contracts alone speak of it.
pub struct ReqState {
    /// The rate in thousandths of a request per second.
    pub rate: u64,
    /// The zone's name.
    pub name: Text,
    /// The entries, newest first.
    pub table: LinkedList<ReqEntry>,
    /// The pool that the blocks come from.
    pub slab: PlainSlab,
    /// The offset of the block of the zone's context, which is granted first.
    pub context: u64,
    /// The offset of the block of the zone's name, which is granted next.
    pub name_block: u64,
}
