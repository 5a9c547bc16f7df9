use crate::plain_slab;
use conn_zone::ConnReply::{AtLimit, Closed, NoRoom, Opened};
use conn_zone::{ConnCall, ConnReply};
use slab_model::PlainSlab;
use std::alloc::Global;
use std::process::Abort;
use std::test::Fail;

/// An entry of the plain table.
#[derive(Drop)]
pub(crate) struct PlainEntry {
    pub(crate) key: Vec<u8>,
    pub(crate) block: u64,
    pub(crate) count: u64,
}

/// A connection zone as a list of entries over the plain slab.
#[derive(Drop)]
pub(crate) struct PlainConn {
    pub(crate) slab: PlainSlab,
    pub(crate) entries: Vec<PlainEntry>,
}

impl PlainConn {
    /// An empty zone of so many bytes, with a name of one byte.
    pub(crate) fn open<R: Abort>(rt: &R, alloc: Global, bytes: u64) -> Result<PlainConn, Fail> {
        Ok(PlainConn {
            slab: plain_slab::opened(rt, alloc, bytes, &[64, 24])?,
            entries: Vec::new(alloc),
        })
    }

    /// Makes a call, and says what it is answered.
    pub(crate) fn step<R: Abort>(
        &mut self,
        rt: &R,
        alloc: Global,
        call: &ConnCall,
    ) -> Result<ConnReply, Fail> {
        match call {
            ConnCall::Open { key, limit } => {
                match self
                    .entries
                    .iter()
                    .position(|entry| entry.key.as_slice() == key.bytes())
                {
                    Some(place) => Ok(self.open_found(rt, place, *limit)),
                    None => self.open_missing(rt, alloc, key.bytes()),
                }
            }
            ConnCall::Close { at } => self.close(rt, alloc, *at),
        }
    }

    fn open_found<R: Abort>(&mut self, rt: &R, place: usize, limit: u64) -> ConnReply {
        assert!(*rt; place < self.entries.len());
        let entry = &mut self.entries[place];
        if entry.count >= limit {
            return AtLimit { count: entry.count };
        }
        entry.count = entry.count.saturating_add(1);
        Opened {
            at: entry.block,
            count: entry.count,
        }
    }

    fn open_missing<R: Abort>(
        &mut self,
        rt: &R,
        alloc: Global,
        key: &[u8],
    ) -> Result<ConnReply, Fail> {
        let size = (key.len() as u64).saturating_add(36);
        let Some(at) = plain_slab::grant(rt, alloc, &mut self.slab, size)? else {
            return Ok(NoRoom);
        };
        let mut own = Vec::new(alloc);
        own.extend_from_slice(key)?;
        self.entries.push(PlainEntry {
            key: own,
            block: at,
            count: 1,
        })?;
        Ok(Opened { at, count: 1 })
    }

    fn close<R: Abort>(&mut self, rt: &R, alloc: Global, at: u64) -> Result<ConnReply, Fail> {
        let place = self
            .entries
            .iter()
            .position(|entry| entry.block == at)
            .unwrap_or(usize::MAX);
        assert!(*rt; place < self.entries.len());
        let entry = &mut self.entries[place];
        entry.count = entry.count.saturating_sub(1);
        let count = entry.count;
        if count == 0 {
            self.entries.swap_remove(place);
            plain_slab::give_back(rt, alloc, &mut self.slab, at)?;
        }
        Ok(Closed { count })
    }
}
