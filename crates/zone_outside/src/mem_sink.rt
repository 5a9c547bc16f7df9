ghost use Rattle.std.specs.Prelude.{◌≡◌, ◌+◌, ◌-◌, ◌^◌, ◌<◌, min, [], length, Some, Contains, IfOk, IsErr, OnOk};
ghost use Rattle.std.specs.Io.{WritesAtMost};
ghost use Rattle.std.specs.Io.KnownBytes.{WriteAppends};
ghost use Rattle.zone_outside.specs.Faults.{HasCause};

use crate::devices::Sink;
use crate::errors::{Failed, count_fault};
use std::alloc::Global;
use std::marker::Model;

/// A sink in memory. A write of it fails where its number, counted from 1, is among `failing`, or
/// where there is no memory for what it takes.
#[derive(Drop)]
pub struct MemSink<'a> {
    taken: Vec<u8>,
    most: usize,
    failing: &'a [u64],
    writes: u64,
    faults: u64,
}

impl<'a> Model for MemSink<'a> {
    ghost use Rattle.std.specs.Prelude.{◌<◌};
    ghost use Rattle.zone_outside.specs.MemSinks.{SinkState};

    ghost Value = { SinkState };

    ghost view = { λ s. record {
      taken = s.taken.items;
      most = s.most;
      failing = s.failing.now;
      writes = s.writes;
      faults = s.faults;
    } };

    ghost invariant = { λ s. 0 < s.most };
}

impl<'a> MemSink<'a> {
    /// An empty sink, of which a write takes at most so many bytes.
    pub fn of(alloc: Global, most: usize, failing: &'a [u64]) -> MemSink<'a>
        requires { 0 < most }
        ensures { result ≡ record { taken = []; most = most; failing = failing.now; writes = 0; faults = 0 } }
    {
        MemSink {
            taken: Vec::new(alloc),
            most,
            failing,
            writes: 0,
            faults: 0,
        }
    }

    /// The bytes that were taken.
    pub fn bytes(&self) -> &[u8]
        ensures { result.now ≡ self.now.taken }
    {
        &self.taken
    }
}

impl<'a> Sink for MemSink<'a> {
    ghost taken = { λ s. Some s.taken };

    ghost faults = { λ s. s.faults };

    fn write(&mut self, piece: &[u8]) -> Result<usize, Failed>
        ensures bound { WritesAtMost result piece.now }
        ensures some { IfOk result (λ n. 0 < length piece.now → 0 < n) }
        ensures bytes { WriteAppends (Some self.old.taken) (Some self.new.taken) result piece.now }
        ensures cause { HasCause self.old.faults self.new.faults result }
        ensures calm { OnOk result (self.new.faults ≡ self.old.faults) }
        ensures failing { Contains self.old.failing self.new.writes → IsErr result }
        ensures most { IfOk result (λ n. n ≡ min (length piece.now) self.old.most) }
        ensures writes { self.new.writes ≡ min (self.old.writes + 1) (2 ^ 64 - 1) }
        ensures same { self.new ≡ record self.old { taken = self.new.taken; writes = self.new.writes; faults = self.new.faults } }
    {
        self.writes = self.writes.saturating_add(1);
        let count = piece.len().min(self.most);
        let fails = self.failing.contains(&self.writes);
        if fails || self.taken.extend_from_slice(&piece[..count]).is_err() {
            count_fault(&mut self.faults);
            return Err(Failed);
        }
        Ok(count)
    }
}
