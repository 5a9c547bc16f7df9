ghost use Rattle.std.specs.Prelude.{◌≡◌, ◌<◌, ◌≤◌, [], length, take, IfOk, OnOk, OnErr};
ghost use Rattle.std.specs.Io.{WritesAtMost};
ghost use Rattle.std.specs.Io.KnownBytes.{Appends, Keeps, WriteAppends};
ghost use Rattle.zone_outside.specs.Buffers.{taken_by};
ghost use Rattle.zone_outside.specs.Faults.{HasCause, Rose};

use crate::devices::Sink;
use crate::errors::{Failed, NoMemory};
use crate::transfer::WriteFault;
use std::alloc::Global;
use std::marker::Model;

/// How many bytes a buffered sink keeps at most.
const BUFFER: usize = 65536;

/// A sink that keeps what it takes, up to 65,536 bytes, and hands it on to another sink in large pieces.
/// Only `of` takes memory. Whoever makes one flushes it at the end.
#[derive(Drop)]
pub struct BufferedSink<K: Sink + Drop> {
    to: K,
    buffer: Vec<u8>,
    start: usize,
    end: usize,
}

impl<K: Sink + Drop> Model for BufferedSink<K> {
    ghost use Rattle.std.specs.Prelude.{◌-◌, ◌<◌, ◌≤◌, slice_range, vec_len};
    ghost use Rattle.zone_outside.specs.Buffers.{Buffer};

    ghost Value = { Buffer };

    ghost view = { λ s. record {
      handed = K.taken s.to;
      kept = slice_range s.buffer.items s.start s.end;
      room = vec_len s.buffer - s.end;
      faults = K.faults s.to;
    } };

    ghost invariant = { λ s. (s.start ≤ s.end) × (s.end ≤ vec_len s.buffer) × (0 < vec_len s.buffer) };
}

impl<K: Sink + Drop> BufferedSink<K> {
    /// A sink that hands on to this one, and keeps nothing yet.
    pub fn of(alloc: Global, to: K) -> Result<BufferedSink<K>, NoMemory>
        ensures { IfOk result (λ sink. sink ≡ record { handed = K.taken to; kept = []; room = 65536; faults = K.faults to }) }
    {
        Ok(BufferedSink {
            to,
            buffer: vec![in alloc; 0u8; BUFFER]?,
            start: 0,
            end: 0,
        })
    }

    /// The sink that it hands on to.
    pub fn behind(&self) -> &K
        ensures handed { K.taken result.now ≡ self.now.handed }
        ensures faults { K.faults result.now ≡ self.now.faults }
    {
        &self.to
    }

    /// Hands on all that is kept. `WriteFault`: a write failed, and what it didn't take is kept.
    pub fn flush(&mut self) -> Result<(), WriteFault>
        ensures same { Keeps (taken_by self.old) (taken_by self.new) }
        ensures all { OnOk result ((self.new.kept ≡ []) × (0 < self.new.room)) }
        ensures some { OnErr result (0 < length self.new.kept) }
        ensures cause { HasCause self.old.faults self.new.faults result }
        ensures calm { OnOk result (self.new.faults ≡ self.old.faults) }
    {
        self.start += hand_on(&mut self.to, &self.buffer[self.start..self.end]);
        if self.start < self.end {
            return Err(WriteFault);
        }
        self.start = 0;
        self.end = 0;
        Ok(())
    }

    /// Hands on what is kept where there is no room for more.
    fn make_room(&mut self) -> Result<(), Failed>
        ensures same { Keeps (taken_by self.old) (taken_by self.new) }
        ensures room { OnOk result (0 < self.new.room) }
        ensures cause { HasCause self.old.faults self.new.faults result }
        ensures calm { OnOk result (self.new.faults ≡ self.old.faults) }
    {
        if self.end < self.buffer.len() {
            return Ok(());
        }
        match self.flush() {
            Ok(()) => Ok(()),
            Err(WriteFault) => Err(Failed),
        }
    }
}

/// Writes a piece until a write fails, and answers how many bytes were taken.
fn hand_on<K: Sink>(to: &mut K, piece: &[u8]) -> usize
    ensures most { result ≤ length piece.now }
    ensures taken { Appends (K.taken to.old) (K.taken to.new) (take result piece.now) }
    ensures later { K.faults to.old ≤ K.faults to.new }
    ensures failed { result < length piece.now → Rose (K.faults to.old) (K.faults to.new) }
    ensures calm { result ≡ length piece.now → K.faults to.new ≡ K.faults to.old }
{
    let mut done = 0;
    while done < piece.len() {
        match to.write(&piece[done..]) {
            Ok(count) => done += count,
            Err(Failed) => return done,
        }
    }
    done
}

impl<K: Sink + Drop> Sink for BufferedSink<K> {
    ghost taken = { taken_by };

    ghost faults = { λ s. s.faults };

    fn write(&mut self, piece: &[u8]) -> Result<usize, Failed> {
        match self.make_room() {
            Ok(()) => {}
            Err(Failed) => return Err(Failed),
        }
        let count = piece.len().min(self.buffer.len() - self.end);
        self.buffer[self.end..self.end + count].copy_from_slice(&piece[..count]);
        self.end += count;
        Ok(count)
    }
}
