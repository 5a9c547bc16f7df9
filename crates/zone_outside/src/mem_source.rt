ghost use Rattle.std.specs.Prelude.{◌≡◌, ◌↔◌, ◌+◌, ◌-◌, ◌^◌, ◌<◌, ◌≤◌, min, [], ◌++◌, length, take, Some, Contains, IfOk, IsErr, OnOk};
ghost use Rattle.std.specs.Io.{ReadsAtMost};
ghost use Rattle.std.specs.Io.KnownBytes.{ReadConsumes};
ghost use Rattle.zone_outside.specs.Faults.{HasCause};
ghost use Rattle.zone_outside.specs.MemSources.{repeated, source_of};

use crate::devices::Source;
use crate::errors::{Failed, count_fault};
use crate::text::Text;
use std::marker::Model;

/// A text in memory that a source gives: a front, and then copies of a piece.
#[derive(Drop)]
pub struct MemText<'a> {
    front: &'a [u8],
    piece: &'a [u8],
    copies: u64,
    most: usize,
    failing: &'a [u64],
}

impl<'a> Model for MemText<'a> {
    ghost use Rattle.std.specs.Prelude.{◌++◌, ◌<◌};
    ghost use Rattle.zone_outside.specs.MemSources.{SourceText, repeated};

    ghost Value = { SourceText };

    ghost view = { λ t. record {
      bytes = t.front.now ++ repeated t.copies t.piece.now;
      most = t.most;
      failing = t.failing.now;
    } };

    ghost invariant = { λ t. 0 < t.most };
}

impl<'a> MemText<'a> {
    /// These bytes, which no read fails to give.
    pub fn of(bytes: &'a [u8]) -> MemText<'a>
        ensures bytes { result.bytes ≡ bytes.now }
        ensures most { result.most ≡ 2 ^ 64 - 1 }
        ensures failing { result.failing ≡ [] }
    {
        MemText {
            front: bytes,
            piece: &[],
            copies: 0,
            most: usize::MAX,
            failing: &[],
        }
    }

    /// These bytes, and then so many copies of a piece.
    pub fn repeating(front: &'a [u8], piece: &'a [u8], copies: u64) -> MemText<'a>
        ensures bytes { result.bytes ≡ front.now ++ repeated copies piece.now }
        ensures most { result.most ≡ 2 ^ 64 - 1 }
        ensures failing { result.failing ≡ [] }
    {
        MemText {
            front,
            piece,
            copies,
            most: usize::MAX,
            failing: &[],
        }
    }

    /// The same text, of which a read gives at most so many bytes.
    pub fn with_most(self, most: usize) -> MemText<'a>
        requires { 0 < most }
        ensures { result ≡ record self.entry { most = most } }
    {
        MemText {
            front: self.front,
            piece: self.piece,
            copies: self.copies,
            most,
            failing: self.failing,
        }
    }

    /// The same text, whose reads of these numbers fail, counted from 1.
    pub fn with_failing(self, failing: &'a [u64]) -> MemText<'a>
        ensures { result ≡ record self.entry { failing = failing.now } }
    {
        MemText {
            front: self.front,
            piece: self.piece,
            copies: self.copies,
            most: self.most,
            failing,
        }
    }
}

/// A source in memory. It takes no memory.
#[derive(Drop)]
pub struct MemSource<'a> {
    name: Text,
    front: &'a [u8],
    piece: &'a [u8],
    copies: u64,
    most: usize,
    failing: &'a [u64],
    reads: u64,
    faults: u64,
}

impl<'a> Model for MemSource<'a> {
    ghost use Rattle.std.specs.Prelude.{◌++◌, ◌<◌};
    ghost use Rattle.zone_outside.specs.MemSources.{SourceState, repeated};

    ghost Value = { SourceState };

    ghost view = { λ s. record {
      name = s.name;
      left = s.front.now ++ repeated s.copies s.piece.now;
      most = s.most;
      failing = s.failing.now;
      reads = s.reads;
      faults = s.faults;
    } };

    ghost invariant = { λ s. 0 < s.most };
}

impl<'a> MemSource<'a> {
    /// A source of this name over this text.
    pub fn of(name: Text, text: &MemText<'a>) -> MemSource<'a>
        ensures { result ≡ source_of name text.now }
    {
        MemSource {
            name,
            front: text.front,
            piece: text.piece,
            copies: text.copies,
            most: text.most,
            failing: text.failing,
            reads: 0,
            faults: 0,
        }
    }

    /// How many reads of it failed.
    pub fn faults(&self) -> u64
        ensures { result ≡ self.now.faults }
    {
        self.faults
    }
}

impl<'a> Source for MemSource<'a> {
    ghost name = { λ s. s.name };

    ghost left = { λ s. Some s.left };

    ghost faults = { λ s. s.faults };

    fn read(&mut self, into: &mut [u8]) -> Result<usize, Failed>
        ensures named { self.new.name ≡ self.old.name }
        ensures bound { ReadsAtMost result into.new }
        ensures bytes { ReadConsumes (Some self.old.left) (Some self.new.left) result into.new }
        ensures cause { HasCause self.old.faults self.new.faults result }
        ensures calm { OnOk result (self.new.faults ≡ self.old.faults) }
        ensures failing { IsErr result ↔ Contains self.old.failing self.new.reads }
        ensures most { IfOk result (λ n. n ≤ self.old.most) }
        ensures reads { self.new.reads ≡ min (self.old.reads + 1) (2 ^ 64 - 1) }
        ensures same { self.new ≡ record self.old { left = self.new.left; reads = self.new.reads; faults = self.new.faults } }
    {
        self.reads = self.reads.saturating_add(1);
        if self.failing.contains(&self.reads) {
            count_fault(&mut self.faults);
            return Err(Failed);
        }
        refill(&mut self.front, self.piece, &mut self.copies);
        Ok(take_front(&mut self.front, self.most, into))
    }
}

// Where nothing of the front is left, the next copy becomes the front.
fn refill<'a>(front: &mut &'a [u8], piece: &'a [u8], copies: &mut u64)
    ensures same { front.new.now ++ repeated copies.new piece.now ≡ front.old.now ++ repeated copies.old piece.now }
    ensures filled { front.new.now ≡ [] → repeated copies.new piece.now ≡ [] }
{
    if !front.is_empty() {
        return;
    }
    if *copies > 0 {
        *front = piece;
        *copies -= 1;
    }
}

// Moves bytes from the front of a text into a buffer, at most so many, and answers how many.
fn take_front(front: &mut &[u8], most: usize, into: &mut [u8]) -> usize
    requires { 0 < most }
    ensures bound { result ≤ length into.new }
    ensures most { result ≤ most }
    ensures moved { front.old.now ≡ take result into.new ++ front.new.now }
    ensures none { result ≡ 0 → 0 < length into.new → front.new.now ≡ [] }
{
    let all: &[u8] = *front;
    let count = all.len().min(into.len()).min(most);
    into[..count].copy_from_slice(&all[..count]);
    *front = &all[count..];
    count
}
