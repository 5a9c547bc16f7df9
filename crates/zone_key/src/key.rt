ghost use Rattle.std.specs.Prelude.{◌≡◌, ◌<◌, length, slice_index, IfOk};

use std::alloc::Global;
use std::marker::Model;
use zone_outside::NoMemory;

/// A key of a table, seen as the list of its bytes.
#[derive(Debug, Drop)]
pub struct Key {
    bytes: Vec<u8>,
}

impl Model for Key {
    ghost use Rattle.std.specs.Prelude.{List, ℕ};

    ghost Value = { List ℕ };

    ghost view = { λ k. k.bytes.items };
}

impl Key {
    /// The key of these bytes, of any number. It fails only where there is no memory for a copy of them.
    pub fn of(alloc: Global, bytes: &[u8]) -> Result<Key, NoMemory>
        ensures { IfOk result (λ key. key ≡ bytes.now) }
    {
        Ok(Key {
            bytes: bytes.to_vec(alloc)?,
        })
    }

    /// The key whose bytes these are. It takes no memory.
    pub fn from_vec(bytes: Vec<u8>) -> Key
        ensures { result ≡ bytes.items }
    {
        Key { bytes }
    }

    /// The number of its bytes.
    pub fn len(&self) -> u64
        ensures { result ≡ length self.now }
    {
        self.bytes.len() as u64
    }

    /// Byte `i`, counted from 0.
    pub fn byte(&self, i: u64) -> u8
        requires { i < length self.now }
        ensures { result ≡ slice_index self.now i }
    {
        self.bytes[i as usize]
    }

    /// Its bytes.
    pub fn bytes(&self) -> &[u8]
        ensures { result.now ≡ self.now }
    {
        &self.bytes
    }
}
