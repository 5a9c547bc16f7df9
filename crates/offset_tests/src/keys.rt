ghost use Rattle.std.specs.Prelude.{◌≡◌, ◌<◌, ◌≤◌, IfOk, length};
ghost use Rattle.offset_tests.specs.Grid.{key_at};

use std::alloc::Global;
use zone_key::Key;
use zone_outside::NoMemory;

/// The polynomial of CRC-32 over two elements, all 33 bits of it, with the bits in reflected order.
const POLYNOMIAL: u64 = 0x1_DB71_0641;

/// Keys of one length: the lowest `len` bytes of each number, the lowest first.
#[derive(Drop)]
pub struct Keys {
    /// The length of each key in bytes.
    pub len: u64,
    /// The number of each key.
    pub numbers: Vec<u64>,
}

impl Keys {
    /// Key `k`.
    pub fn key(&self, alloc: Global, k: u64) -> Result<Key, NoMemory>
        requires range { k < length self.now.numbers.items }
        requires short { self.now.len ≤ 8 }
        ensures { IfOk result (λ key. key ≡ key_at self.now k) }
    {
        let bytes = self.numbers[k as usize].to_le_bytes();
        Key::of(alloc, &bytes[..self.len as usize])
    }
}

/// The first `n` keys of four bytes that spell a number, the highest byte first.
pub fn counted(alloc: Global, n: u32) -> Result<Keys, NoMemory>
    ensures { IfOk result (λ keys. (length keys.numbers.items ≡ n) × (keys.len ≡ 4)) }
{
    let mut numbers = Vec::new(alloc);
    for k in 0..n {
        numbers.push(u64::from(k.swap_bytes()))?;
    }
    Ok(Keys { len: 4, numbers })
}

/// A multiple of the polynomial: added to a key of five bytes, it leaves the key's CRC-32 as it was.
pub fn multiple(factor: u64) -> u64 {
    let mut sum = 0;
    for bit in 0..4u32 {
        if (factor >> bit) % 2 == 1 {
            sum ^= POLYNOMIAL << bit;
        }
    }
    sum
}

/// Sixty-four keys of five bytes in four sets of sixteen. The keys of a set have one CRC-32.
pub fn colliding(alloc: Global) -> Result<Keys, NoMemory>
    ensures { IfOk result (λ keys. (length keys.numbers.items ≡ 64) × (keys.len ≡ 5)) }
{
    let mut numbers = Vec::new(alloc);
    for k in 0..64u64 {
        numbers.push(multiple(k / 4) ^ (k % 4))?;
    }
    Ok(Keys { len: 5, numbers })
}
