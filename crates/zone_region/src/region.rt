ghost use Rattle.std.specs.Prelude.{◌≡◌, ◌<◌, length, slice_index, slice_set, IfOk, replicate};

use std::alloc::Global;
use std::marker::Model;
use zone_outside::NoMemory;

/// The memory of a zone: 64-bit words, seen as the list of them.
///
/// The word at byte offset `o`, a multiple of 8, is word `o / 8`.
#[derive(Drop)]
pub struct Region {
    words: Vec<u64>,
}

impl Model for Region {
    ghost use Rattle.std.specs.Prelude.{List, ℕ};

    ghost Value = { List ℕ };

    ghost view = { λ r. r.words.items };
}

impl Region {
    /// A region of so many words, all 0. It fails only where there is no memory for them.
    pub fn zeroed(alloc: Global, words: u64) -> Result<Region, NoMemory>
        ensures { IfOk result (λ region. region ≡ replicate words 0) }
    {
        Ok(Region {
            words: vec![in alloc; 0u64; words as usize]?,
        })
    }

    /// The number of its words.
    pub fn len(&self) -> u64
        ensures { result ≡ length self.now }
    {
        self.words.len() as u64
    }

    /// Word `w`.
    pub fn load(&self, w: u64) -> u64
        requires { w < length self.now }
        ensures { result ≡ slice_index self.now w }
    {
        self.words[w as usize]
    }

    /// Makes word `w` be `v`, and leaves every other word as it was.
    pub fn store(&mut self, w: u64, v: u64)
        requires { w < length self.old }
        ensures { self.new ≡ slice_set self.old w v }
    {
        self.words[w as usize] = v;
    }
}
