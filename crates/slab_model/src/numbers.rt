ghost use Rattle.std.specs.Prelude.{◌≡◌, ◌<◌, [], ◌∷◌, length, drop, IfOk, MatchOption};
ghost use Rattle.slab_model.specs.Inside.{place_in};
ghost use Rattle.slab_model.specs.Numbers.{is_member, with_number, without as without_one};

use std::alloc::Global;
use std::marker::Model;
use zone_outside::NoMemory;

/// A list of numbers, as the used indexes of a page or the pages of a class.
#[derive(Debug, Drop)]
pub struct Numbers {
    kept: Vec<u64>,
}

impl Model for Numbers {
    ghost use Rattle.std.specs.Prelude.{List, ℕ};

    ghost Value = { List ℕ };

    ghost view = { λ n. n.kept.items };
}

/// How many numbers at the front of the list are at most `n`.
fn place_of(numbers: &[u64], n: u64) -> usize
    ensures { result ≡ place_in n numbers.now }
{
    let mut place = 0;
    for number in numbers {
        if n < *number {
            return place;
        }
        place += 1;
    }
    place
}

impl Numbers {
    /// No number.
    pub fn empty(alloc: Global) -> Numbers
        ensures { result ≡ [] }
    {
        Numbers {
            kept: Vec::new(alloc),
        }
    }

    /// This number alone.
    pub fn one(alloc: Global, n: u64) -> Result<Numbers, NoMemory>
        ensures { IfOk result (λ ns. ns ≡ n ∷ []) }
    {
        Ok(Numbers {
            kept: vec![in alloc; n]?,
        })
    }

    /// The first number, if there is one.
    pub fn first(&self) -> Option<u64>
        ensures { MatchOption result (self.now ≡ []) (λ n. self.now ≡ n ∷ drop 1 self.now) }
    {
        self.kept.first().copied()
    }

    /// How many numbers the list has.
    pub fn len(&self) -> u64
        ensures { result ≡ length self.now }
    {
        self.kept.len() as u64
    }

    /// The numbers, in order.
    pub fn as_slice(&self) -> &[u64]
        ensures { result.now ≡ self.now }
    {
        &self.kept
    }

    /// Whether the number is in the list.
    #[tactic(auto, using(crate::proofs::NumberLemmas::is_member_any))]
    pub fn contains(&self, n: u64) -> bool
        ensures { result ≡ is_member n self.now }
    {
        self.kept.contains(&n)
    }

    /// The list with the number before all others.
    pub fn with_first(&self, alloc: Global, n: u64) -> Result<Numbers, NoMemory>
        ensures { IfOk result (λ ns. ns ≡ n ∷ self.now) }
    {
        let mut kept = Vec::new(alloc);
        kept.push(n)?;
        kept.extend_from_slice(&self.kept)?;
        Ok(Numbers { kept })
    }

    /// The ascending list with this number in its place.
    #[tactic(auto, using(crate::proofs::NumberLemmas::with_place, crate::proofs::NumberLemmas::place_in_le))]
    pub fn with(&self, alloc: Global, n: u64) -> Result<Numbers, NoMemory>
        ensures { IfOk result (λ ns. ns ≡ with_number n self.now) }
    {
        let place = place_of(&self.kept, n);
        let mut kept = Vec::with_capacity(alloc, self.kept.len() + 1)?;
        kept.extend_from_slice(&self.kept[..place])?;
        kept.push(n)?;
        kept.extend_from_slice(&self.kept[place..])?;
        Ok(Numbers { kept })
    }

    /// The list without its first number.
    pub fn rest(&self, alloc: Global) -> Result<Numbers, NoMemory>
        requires { 0 < length self.now }
        ensures { IfOk result (λ ns. ns ≡ drop 1 self.now) }
    {
        Ok(Numbers {
            kept: self.kept[1..].to_vec(alloc)?,
        })
    }

    /// The list without this number.
    pub fn without(&self, alloc: Global, n: u64) -> Result<Numbers, NoMemory>
        ensures { IfOk result (λ ns. ns ≡ without_one n self.now) }
    {
        Ok(Numbers {
            kept: self
                .kept
                .iter()
                .copied()
                .filter(|m| n != *m)
                .collect(alloc)?,
        })
    }
}
