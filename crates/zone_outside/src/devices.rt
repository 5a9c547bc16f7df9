ghost use Rattle.std.specs.Prelude.{◌≡◌, ◌≢◌, ℕ, ◌<◌, ◌≤◌, List, length, IfOk, OnOk, OnErr};
ghost use Rattle.std.specs.Prelude.{Option};
ghost use Rattle.std.specs.Io.{ReadsAtMost, WritesAtMost};
ghost use Rattle.std.specs.Io.KnownBytes.{ReadConsumes, WriteAppends};
ghost use Rattle.zone_outside.specs.Faults.{HasCause, Rose};

use crate::errors::Failed;
use crate::text::Text;

/// A named text that is read from its front.
pub trait Source {
    /// The name, which no call changes.
    ghost name: { Self → List ℕ };

    /// The bytes still to come, where the source tells them.
    ghost left: { Self → Option (List ℕ) };

    /// How many reads have failed. The count stops at 2^64 - 1.
    ghost faults: { Self → ℕ };

    /// Takes bytes from the front of what is left, and answers how many stand in `into`.
    /// It answers 0 only where `into` is empty or nothing is left.
    /// `Failed`: the count of faults rose, and what is left is as before.
    fn read(&mut self, into: &mut [u8]) -> Result<usize, Failed>
        ensures named { name self.new ≡ name self.old }
        ensures bound { ReadsAtMost result into.new }
        ensures bytes { ReadConsumes (left self.old) (left self.new) result into.new }
        ensures cause { HasCause (faults self.old) (faults self.new) result }
        ensures calm { OnOk result (faults self.new ≡ faults self.old) };
}

/// What takes text.
pub trait Sink {
    /// The bytes that were taken, where the sink tells them.
    ghost taken: { Self → Option (List ℕ) };

    /// How many writes have failed. The count stops at 2^64 - 1.
    ghost faults: { Self → ℕ };

    /// Takes bytes from the front of `piece`, and answers how many: at least one, where `piece`
    /// isn't empty. `Failed`: the count of faults rose, and nothing was taken.
    fn write(&mut self, piece: &[u8]) -> Result<usize, Failed>
        ensures bound { WritesAtMost result piece.now }
        ensures some { IfOk result (λ n. 0 < length piece.now → 0 < n) }
        ensures bytes { WriteAppends (taken self.old) (taken self.new) result piece.now }
        ensures cause { HasCause (faults self.old) (faults self.new) result }
        ensures calm { OnOk result (faults self.new ≡ faults self.old) };
}

/// Named texts that can be opened.
pub trait Shelf {
    /// An opened text. Whoever opened it settles it.
    type Item: Source;

    /// The text of a name, where the shelf tells it. No call changes it.
    ghost contents: { Self → List ℕ → Option (List ℕ) };

    /// How many opens of a name failed, and how many of its items met a failed read, at least.
    ghost faults: { Self → List ℕ → ℕ };

    /// Opens the text of this name. `Failed`: the count of faults of this name rose.
    fn open(&mut self, name: Text) -> Result<Self::Item, Failed>
        ensures kept { (n : List ℕ) → contents self.new n ≡ contents self.old n }
        ensures later { (n : List ℕ) → faults self.old n ≤ faults self.new n }
        ensures named { IfOk result (λ item. Self.Item.name item ≡ name) }
        ensures whole { IfOk result (λ item. Self.Item.left item ≡ contents self.old name) }
        ensures fresh { IfOk result (λ item. Self.Item.faults item ≡ 0) }
        ensures calm { OnOk result ((n : List ℕ) → faults self.new n ≡ faults self.old n) }
        ensures failed { OnErr result (Rose (faults self.old name) (faults self.new name)) };

    /// Takes an item back. The count of faults of its name rises where a read of it failed.
    fn settle(&mut self, item: Self::Item)
        ensures kept { (n : List ℕ) → contents self.new n ≡ contents self.old n }
        ensures later { (n : List ℕ) → faults self.old n ≤ faults self.new n }
        ensures failed { Self.Item.faults item ≢ 0 → Rose (faults self.old (Self.Item.name item)) (faults self.new (Self.Item.name item)) }
        ensures calm { Self.Item.faults item ≡ 0 → (n : List ℕ) → faults self.new n ≡ faults self.old n };
}
