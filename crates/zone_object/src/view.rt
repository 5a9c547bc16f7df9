ghost use Rattle.std.specs.Prelude.{◌≡◌, ℕ, ◌<◌, List, length, slice_index, slice_index_or};
ghost use Rattle.slab_model.specs.State.{no_stat};
ghost use Rattle.slab_model.specs.declared.stat.Stat.{Stat};

use crate::object::ZoneObject;
use slab_model::Stat;

/// An object of which the words and the numbers can be read.
///
/// The words are tied to the state by a relation between a list of words and a state, so that a printed image can be
/// tied to the state after a history. The numbers are functions of the state.
pub trait ZoneView: ZoneObject {
    /// The words of the zone, from its first byte on.
    ghost image: { Self → List ℕ };

    /// These words lay out this state.
    ghost image_lays: { List ℕ → Self.State → Type 0 };

    /// The number of the zone's pages.
    ghost pages_in: { Self.State → ℕ };

    /// The number of pages that are free.
    ghost free_in: { Self.State → ℕ };

    /// The number of entries: those of a table, or the servers of both lists.
    ghost entries_in: { Self.State → ℕ };

    /// The statistics of each class that the zone's geometry has, the smallest class first.
    ghost stats_in: { Self.State → List Stat };

    /// The number of the zone's words.
    fn words(&self) -> u64
        ensures { result ≡ length (image self.now) };

    /// Word `w`.
    fn word_at(&self, w: u64) -> u64
        requires { w < length (image self.now) }
        ensures { result ≡ slice_index (image self.now) w };

    /// The number of the zone's pages.
    fn page_count(&self) -> u64
        ensures { (s : Self.State) → Self.lays self.now s → result ≡ pages_in s };

    /// The number of pages that are free.
    fn free_count(&self) -> u64
        ensures { (s : Self.State) → Self.lays self.now s → result ≡ free_in s };

    /// The statistics of a class, four zeros for one that the geometry doesn't have.
    fn stat_of(&self, class: u32) -> Stat
        ensures { (s : Self.State) → Self.lays self.now s → result ≡ slice_index_or (stats_in s) class no_stat };

    /// The number of entries.
    fn entry_count(&self) -> u64
        ensures { (s : Self.State) → Self.lays self.now s → result ≡ entries_in s };

    /// The words of an object lay out each state that the object lays out.
    ghost image_is_laid: { (object : Self) (s : Self.State) → Self.lays object s → image_lays (image object) s };
}
