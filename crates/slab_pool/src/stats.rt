ghost use Rattle.std.specs.Prelude.{◌≡◌, ◌+◌, ◌^◌, ◌<◌, ◌≤◌};
ghost use Rattle.slab_model.specs.declared.stat.Stat.{Stat as StatOf};
ghost use Rattle.slab_model.specs.Geometry.{class_count};
ghost use Rattle.slab_model.specs.Counting.{count_grant as counted_grant, count_fail as counted_fail, count_return as counted_return};
ghost use Rattle.slab_pages.specs.Frames.{ChangesStat};
ghost use Rattle.slab_pages.specs.SlabLayout.{LaysStat};
ghost use Rattle.slab_pool.specs.PoolSteps.{HasRuns, KeepsRuns};

use slab_model::Stat;
use slab_pages::{Pages, stat_at};

// The statistics of a class.
pub(crate) fn stat(pages: &Pages, class: u32) -> Stat
    requires known { class < class_count pages.now.shape }
    requires runs { HasRuns pages.now }
    ensures { LaysStat pages.now.words class result }
{
    let w = stat_at(class);
    Stat {
        total: pages.word(w),
        used: pages.word(w + 1),
        reqs: pages.word(w + 2),
        fails: pages.word(w + 3),
    }
}

// Writes the statistics of a class.
fn set_stat(pages: &mut Pages, class: u32, stat: Stat)
    requires known { class < class_count pages.old.shape }
    requires runs { HasRuns pages.old }
    ensures runs { KeepsRuns pages.old pages.new }
    ensures changes { ChangesStat pages.old.words pages.new.words class }
    ensures lays { LaysStat pages.new.words class stat }
{
    let w = stat_at(class);
    pages.set_word(w, stat.total);
    pages.set_word(w + 1, stat.used);
    pages.set_word(w + 2, stat.reqs);
    pages.set_word(w + 3, stat.fails);
}

// Counts a request that was given a block, after which the class can grant `more` blocks more.
pub(crate) fn count_grant(pages: &mut Pages, class: u32, more: u64)
    requires known { class < class_count pages.old.shape }
    requires runs { HasRuns pages.old }
    requires few { ((s : StatOf) × LaysStat pages.old.words class s × (s.total + more < 2 ^ 64) × (s.used + 1 < 2 ^ 64)) }
    ensures runs { KeepsRuns pages.old pages.new }
    ensures changes { ChangesStat pages.old.words pages.new.words class }
    ensures counts { (s : StatOf) → LaysStat pages.old.words class s → LaysStat pages.new.words class (counted_grant more s) }
{
    let s = stat(pages, class);
    let counted = Stat {
        total: s.total + more,
        used: s.used + 1,
        reqs: s.reqs.saturating_add(1),
        fails: s.fails,
    };
    set_stat(pages, class, counted);
}

// Counts a request that was given no block.
pub(crate) fn count_fail(pages: &mut Pages, class: u32)
    requires known { class < class_count pages.old.shape }
    requires runs { HasRuns pages.old }
    ensures runs { KeepsRuns pages.old pages.new }
    ensures changes { ChangesStat pages.old.words pages.new.words class }
    ensures counts { (s : StatOf) → LaysStat pages.old.words class s → LaysStat pages.new.words class (counted_fail s) }
{
    let s = stat(pages, class);
    let counted = Stat {
        total: s.total,
        used: s.used,
        reqs: s.reqs.saturating_add(1),
        fails: s.fails.saturating_add(1),
    };
    set_stat(pages, class, counted);
}

// Counts a block that came back, after which the class can grant `less` blocks less.
pub(crate) fn count_return(pages: &mut Pages, class: u32, less: u64)
    requires known { class < class_count pages.old.shape }
    requires runs { HasRuns pages.old }
    requires enough { ((s : StatOf) × LaysStat pages.old.words class s × (less ≤ s.total) × (0 < s.used)) }
    ensures runs { KeepsRuns pages.old pages.new }
    ensures changes { ChangesStat pages.old.words pages.new.words class }
    ensures counts { (s : StatOf) → LaysStat pages.old.words class s → LaysStat pages.new.words class (counted_return less s) }
{
    let s = stat(pages, class);
    let counted = Stat {
        total: s.total - less,
        used: s.used - 1,
        reqs: s.reqs,
        fails: s.fails,
    };
    set_stat(pages, class, counted);
}
