ghost use Rattle.std.specs.Prelude.{◌≡◌, ◌+◌, ◌-◌, ◌^◌, ◌<◌, ◌≤◌};
ghost use Rattle.slab_model.specs.Counting.{count_grant as granted, count_fail as failed, count_return as returned};

use crate::stat::Stat;

/// A request was given a block, and the class can grant `more` blocks more.
pub fn count_grant(stat: Stat, more: u64) -> Stat
    requires total { stat.total + more < 2 ^ 64 }
    requires used { stat.used + 1 < 2 ^ 64 }
    ensures { result ≡ granted more stat }
{
    Stat {
        total: stat.total + more,
        used: stat.used + 1,
        reqs: stat.reqs.saturating_add(1),
        fails: stat.fails,
    }
}

/// A request was given no block.
pub fn count_fail(stat: Stat) -> Stat
    ensures { result ≡ failed stat }
{
    Stat {
        total: stat.total,
        used: stat.used,
        reqs: stat.reqs.saturating_add(1),
        fails: stat.fails.saturating_add(1),
    }
}

/// A block came back, and the class can grant `less` blocks less.
pub fn count_return(stat: Stat, less: u64) -> Stat
    ensures { result ≡ returned less stat }
{
    Stat {
        total: stat.total.saturating_sub(less),
        used: stat.used.saturating_sub(1),
        reqs: stat.reqs,
        fails: stat.fails,
    }
}
