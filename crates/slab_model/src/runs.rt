ghost use Rattle.std.specs.Prelude.{◌≡◌, ℕ, ◌+◌, ◌^◌, ◌<◌, ◌≤◌, All, IfOk};
ghost use Rattle.slab_model.specs.Runs.{first_fit as fit_of, take_run as taken, give_run as given, pages_before as before_of, pages_from as from_of, is_beside as beside, merged_run as merge_of, page_total as total_of, AreSound};

use std::alloc::Global;
use zone_outside::NoMemory;

/// A run of pages that follow one another.
#[derive(Clone, Copy, Debug, PartialEq, Eq)]
pub struct Run {
    /// The number of its first page.
    pub first: u64,
    /// The number of its pages.
    pub pages: u64,
}

/// The first page of the first run that has `count` pages.
pub fn first_fit(runs: &[Run], count: u64) -> Option<u64>
    ensures { result ≡ fit_of count runs.now }
{
    for run in runs {
        if count <= run.pages {
            return Some(run.first);
        }
    }
    None
}

/// The runs once `count` pages are taken from the front of the first that has as many.
pub fn take_run(alloc: Global, runs: &[Run], count: u64) -> Result<Vec<Run>, NoMemory>
    requires { All (λ r. r.first + r.pages < 2 ^ 32) runs.now }
    ensures { IfOk result (λ v. v.items ≡ taken count runs.now) }
{
    let mut kept = Vec::with_capacity(alloc, runs.len())?;
    let mut done = false;
    for run in runs {
        if done || run.pages < count {
            kept.push(*run)?;
        } else {
            done = true;
            if run.pages != count {
                kept.push(Run {
                    first: run.first + count,
                    pages: run.pages - count,
                })?;
            }
        }
    }
    Ok(kept)
}

/// The pages of the run that ends right before the page, 0 where none does.
fn pages_before(runs: &[Run], page: u64) -> u64
    requires { All (λ r. r.first + r.pages < 2 ^ 32) runs.now }
    ensures value { result ≡ before_of page runs.now }
    ensures low { result ≤ page }
{
    for run in runs {
        if run.first + run.pages == page {
            return run.pages;
        }
    }
    0
}

/// The pages of the run that begins at the page, 0 where none does.
fn pages_from(runs: &[Run], page: u64) -> u64
    requires { All (λ r. r.first + r.pages < 2 ^ 32) runs.now }
    ensures value { result ≡ from_of page runs.now }
    ensures small { result < 2 ^ 32 }
{
    for run in runs {
        if run.first == page {
            return run.pages;
        }
    }
    0
}

/// Whether `other` ends right before the run or begins right after it.
fn is_beside(run: Run, other: &Run) -> bool
    requires run { run.first + run.pages < 2 ^ 32 }
    requires other { other.now.first + other.now.pages < 2 ^ 32 }
    ensures { result ≡ beside run other.now }
{
    other.first + other.pages == run.first || other.first == run.first + run.pages
}

/// The run with the free runs on both sides of it.
fn merged_run(runs: &[Run], run: Run) -> Run
    requires run { run.first + run.pages < 2 ^ 32 }
    requires runs { All (λ r. r.first + r.pages < 2 ^ 32) runs.now }
    ensures { result ≡ merge_of run runs.now }
{
    let before = pages_before(runs, run.first);
    let after = pages_from(runs, run.first + run.pages);
    Run {
        first: run.first - before,
        pages: before + run.pages + after,
    }
}

/// The runs once a run is given back: merged with those beside it, it goes to the head.
pub fn give_run(alloc: Global, runs: &[Run], run: Run) -> Result<Vec<Run>, NoMemory>
    requires run { run.first + run.pages < 2 ^ 32 }
    requires runs { All (λ r. r.first + r.pages < 2 ^ 32) runs.now }
    ensures { IfOk result (λ v. v.items ≡ given run runs.now) }
{
    let mut kept = Vec::with_capacity(alloc, runs.len() + 1)?;
    kept.push(merged_run(runs, run))?;
    for other in runs {
        if !is_beside(run, other) {
            kept.push(*other)?;
        }
    }
    Ok(kept)
}

/// The pages of all runs.
pub fn page_total(runs: &[Run]) -> u64
    requires { total_of runs.now < 2 ^ 64 }
    ensures { result ≡ total_of runs.now }
{
    let mut pages = 0;
    for run in runs {
        pages += run.pages;
    }
    pages
}
