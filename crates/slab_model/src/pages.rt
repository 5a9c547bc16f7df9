ghost use Rattle.std.specs.Prelude.{◌≡◌, ◌<◌, ◌+◌, ◌≤◌, ◌^◌, [], ◌∷◌, length, IfOk, replicate};
ghost use Rattle.slab_model.specs.declared.page.PageState.{PageState as State};
ghost use Rattle.slab_model.specs.declared.page.PageState.TheVariants.{Free, First, Later};
ghost use Rattle.slab_model.specs.Geometry.{IsInLimits};
ghost use Rattle.slab_model.specs.Inside.{IsOfClass};
ghost use Rattle.slab_model.specs.State.{fill_pages};
ghost use Rattle.slab_model.specs.Blocks.{used_in, lowest_unused as lowest_of, is_full as full_of};
ghost use Rattle.slab_model.specs.Grant.{use_pages as used_pages};
ghost use Rattle.slab_model.specs.Soundness.{AreUsed};

use crate::geometry::{first_index, usable_blocks};
use crate::numbers::Numbers;
use crate::page::PageState;
use crate::shape::Shape;
use std::alloc::Global;
use zone_outside::NoMemory;

/// The used indexes of a page of a class.
pub fn indexes(page: &PageState) -> &Numbers
    requires { IsOfClass page.now }
    ensures { result.now ≡ used_in page.now }
{
    match page {
        PageState::Class { class: _, used } => used,
        _ => unreachable!(),
    }
}

/// The lowest index of a page of the class that can be granted and isn't used, or the number of its blocks.
///
/// The used indexes ascend from the first index on, so the first of them that isn't as great as its place leaves a gap.
pub fn lowest_unused(shape: Shape, class: u32, used: &Numbers) -> u64
    requires limits { IsInLimits shape }
    requires used { AreUsed shape class used.now }
    ensures { result ≡ lowest_of shape class used.now }
{
    let mut index = first_index(shape, class);
    let numbers = used.as_slice();
    for number in numbers {
        if *number != index {
            return index;
        }
        index += 1;
    }
    index
}

/// Whether all blocks that a page of the class can grant are used.
#[tactic(auto, using(crate::proofs::StateLemmas::full_length))]
pub fn is_full(shape: Shape, class: u32, used: &Numbers) -> bool
    requires limits { IsInLimits shape }
    requires used { AreUsed shape class used.now }
    ensures { result ≡ full_of shape class used.now }
{
    used.len() == usable_blocks(shape, class)
}

/// So many free pages.
pub fn free_pages(alloc: Global, count: u64) -> Result<Vec<PageState>, NoMemory>
    requires { count < 2 ^ 32 }
    ensures { IfOk result (λ v. v.items ≡ replicate count Free) }
{
    let mut pages = Vec::with_capacity(alloc, count as usize)?;
    for _page in 0..count {
        pages.push(PageState::Free)?;
    }
    Ok(pages)
}

/// The run of `count` pages from `first` on is used.
pub fn use_pages(pages: &mut [PageState], first: u64, count: u64)
    requires some { 0 < count }
    requires room { first + count ≤ length pages.old }
    ensures { pages.new ≡ used_pages first count pages.old }
{
    pages[first as usize] = PageState::First { pages: count };
    for page in first + 1..first + count {
        pages[page as usize] = PageState::Later;
    }
}

/// The pages of the run of `count` pages from `first` on are free.
pub fn clear_pages(pages: &mut [PageState], first: u64, count: u64)
    requires { first + count ≤ length pages.old }
    ensures { pages.new ≡ fill_pages Free first count pages.old }
{
    for page in first..first + count {
        pages[page as usize] = PageState::Free;
    }
}
