ghost use Rattle.std.specs.Prelude.{◌≡◌, ℕ, ◌<◌, ◌≤◌, [], ◌∷◌, drop, IfOk, OnErr, OnOk};
ghost use Rattle.slab_model.specs.Geometry.{class_count, class_size as size_of_class, greatest_zone, page_offset as page_at_offset, block_offset as block_at_offset};
ghost use Rattle.slab_model.specs.Inside.{slab_of};
ghost use Rattle.slab_model.specs.Runs.{first_fit as fit_of};
ghost use Rattle.slab_model.specs.State.{Slab, list_of, page_at};
ghost use Rattle.slab_model.specs.Blocks.{used_in};
ghost use Rattle.slab_model.specs.Grant.{grant_in_page as granted_in_page, grant_in_new_page as granted_in_new_page, grant_from_list, grant_run as granted_run, grant as granted, granted_offset};
ghost use Rattle.slab_model.specs.Soundness.{IsSound};

use crate::counts::{count_fail, count_grant};
use crate::geometry::{
    class_of, class_size, first_index, page_size, pages_for, start_offset, usable_blocks,
};
use crate::numbers::Numbers;
use crate::page::PageState;
use crate::pages::{indexes, is_full, lowest_unused, use_pages};
use crate::parts::Parts;
use crate::runs::{first_fit, take_run};
use std::alloc::Global;
use zone_outside::NoMemory;
use zone_region::Block;

/// The block of an index in a page of a class.
fn block_at(parts: &Parts, class: u32, page: u64, index: u64) -> Block
    requires sound { IsSound (slab_of parts.now) }
    requires class { class < class_count parts.now.shape }
    requires page { page < 16384 }
    requires index { index < 512 }
    ensures { result.at ≡ block_at_offset parts.now.shape page class index }
{
    Block {
        at: start_offset(parts.shape) + page_size(parts.shape) * page + class_size(class) * index,
    }
}

/// Grants the lowest free index of the first page of the class's list.
fn grant_in_page(parts: &mut Parts, alloc: Global, class: u32, page: u64) -> Result<Block, NoMemory>
    requires sound { IsSound (slab_of parts.old) }
    requires class { class < class_count parts.old.shape }
    requires listed { list_of (slab_of parts.old) class ≡ page ∷ drop 1 (list_of (slab_of parts.old) class) }
    ensures ok { IfOk result (λ b. (granted_offset (Some b), slab_of parts.new) ≡ granted_in_page (slab_of parts.old) class page (drop 1 (list_of (slab_of parts.old) class)) (used_in (page_at (slab_of parts.old).pages page))) }
    ensures err { OnErr result (parts.new ≡ parts.old) }
{
    let used = indexes(&parts.pages[page as usize]);
    let index = lowest_unused(parts.shape, class, used);
    let used = used.with(alloc, index)?;
    let full = is_full(parts.shape, class, &used);
    let block = block_at(parts, class, page, index);
    if full {
        let rest = parts.lists[class as usize].rest(alloc)?;
        parts.lists[class as usize] = rest;
    }
    parts.pages[page as usize] = PageState::Class { class, used };
    parts.stats[class as usize] = count_grant(parts.stats[class as usize], 0);
    Ok(block)
}

/// Grants the first block of a free page, which becomes the class's only listed page; counts a failure where no page is free.
fn grant_in_new_page(
    parts: &mut Parts,
    alloc: Global,
    class: u32,
) -> Result<Option<Block>, NoMemory>
    requires sound { IsSound (slab_of parts.old) }
    requires class { class < class_count parts.old.shape }
    ensures ok { IfOk result (λ b. (granted_offset b, slab_of parts.new) ≡ granted_in_new_page (slab_of parts.old) class (fit_of 1 parts.old.runs.items)) }
    ensures err { OnErr result (parts.new ≡ parts.old) }
{
    let stat = parts.stats[class as usize];
    let Some(page) = first_fit(&parts.runs, 1) else {
        parts.stats[class as usize] = count_fail(stat);
        return Ok(None);
    };
    let index = first_index(parts.shape, class);
    let used = Numbers::one(alloc, index)?;
    let list = Numbers::one(alloc, page)?;
    let runs = take_run(alloc, &parts.runs, 1)?;
    let block = block_at(parts, class, page, index);
    parts.pages[page as usize] = PageState::Class { class, used };
    parts.runs = runs;
    parts.lists[class as usize] = list;
    parts.stats[class as usize] = count_grant(stat, usable_blocks(parts.shape, class));
    Ok(Some(block))
}

/// Grants whole pages.
fn grant_run(parts: &mut Parts, alloc: Global, count: u64) -> Result<Option<Block>, NoMemory>
    requires sound { IsSound (slab_of parts.old) }
    requires count { 0 < count }
    ensures ok { IfOk result (λ b. (granted_offset b, slab_of parts.new) ≡ granted_run (slab_of parts.old) count (fit_of count parts.old.runs.items)) }
    ensures err { OnErr result (parts.new ≡ parts.old) }
{
    let Some(page) = first_fit(&parts.runs, count) else {
        return Ok(None);
    };
    let runs = take_run(alloc, &parts.runs, count)?;
    use_pages(&mut parts.pages, page, count);
    parts.runs = runs;
    Ok(Some(Block {
        at: start_offset(parts.shape) + page_size(parts.shape) * page,
    }))
}

/// Grants a block of the class.
fn grant_class(parts: &mut Parts, alloc: Global, class: u32) -> Result<Option<Block>, NoMemory>
    requires sound { IsSound (slab_of parts.old) }
    requires class { class < class_count parts.old.shape }
    ensures ok { IfOk result (λ b. (granted_offset b, slab_of parts.new) ≡ grant_from_list (slab_of parts.old) class (list_of (slab_of parts.old) class)) }
    ensures err { OnErr result (parts.new ≡ parts.old) }
{
    match parts.lists[class as usize].first() {
        Some(page) => Ok(Some(grant_in_page(parts, alloc, class, page)?)),
        None => grant_in_new_page(parts, alloc, class),
    }
}

/// Grants a block of at least `size` bytes, if there is one.
#[tactic(auto, using(crate::proofs::ClassLemmas::class_known, crate::proofs::ClassLemmas::pages_some), unfolding(crate::specs::Grant::grant))]
pub fn grant(parts: &mut Parts, alloc: Global, size: u64) -> Result<Option<Block>, NoMemory>
    requires sound { IsSound (slab_of parts.old) }
    requires some { 0 < size }
    requires small { size ≤ greatest_zone }
    ensures ok { IfOk result (λ b. (granted_offset b, slab_of parts.new) ≡ granted (slab_of parts.old) size) }
    ensures err { OnErr result (parts.new ≡ parts.old) }
{
    match class_of(parts.shape, size) {
        Some(class) => grant_class(parts, alloc, class),
        None => grant_run(parts, alloc, pages_for(parts.shape, size)),
    }
}
