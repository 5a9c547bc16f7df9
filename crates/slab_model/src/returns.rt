ghost use Rattle.std.specs.Prelude.{◌≡◌, ℕ, ◌<◌, ◌≤◌, [], ◌∷◌, drop, IfOk, OnErr, OnOk};
ghost use Rattle.slab_model.specs.declared.page.PageState.TheVariants.{First, Class};
ghost use Rattle.slab_model.specs.Geometry.{class_count};
ghost use Rattle.slab_model.specs.Numbers.{without};
ghost use Rattle.slab_model.specs.Inside.{slab_of};
ghost use Rattle.slab_model.specs.State.{Slab, list_of, page_at};
ghost use Rattle.slab_model.specs.Blocks.{IsLive, used_in};
ghost use Rattle.slab_model.specs.Return.{give_pages as given_pages, give_in_page as given_in_page, give_back as given_back};
ghost use Rattle.slab_model.specs.Soundness.{IsSound};

use crate::counts::count_return;
use crate::geometry::{class_size, page_size, start_offset, usable_blocks};
use crate::page::PageState;
use crate::pages::{clear_pages, indexes, is_full};
use crate::parts::Parts;
use crate::runs::{Run, give_run};
use std::alloc::Global;
use zone_outside::NoMemory;

/// Gives a used run back.
fn give_pages(parts: &mut Parts, alloc: Global, page: u64, count: u64) -> Result<(), NoMemory>
    requires sound { IsSound (slab_of parts.old) }
    requires first { page_at parts.old.pages.items page ≡ First count }
    ensures ok { OnOk result (slab_of parts.new ≡ given_pages (slab_of parts.old) page count) }
    ensures err { OnErr result (parts.new ≡ parts.old) }
{
    let run = Run {
        first: page,
        pages: count,
    };
    let runs = give_run(alloc, &parts.runs, run)?;
    clear_pages(&mut parts.pages, page, count);
    parts.runs = runs;
    Ok(())
}

/// Gives the last block of a page of the class back, and the page with it.
fn give_last(parts: &mut Parts, alloc: Global, page: u64, class: u32) -> Result<(), NoMemory>
    requires sound { IsSound (slab_of parts.old) }
    requires known { class < class_count parts.old.shape }
    requires class { page_at parts.old.pages.items page ≡ Class class (used_in (page_at parts.old.pages.items page)) }
    ensures ok { OnOk result (slab_of parts.new ≡ given_in_page (slab_of parts.old) page class (used_in (page_at parts.old.pages.items page)) []) }
    ensures err { OnErr result (parts.new ≡ parts.old) }
{
    let run = Run {
        first: page,
        pages: 1,
    };
    let runs = give_run(alloc, &parts.runs, run)?;
    let list = parts.lists[class as usize].without(alloc, page)?;
    parts.pages[page as usize] = PageState::Free;
    parts.runs = runs;
    parts.lists[class as usize] = list;
    parts.stats[class as usize] = count_return(
        parts.stats[class as usize],
        usable_blocks(parts.shape, class),
    );
    Ok(())
}

/// Gives a block of a page of the class back.
fn give_in_page(
    parts: &mut Parts,
    alloc: Global,
    page: u64,
    class: u32,
    index: u64,
) -> Result<(), NoMemory>
    requires sound { IsSound (slab_of parts.old) }
    requires known { class < class_count parts.old.shape }
    requires class { page_at parts.old.pages.items page ≡ Class class (used_in (page_at parts.old.pages.items page)) }
    ensures ok { OnOk result (slab_of parts.new ≡ given_in_page (slab_of parts.old) page class (used_in (page_at parts.old.pages.items page)) (without index (used_in (page_at parts.old.pages.items page)))) }
    ensures err { OnErr result (parts.new ≡ parts.old) }
{
    let used = indexes(&parts.pages[page as usize]);
    let full = is_full(parts.shape, class, used);
    let left = used.without(alloc, index)?;
    if left.len() == 0 {
        return give_last(parts, alloc, page, class);
    }
    if full {
        let list = parts.lists[class as usize].with_first(alloc, page)?;
        parts.lists[class as usize] = list;
    }
    parts.pages[page as usize] = PageState::Class { class, used: left };
    parts.stats[class as usize] = count_return(parts.stats[class as usize], 0);
    Ok(())
}

/// Gives the live block at this offset back.
pub fn give_back(parts: &mut Parts, alloc: Global, at: u64) -> Result<(), NoMemory>
    requires sound { IsSound (slab_of parts.old) }
    requires live { IsLive (slab_of parts.old) at }
    ensures ok { OnOk result (slab_of parts.new ≡ given_back (slab_of parts.old) at) }
    ensures err { OnErr result (parts.new ≡ parts.old) }
{
    let size = page_size(parts.shape);
    let offset = at - start_offset(parts.shape);
    let page = offset / size;
    match &parts.pages[page as usize] {
        PageState::First { pages } => {
            let count = *pages;
            give_pages(parts, alloc, page, count)
        }
        PageState::Class { class, used: _ } => {
            let class = *class;
            let index = offset % size / class_size(class);
            give_in_page(parts, alloc, page, class, index)
        }
        _ => Ok(()),
    }
}
