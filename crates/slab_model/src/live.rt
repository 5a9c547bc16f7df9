ghost use Rattle.std.specs.Prelude.{◌≡◌, ◌<◌, ◌*◌, ◌^◌};
ghost use Rattle.slab_model.specs.Geometry.{IsInLimits};
ghost use Rattle.slab_model.specs.Inside.{slab_of, IsSmallPage};
ghost use Rattle.slab_model.specs.Blocks.{live_bytes as live_bytes_of, live_in_page as live_of};
ghost use Rattle.slab_model.specs.Soundness.{IsSound};

use crate::geometry::{class_size, page_size, start_offset};
use crate::page::PageState;
use crate::parts::Parts;
use crate::shape::Shape;

/// The bytes of the live block that begins so far into the page, 0 where none begins there.
fn live_in_page(shape: Shape, page: &PageState, place: u64) -> u64
    requires limits { IsInLimits shape }
    requires page { IsSmallPage shape page.now }
    ensures { result ≡ live_of shape page.now place }
{
    match page {
        PageState::First { pages } => {
            if place == 0 {
                page_size(shape) * *pages
            } else {
                0
            }
        }
        PageState::Class { class, used } => {
            let size = class_size(*class);
            if place % size == 0 && used.contains(place / size) {
                size
            } else {
                0
            }
        }
        _ => 0,
    }
}

/// The bytes of the live block that begins at this offset, 0 where none begins there.
pub fn live_bytes(parts: &Parts, at: u64) -> u64
    requires { IsSound (slab_of parts.now) }
    ensures { result ≡ live_bytes_of (slab_of parts.now) at }
{
    let start = start_offset(parts.shape);
    if at < start {
        return 0;
    }
    let size = page_size(parts.shape);
    let page = (at - start) / size;
    if page >= parts.pages.len() as u64 {
        return 0;
    }
    live_in_page(
        parts.shape,
        &parts.pages[page as usize],
        (at - start) % size,
    )
}
