ghost use Rattle.std.specs.Prelude.{◌≡◌, ℕ, ◌+◌, ◌*◌, ◌-◌, ◌/◌, ◌<◌, ◌≤◌};
ghost use Rattle.slab_model.specs.Geometry.{IsInLimits, page_size as size_of_page, pages_of, start_of, greatest_zone, class_count as count_of_classes, most_classes, class_size as size_of_class, class_of as class_for, pages_for as whole_pages, blocks_in_page as blocks_of, first_index as first_of, usable_blocks as usable_of};

use crate::shape::Shape;

/// The binary logarithm of a page's bytes.
pub const PAGE_SHIFT: u32 = 12;

/// The bytes before the first descriptor: the pool header, the heads of the lists and the statistics.
pub const PREFIX_SIZE: u64 = 704;

/// The bytes of a page's descriptor.
pub const DESCRIPTOR_SIZE: u64 = 24;

/// The bytes of a page.
pub fn page_size(shape: Shape) -> u64
    requires { IsInLimits shape }
    ensures { result ≡ size_of_page shape }
{
    1 << shape.page_shift
}

/// The offset of the first page of a zone.
#[tactic(auto, unfolding(crate::specs::Geometry::start_of, crate::specs::Geometry::most_pages))]
pub fn start_offset(shape: Shape) -> u64
    requires { IsInLimits shape }
    ensures { result ≡ start_of shape }
{
    let size = page_size(shape);
    let most = (shape.bytes - PREFIX_SIZE) / (size + DESCRIPTOR_SIZE);
    (PREFIX_SIZE + DESCRIPTOR_SIZE * most + (size - 1)) / size * size
}

/// The number of pages of a zone.
#[tactic(auto, unfolding(crate::specs::Geometry::start_of, crate::specs::Geometry::most_pages, crate::specs::Geometry::pages_of))]
pub fn page_count(shape: Shape) -> u64
    requires { IsInLimits shape }
    ensures { result ≡ pages_of shape }
{
    let size = page_size(shape);
    let most = (shape.bytes - PREFIX_SIZE) / (size + DESCRIPTOR_SIZE);
    most.min((shape.bytes - start_offset(shape)) / size)
}

/// The number of classes: their blocks have 8 bytes up to half a page.
pub fn class_count(shape: Shape) -> u32
    requires { IsInLimits shape }
    ensures { result ≡ count_of_classes shape }
{
    shape.page_shift - 3
}

/// The class that serves a request of `size` bytes; none where whole pages do.
#[tactic(auto, unfolding(crate::specs::Geometry::class_of))]
pub fn class_of(shape: Shape, size: u64) -> Option<u32>
    requires { IsInLimits shape }
    ensures { result ≡ class_for shape size }
{
    if size > page_size(shape) / 2 {
        return None;
    }
    Some(match size {
        0..=8 => 0,
        9..=16 => 1,
        17..=32 => 2,
        33..=64 => 3,
        65..=128 => 4,
        129..=256 => 5,
        257..=512 => 6,
        513..=1024 => 7,
        _ => 8,
    })
}

/// The whole pages that hold `size` bytes.
#[tactic(auto, unfolding(crate::specs::Geometry::pages_for))]
pub fn pages_for(shape: Shape, size: u64) -> u64
    requires limits { IsInLimits shape }
    requires size { size ≤ greatest_zone }
    ensures { result ≡ whole_pages shape size }
{
    let page = page_size(shape);
    (size + (page - 1)) / page
}

/// The bytes of a class's blocks.
#[tactic(auto, unfolding(crate::specs::Geometry::class_size))]
pub fn class_size(class: u32) -> u64
    requires { class < most_classes }
    ensures { result ≡ size_of_class class }
{
    8 << class
}

/// The blocks of a class in a page.
#[tactic(auto, using(crate::proofs::ClassLemmas::cuts), unfolding(crate::specs::Geometry::blocks_in_page))]
pub fn blocks_in_page(shape: Shape, class: u32) -> u64
    requires limits { IsInLimits shape }
    requires class { class < count_of_classes shape }
    ensures { result ≡ blocks_of shape class }
{
    page_size(shape) / class_size(class)
}

/// The first block of a class in a page that can be granted: those before it hold a small class's own bits.
#[tactic(auto, using(crate::proofs::ClassLemmas::cuts), unfolding(crate::specs::Geometry::first_index))]
pub fn first_index(shape: Shape, class: u32) -> u64
    requires limits { IsInLimits shape }
    requires class { class < count_of_classes shape }
    ensures { result ≡ first_of shape class }
{
    let blocks = blocks_in_page(shape, class);
    if blocks > 64 {
        (blocks / (8 * class_size(class))).max(1)
    } else {
        0
    }
}

/// The blocks of a class in a page that can be granted.
#[tactic(auto, using(crate::proofs::ClassLemmas::first_below), unfolding(crate::specs::Geometry::usable_blocks))]
pub fn usable_blocks(shape: Shape, class: u32) -> u64
    requires limits { IsInLimits shape }
    requires class { class < count_of_classes shape }
    ensures { result ≡ usable_of shape class }
{
    blocks_in_page(shape, class) - first_index(shape, class)
}
