ghost use Rattle.std.specs.Prelude.{◌≡◌, ◌<◌, ◌≤◌, ◌↔◌, IsErr, IfOk};
ghost use Rattle.slab_model.specs.Geometry.{IsInLimits, pages_of, start_of, least_zone, greatest_zone, only_shift};

use slab_model::{Shape, page_count, start_offset};
use thiserror::Error;

/// The least bytes of a zone: eight pages.
pub const LEAST_ZONE: u64 = 32_768;

/// A zone of fewer bytes than eight pages is refused.
#[derive(Clone, Copy, Debug, PartialEq, Eq, Error)]
#[error("the zone is smaller than 8 pages")]
pub struct TooSmall;

/// How a zone is cut into its header, its descriptors and its pages.
///
/// The fields are always those that `of` gives.
#[derive(Clone, Copy, Debug, PartialEq, Eq)]
pub struct Geometry {
    /// The bytes of the zone.
    pub bytes: u64,
    /// The binary logarithm of a page's bytes.
    pub page_shift: u32,
    /// The number of pages.
    pub pages: u64,
    /// The byte offset of the first page.
    pub start: u64,
    ghost limits: { IsInLimits (record { bytes = bytes; page_shift = page_shift }) },
    ghost pages_are: { pages ≡ pages_of (record { bytes = bytes; page_shift = page_shift }) },
    ghost start_is: { start ≡ start_of (record { bytes = bytes; page_shift = page_shift }) },
}

impl Geometry {
    /// The geometry of a zone of `bytes` bytes, at most 67,108,864, in pages of `2 ^ page_shift` bytes.
    ///
    /// `TooSmall` comes exactly where `bytes` is below `LEAST_ZONE`.
    ///
    /// After `ngx_slab_init`, with this project's header of 200 bytes.
    pub fn of(bytes: u64, page_shift: u32) -> Result<Geometry, TooSmall>
        requires small { bytes ≤ greatest_zone }
        requires shift { page_shift ≡ only_shift }
        ensures too_small { let shape : Shape = record { bytes = bytes; page_shift = page_shift } in
            IsErr result ↔ (bytes < least_zone shape) }
        ensures bytes { IfOk result (λ g. g.bytes ≡ bytes) }
        ensures shift { IfOk result (λ g. g.page_shift ≡ page_shift) }
        ensures pages { let shape : Shape = record { bytes = bytes; page_shift = page_shift } in
            IfOk result (λ g. g.pages ≡ pages_of shape) }
        ensures start { let shape : Shape = record { bytes = bytes; page_shift = page_shift } in
            IfOk result (λ g. g.start ≡ start_of shape) }
    {
        if bytes < LEAST_ZONE {
            return Err(TooSmall);
        }
        let shape = Shape { bytes, page_shift };
        Ok(Geometry {
            bytes,
            page_shift,
            pages: page_count(shape),
            start: start_offset(shape),
        })
    }

    /// The bytes of the zone and the size of its pages.
    pub fn shape(&self) -> Shape
        ensures { result ≡ record { bytes = self.now.bytes; page_shift = self.now.page_shift } }
    {
        Shape {
            bytes: self.bytes,
            page_shift: self.page_shift,
        }
    }
}

#[cfg(test)]
mod tests {
    use super::*;

    #[test]
    fn geometries(rt: HostRuntime) {
        assert!(rt; Geometry::of(32_767, 12) == Err(TooSmall));
        for (bytes, pages, start) in [
            (32_768, 7, 4096),
            (33_664, 7, 4096),
            (1_048_576, 254, 8192),
            (10_485_760, 2544, 65_536),
        ] {
            if let Ok(g) = Geometry::of(bytes, 12) {
                assert_eq!(rt;
                    (g.bytes, g.page_shift, g.pages, g.start),
                    (bytes, 12, pages, start)
                );
            } else {
                panic!(rt; "refused {bytes}");
            }
        }
    }
}
