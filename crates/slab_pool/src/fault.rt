use thiserror::Error;

/// Why no live block begins at an offset.
#[derive(Clone, Copy, Debug, PartialEq, Eq, Error)]
pub enum FreeFault {
    /// The offset is in none of the zone's pages.
    #[error("the offset is in none of the zone's pages")]
    Outside,
    /// No block begins there: the offset is within a block or a page, or that of a block that holds its page's bits.
    #[error("no block begins at the offset")]
    WrongChunk,
    /// The block of that offset isn't used.
    #[error("the block at the offset isn't used")]
    AlreadyFree,
    /// The page of that offset is free.
    #[error("the page at the offset is free")]
    PageAlreadyFree,
    /// The page of that offset is a later page of a used run.
    #[error("the page at the offset is a later page of a run")]
    WrongPage,
}
