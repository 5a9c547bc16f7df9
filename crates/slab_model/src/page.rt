use crate::numbers::Numbers;

/// What a page is.
#[derive(Debug, Drop)]
pub enum PageState {
    /// In a free run.
    Free,
    /// The first page of a used run of so many pages.
    First { pages: u64 },
    /// A later page of a used run.
    Later,
    /// A page of a class, with its used indexes, ascending.
    Class { class: u32, used: Numbers },
}
